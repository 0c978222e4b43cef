//! What is printed of the files that a torrent does not have.
ghost use Rattle.serde_json.specs.Data.{array, object};
ghost use Rattle.serde_json.specs.View.{items_of, view};
ghost use Rattle.std.specs.Prelude.{◌≡◌, ◌++◌, IfOk, OnOk, map, string_bytes};
ghost use Rattle.tor_cli.specs.recheck.Extra.{extra_data, extra_line, extra_lines, extra_members, extra_record};
ghost use Rattle.tor_cli.specs.recheck.Extra.{ended_path, ended_paths, extra_text};

use crate::scan::words::ScanForm;
use crate::text::escape::{escaped_bytes, printable};
use crate::text::json_line::line_of;
use serde_json::{Value, json};
use std::alloc::{AllocError, Global};
use std::fmt::Write;

/// The paths in this form.
pub fn extra_text(alloc: Global, form: ScanForm, extra: &[Vec<u8>]) -> Result<Vec<u8>, AllocError>
    ensures { IfOk result (λ text. text.items ≡ extra_text form extra.now) }
{
    match form {
        ScanForm::Lines => Ok(extra_lines(alloc, extra)?.into_bytes()),
        ScanForm::Paths => ended_paths(alloc, extra),
        ScanForm::Record => Ok(extra_record(alloc, extra)?.into_bytes()),
    }
}

/// A line for each.
fn extra_lines(alloc: Global, extra: &[Vec<u8>]) -> Result<String, AllocError>
    ensures { IfOk result (λ lines. string_bytes lines ≡ extra_lines extra.now) }
{
    let mut lines = String::new(alloc);
    'paths: for path in extra {
        push_line(alloc, &mut lines, path)?;
    }
    Ok(lines)
}

fn push_line(alloc: Global, lines: &mut String, path: &Vec<u8>) -> Result<(), AllocError>
    ensures { OnOk result (string_bytes lines.new ≡ string_bytes lines.old ++ extra_line path.now) }
{
    let path = escaped_bytes(alloc, path)?;
    writeln!(lines, "{path}")
}

/// As they are, each ended by a zero byte.
fn ended_paths(alloc: Global, extra: &[Vec<u8>]) -> Result<Vec<u8>, AllocError>
    ensures { IfOk result (λ text. text.items ≡ ended_paths extra.now) }
{
    let mut text = Vec::new(alloc);
    'paths: for path in extra {
        push_ended(&mut text, path)?;
    }
    Ok(text)
}

fn push_ended(text: &mut Vec<u8>, path: &Vec<u8>) -> Result<(), AllocError>
    ensures { OnOk result (text.new.items ≡ text.old.items ++ ended_path path.now) }
{
    text.extend_from_slice(path)?;
    text.push(0)?;
    Ok(())
}

/// As a member of an object of JSON.
fn extra_record(alloc: Global, extra: &[Vec<u8>]) -> Result<String, AllocError>
    ensures { IfOk result (λ line. string_bytes line ≡ extra_record extra.now) }
{
    line_of(alloc, &extra_value(alloc, extra)?)
}

fn extra_value(alloc: Global, extra: &[Vec<u8>]) -> Result<Value, AllocError>
    ensures { IfOk result (λ value. view value ≡ object (extra_members extra.now)) }
{
    json!(in alloc; {"extra": paths_value(alloc, extra)?})
}

fn paths_value(alloc: Global, extra: &[Vec<u8>]) -> Result<Value, AllocError>
    ensures { IfOk result (λ value. view value ≡ array (items_of (map extra_data extra.now))) }
{
    let mut values = Vec::with_capacity(alloc, extra.len())?;
    'paths: for path in extra {
        values.push(path_value(alloc, path)?)?;
    }
    Ok(Value::Array(values))
}

fn path_value(alloc: Global, path: &Vec<u8>) -> Result<Value, AllocError>
    ensures { IfOk result (λ value. view value ≡ extra_data path.now) }
{
    let text = printable(alloc, path)?;
    Value::try_from_str(alloc, text.as_str())
}
