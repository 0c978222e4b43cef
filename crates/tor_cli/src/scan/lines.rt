//! An inventory as lines, and its paths alone.
ghost use Rattle.std.specs.Prelude.{◌≡◌, IfErr, OnOk, flat_map, length};
ghost use Rattle.tor_cli.specs.make.FileSizes.{total_of};
ghost use Rattle.tor_cli.specs.make.PathsText.{listed_path, paths_text};
ghost use Rattle.tor_cli.specs.scan.ScanText.{file_lines, numbered_line, refused_line, scan_lines, total_lines};
ghost use Rattle.tor_report.specs.Escape.{escaped_bytes};
ghost use Rattle.tor_report.specs.Put.{Puts, Stops};
ghost use Rattle.tor_report.specs.Spelled.{spelled};

use crate::scan::inventory::Inventory;
use crate::scan::refusals::{refusal_code, refusal_word};
use std::str;
use tor_meta::auto_piece_length;
use tor_report::{Buffer, Segment, Sink, Spelling};
use tor_source::Refused;
use tor_spec::WriteFault;
use tor_tree::FilePath;

/// Puts the files in the torrent's order, the totals, and what is refused. The user's text is escaped.
pub fn put_lines<S: Sink>(
    buffer: &mut Buffer,
    out: &mut S,
    found: &Inventory,
) -> Result<(), WriteFault>
    requires { length found.now.lengths.items ≡ length found.now.paths.items }
    ensures put { OnOk result (Puts S.took (scan_lines found.now) out.old buffer.old out.new buffer.new) }
    ensures stopped { IfErr result (λ fault. Stops S.took S.fails (scan_lines found.now)
        out.old buffer.old out.new fault.written) }
{
    put_files(buffer, out, found)?;
    put_totals(buffer, out, found)?;
    put_refusals(buffer, out, &found.refused)
}

fn put_files<S: Sink>(buffer: &mut Buffer, out: &mut S, found: &Inventory) -> Result<(), WriteFault>
    requires { length found.now.lengths.items ≡ length found.now.paths.items }
    ensures put { OnOk result (Puts S.took (file_lines found.now) out.old buffer.old out.new buffer.new) }
    ensures stopped { IfErr result (λ fault. Stops S.took S.fails (file_lines found.now)
        out.old buffer.old out.new fault.written) }
{
    'files: for number in 0..found.paths.len() {
        put_file(
            buffer,
            out,
            number,
            found.lengths[number],
            &found.paths[number],
        )?;
    }
    Ok(())
}

fn put_file<S: Sink>(
    buffer: &mut Buffer,
    out: &mut S,
    number: usize,
    length: u64,
    path: &FilePath,
) -> Result<(), WriteFault>
    ensures put { OnOk result (Puts S.took (numbered_line number length path.now)
        out.old buffer.old out.new buffer.new) }
    ensures stopped { IfErr result (λ fault. Stops S.took S.fails (numbered_line number length path.now)
        out.old buffer.old out.new fault.written) }
{
    let segments = [
        Segment::Number(number as u64),
        Segment::Text(" "),
        Segment::Number(length),
        Segment::Text(" "),
        Segment::Path(Spelling::InLine, path),
        Segment::Text("\n"),
    ];
    buffer.put_all(out, &segments)
}

/// Puts how many files there are, their bytes, and the piece length that suits these.
fn put_totals<S: Sink>(
    buffer: &mut Buffer,
    out: &mut S,
    found: &Inventory,
) -> Result<(), WriteFault>
    ensures put { OnOk result (Puts S.took (total_lines found.now) out.old buffer.old out.new buffer.new) }
    ensures stopped { IfErr result (λ fault. Stops S.took S.fails (total_lines found.now)
        out.old buffer.old out.new fault.written) }
{
    let bytes = total_of(&found.lengths);
    let segments = [
        Segment::Text("files "),
        Segment::Number(found.paths.len() as u64),
        Segment::Text("\nbytes "),
        Segment::Number(bytes),
        Segment::Text("\npiece length "),
        Segment::Number(auto_piece_length(bytes)),
        Segment::Text("\n"),
    ];
    buffer.put_all(out, &segments)
}

/// The bytes of files of these lengths, at most 2^64 - 1.
pub fn total_of(lengths: &[u64]) -> u64
    ensures { result ≡ total_of lengths.now }
{
    let mut total = 0_u64;
    'lengths: for length in lengths {
        total = total.saturating_add(*length);
    }
    total
}

fn put_refusals<S: Sink>(
    buffer: &mut Buffer,
    out: &mut S,
    refused: &[Refused],
) -> Result<(), WriteFault>
    ensures put { OnOk result (Puts S.took (flat_map refused_line refused.now)
        out.old buffer.old out.new buffer.new) }
    ensures stopped { IfErr result (λ fault. Stops S.took S.fails (flat_map refused_line refused.now)
        out.old buffer.old out.new fault.written) }
{
    'all: for one in refused {
        put_refusal(buffer, out, one)?;
    }
    Ok(())
}

fn put_refusal<S: Sink>(buffer: &mut Buffer, out: &mut S, one: &Refused) -> Result<(), WriteFault>
    ensures put { OnOk result (Puts S.took (refused_line one.now) out.old buffer.old out.new buffer.new) }
    ensures stopped { IfErr result (λ fault. Stops S.took S.fails (refused_line one.now)
        out.old buffer.old out.new fault.written) }
{
    let segments = [
        Segment::Text("refused "),
        Segment::Text(refusal_code(&one.refusal)),
        Segment::Text(" "),
        Segment::Text(refusal_word(&one.refusal)),
        Segment::Text(" "),
        Segment::Spelled(spelling_in_line(&one.path), &one.path),
        Segment::Text("\n"),
    ];
    buffer.put_all(out, &segments)
}

/// How bytes are spelled in a line: text as it is but for control bytes, and bytes that are no text in ASCII.
fn spelling_in_line(bytes: &[u8]) -> Spelling
    ensures { spelled result bytes.now ≡ escaped_bytes bytes.now }
{
    match str::from_utf8(bytes) {
        Ok(_) => Spelling::InLine,
        Err(_) => Spelling::InAscii,
    }
}

/// Puts the paths as they are, each ended by a zero byte.
pub fn put_paths<S: Sink>(
    buffer: &mut Buffer,
    out: &mut S,
    paths: &[FilePath],
) -> Result<(), WriteFault>
    ensures put { OnOk result (Puts S.took (paths_text paths.now) out.old buffer.old out.new buffer.new) }
    ensures stopped { IfErr result (λ fault. Stops S.took S.fails (paths_text paths.now)
        out.old buffer.old out.new fault.written) }
{
    'all: for path in paths {
        put_path(buffer, out, path)?;
    }
    Ok(())
}

fn put_path<S: Sink>(buffer: &mut Buffer, out: &mut S, path: &FilePath) -> Result<(), WriteFault>
    ensures put { OnOk result (Puts S.took (listed_path path.now) out.old buffer.old out.new buffer.new) }
    ensures stopped { IfErr result (λ fault. Stops S.took S.fails (listed_path path.now)
        out.old buffer.old out.new fault.written) }
{
    buffer.put_path(out, path, Spelling::AsIs)?;
    buffer.put(out, b"\0")
}
