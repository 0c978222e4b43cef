//! An inventory as JSON.
ghost use Rattle.serde_json.specs.Written.{comma_if, compact_text};
ghost use Rattle.std.specs.List.{range_with_len};
ghost use Rattle.std.specs.Prelude.{◌≡◌, ◌++◌, IfErr, OnOk, false, length, map};
ghost use Rattle.tor_cli.specs.make.FileSizes.{total_of};
ghost use Rattle.tor_cli.specs.steps.Items.{items_front};
ghost use Rattle.tor_cli.specs.steps.ScanMembers.{files_member, refused_member};
ghost use Rattle.tor_cli.specs.text.Records.{refused_data, scan_line, scanned_data};
ghost use Rattle.tor_report.specs.Put.{Puts, Stops};
ghost use Rattle.tor_report.specs.Records.{sized_data};

use crate::scan::inventory::Inventory;
use crate::scan::lines::total_of;
use crate::scan::refusals::{refusal_code, refusal_word};
use crate::text::json_line::comma_if;
use tor_meta::auto_piece_length;
use tor_report::{Buffer, Segment, Sink};
use tor_source::Refused;
use tor_spec::WriteFault;
use tor_tree::FilePath;

/// Puts the inventory in one line: all that the lines of `scan` tell.
pub fn put_record<S: Sink>(
    buffer: &mut Buffer,
    out: &mut S,
    found: &Inventory,
) -> Result<(), WriteFault>
    requires { length found.now.lengths.items ≡ length found.now.paths.items }
    ensures put { OnOk result (Puts S.took (scan_line found.now) out.old buffer.old out.new buffer.new) }
    ensures stopped { IfErr result (λ fault. Stops S.took S.fails (scan_line found.now)
        out.old buffer.old out.new fault.written) }
{
    let bytes = total_of(&found.lengths);
    put_files_member(buffer, out, found, bytes)?;
    put_refused_member(buffer, out, &found.refused, auto_piece_length(bytes))?;
    buffer.put(out, b"}\n")
}

/// Puts the members up to the files.
fn put_files_member<S: Sink>(
    buffer: &mut Buffer,
    out: &mut S,
    found: &Inventory,
    bytes: u64,
) -> Result<(), WriteFault>
    requires { length found.now.lengths.items ≡ length found.now.paths.items }
    ensures put { OnOk result (Puts S.took (files_member bytes found.now) out.old buffer.old out.new buffer.new) }
    ensures stopped { IfErr result (λ fault. Stops S.took S.fails (files_member bytes found.now)
        out.old buffer.old out.new fault.written) }
{
    let segments = [
        Segment::Text("{\"bytes\":"),
        Segment::Number(bytes),
        Segment::Text(",\"files\":["),
    ];
    buffer.put_all(out, &segments)?;
    put_files(buffer, out, found)?;
    buffer.put(out, b"]")
}

/// Puts the files, a comma between each two.
fn put_files<S: Sink>(buffer: &mut Buffer, out: &mut S, found: &Inventory) -> Result<(), WriteFault>
    requires { length found.now.lengths.items ≡ length found.now.paths.items }
    ensures put { OnOk result (Puts S.took
        (items_front false (map (scanned_data found.now) (range_with_len 0 (length found.now.paths.items))))
        out.old buffer.old out.new buffer.new) }
    ensures stopped { IfErr result (λ fault. Stops S.took S.fails
        (items_front false (map (scanned_data found.now) (range_with_len 0 (length found.now.paths.items))))
        out.old buffer.old out.new fault.written) }
{
    let mut later = false;
    'files: for number in 0..found.paths.len() {
        put_file(
            buffer,
            out,
            later,
            found.lengths[number],
            &found.paths[number],
        )?;
        later = true;
    }
    Ok(())
}

fn put_file<S: Sink>(
    buffer: &mut Buffer,
    out: &mut S,
    later: bool,
    length: u64,
    path: &FilePath,
) -> Result<(), WriteFault>
    ensures put { OnOk result (Puts S.took (comma_if later ++ compact_text (sized_data length path.now))
        out.old buffer.old out.new buffer.new) }
    ensures stopped { IfErr result (λ fault.
        Stops S.took S.fails (comma_if later ++ compact_text (sized_data length path.now))
        out.old buffer.old out.new fault.written) }
{
    let segments = [
        Segment::Text(comma_if(later)),
        Segment::Text("{\"length\":"),
        Segment::Number(length),
        Segment::Text(",\"path\":"),
        Segment::JsonPath(path),
        Segment::Text("}"),
    ];
    buffer.put_all(out, &segments)
}

/// Puts the members from the files up to what is refused.
fn put_refused_member<S: Sink>(
    buffer: &mut Buffer,
    out: &mut S,
    refused: &[Refused],
    piece_length: u64,
) -> Result<(), WriteFault>
    ensures put { OnOk result (Puts S.took (refused_member piece_length refused.now)
        out.old buffer.old out.new buffer.new) }
    ensures stopped { IfErr result (λ fault. Stops S.took S.fails (refused_member piece_length refused.now)
        out.old buffer.old out.new fault.written) }
{
    let segments = [
        Segment::Text(",\"piece_length\":"),
        Segment::Number(piece_length),
        Segment::Text(",\"refused\":["),
    ];
    buffer.put_all(out, &segments)?;
    put_refusals(buffer, out, refused)?;
    buffer.put(out, b"]")
}

/// Puts what is refused, a comma between each two.
fn put_refusals<S: Sink>(
    buffer: &mut Buffer,
    out: &mut S,
    refused: &[Refused],
) -> Result<(), WriteFault>
    ensures put { OnOk result (Puts S.took (items_front false (map refused_data refused.now))
        out.old buffer.old out.new buffer.new) }
    ensures stopped { IfErr result (λ fault. Stops S.took S.fails (items_front false (map refused_data refused.now))
        out.old buffer.old out.new fault.written) }
{
    let mut later = false;
    'all: for one in refused {
        put_refusal(buffer, out, later, one)?;
        later = true;
    }
    Ok(())
}

fn put_refusal<S: Sink>(
    buffer: &mut Buffer,
    out: &mut S,
    later: bool,
    one: &Refused,
) -> Result<(), WriteFault>
    ensures put { OnOk result (Puts S.took (comma_if later ++ compact_text (refused_data one.now))
        out.old buffer.old out.new buffer.new) }
    ensures stopped { IfErr result (λ fault.
        Stops S.took S.fails (comma_if later ++ compact_text (refused_data one.now))
        out.old buffer.old out.new fault.written) }
{
    let before = [Segment::Text(comma_if(later)), Segment::Text("{\"path\":")];
    buffer.put_all(out, &before)?;
    buffer.put_json_bytes(out, &one.path)?;
    let after = [
        Segment::Text(",\"refusal\":"),
        Segment::JsonString(refusal_code(&one.refusal).as_bytes()),
        Segment::Text(",\"what\":"),
        Segment::JsonString(refusal_word(&one.refusal).as_bytes()),
        Segment::Text("}"),
    ];
    buffer.put_all(out, &after)
}
