//! What is told of a file after a recheck, as JSON.
ghost use Rattle.serde_json.specs.Data.{array};
ghost use Rattle.serde_json.specs.View.{items_of};
ghost use Rattle.serde_json.specs.Written.{compact_text};
ghost use Rattle.std.specs.Prelude.{◌≡◌, ◌++◌, IfErr, OnOk, flat_map, map};
ghost use Rattle.tor_cli.specs.steps.FoundMembers.{found_members};
ghost use Rattle.tor_cli.specs.text.Records.{found_data, length_data, range_data};
ghost use Rattle.tor_report.specs.Put.{Puts, Stops};
ghost use Rattle.tor_report.specs.Segments.{segment_text};
ghost use Rattle.tor_report.specs.steps.Members.{item_after};

use crate::recheck::bytes_found::BytesFound;
use crate::recheck::found_text::state_word;
use tor_report::{Buffer, Segment, Sink};
use tor_spec::WriteFault;
use tor_tree::TreeFile;
use tor_view::{ByteRange, FileFound};

/// Puts the object of a file.
pub fn put_found<S: Sink>(
    buffer: &mut Buffer,
    out: &mut S,
    told: &BytesFound,
    file: &TreeFile,
) -> Result<(), WriteFault>
    ensures put { OnOk result (Puts S.took (compact_text (found_data told.now file.now))
        out.old buffer.old out.new buffer.new) }
    ensures stopped { IfErr result (λ fault. Stops S.took S.fails (compact_text (found_data told.now file.now))
        out.old buffer.old out.new fault.written) }
{
    buffer.put(out, b"{\"bad\":")?;
    put_ranges(buffer, out, &told.bad)?;
    put_members(buffer, out, &told.found, file)
}

/// Puts the members after the ranges.
fn put_members<S: Sink>(
    buffer: &mut Buffer,
    out: &mut S,
    found: &FileFound,
    file: &TreeFile,
) -> Result<(), WriteFault>
    ensures put { OnOk result (Puts S.took (found_members found.now file.now)
        out.old buffer.old out.new buffer.new) }
    ensures stopped { IfErr result (λ fault. Stops S.took S.fails (found_members found.now file.now)
        out.old buffer.old out.new fault.written) }
{
    let segments = [
        Segment::Text(",\"good\":"),
        Segment::Number(found.good),
        Segment::Text(",\"path\":"),
        Segment::JsonPath(&file.path),
        Segment::Text(",\"pieces\":"),
        Segment::Number(found.pieces),
        Segment::Text(",\"state\":"),
        Segment::JsonString(state_word(found.state).as_bytes()),
        Segment::Text(",\"there\":"),
        length_segment(found.there),
        Segment::Text(",\"told\":"),
        Segment::Number(found.told),
        Segment::Text("}"),
    ];
    buffer.put_all(out, &segments)
}

/// A length in bytes; `null` if there is none.
fn length_segment(length: Option<u64>) -> Segment<'static>
    ensures { segment_text result ≡ compact_text (length_data length) }
{
    match length {
        Some(length) => Segment::Number(length),
        None => Segment::Text("null"),
    }
}

/// Puts ranges as an array.
fn put_ranges<S: Sink>(
    buffer: &mut Buffer,
    out: &mut S,
    ranges: &[ByteRange],
) -> Result<(), WriteFault>
    ensures put { OnOk result (Puts S.took (compact_text (array (items_of (map range_data ranges.now))))
        out.old buffer.old out.new buffer.new) }
    ensures stopped { IfErr result (λ fault.
        Stops S.took S.fails (compact_text (array (items_of (map range_data ranges.now))))
        out.old buffer.old out.new fault.written) }
{
    let Some((first, others)) = ranges.split_first() else {
        return buffer.put(out, b"[]");
    };
    put_range(buffer, out, "[", first)?;
    put_other_ranges(buffer, out, others)?;
    buffer.put(out, b"]")
}

fn put_other_ranges<S: Sink>(
    buffer: &mut Buffer,
    out: &mut S,
    ranges: &[ByteRange],
) -> Result<(), WriteFault>
    ensures put { OnOk result (Puts S.took (flat_map (item_after range_data) ranges.now)
        out.old buffer.old out.new buffer.new) }
    ensures stopped { IfErr result (λ fault.
        Stops S.took S.fails (flat_map (item_after range_data) ranges.now)
        out.old buffer.old out.new fault.written) }
{
    'all: for range in ranges {
        put_range(buffer, out, ",", range)?;
    }
    Ok(())
}

/// Puts a range, behind this text.
fn put_range<S: Sink>(
    buffer: &mut Buffer,
    out: &mut S,
    before: &str,
    range: &ByteRange,
) -> Result<(), WriteFault>
    ensures put { OnOk result (Puts S.took (before.now ++ compact_text (range_data range.now))
        out.old buffer.old out.new buffer.new) }
    ensures stopped { IfErr result (λ fault.
        Stops S.took S.fails (before.now ++ compact_text (range_data range.now))
        out.old buffer.old out.new fault.written) }
{
    let segments = [
        Segment::Text(before),
        Segment::Text("["),
        Segment::Number(range.from),
        Segment::Text(","),
        Segment::Number(range.to),
        Segment::Text("]"),
    ];
    buffer.put_all(out, &segments)
}
