//! What a recheck finds, as JSON.
ghost use Rattle.hex.specs.Hex.{encode_lower};
ghost use Rattle.serde_json.specs.Data.{object, string};
ghost use Rattle.serde_json.specs.View.{view};
ghost use Rattle.serde_json.specs.Written.{compact_text};
ghost use Rattle.std.specs.Prelude.{◌≡◌, IfErr, IfOk, OnOk};
ghost use Rattle.tor_cli.specs.steps.FoundMembers.{after_files, before_files};
ghost use Rattle.tor_cli.specs.text.Records.{recheck_line, recheck_members};
ghost use Rattle.tor_view.specs.Bitfield.{bitfield};
ghost use Rattle.tor_report.specs.Put.{Puts, Stops};

use crate::recheck::bytes_found::BytesFound;
use crate::recheck::counts::counts_of;
use crate::recheck::listed_records::put_files;
use crate::recheck::listing::FileListing;
use hex::encode;
use serde_json::Value;
use std::alloc::{AllocError, Global};
use tor_check::Torrent;
use tor_report::{Buffer, Judged, Segment, Sink, v1_of, v2_of, word_of};
use tor_spec::{Hashes, WriteFault};
use tor_view::Bits;

/// Puts what was found in one line: all that the lines of `recheck` tell. The bits are handed in packed too.
pub fn put_record<S: Sink>(
    buffer: &mut Buffer,
    out: &mut S,
    judged: &Judged,
    listing: FileListing,
    bits: &Bits,
    packed: &[u8],
    told: &[BytesFound],
) -> Result<(), WriteFault>
    requires { packed.now ≡ bitfield bits.now }
    ensures put { OnOk result (Puts S.took
        (recheck_line listing judged.now.torrent judged.now.hashes bits.now told.now)
        out.old buffer.old out.new buffer.new) }
    ensures stopped { IfErr result (λ fault. Stops S.took S.fails
        (recheck_line listing judged.now.torrent judged.now.hashes bits.now told.now)
        out.old buffer.old out.new fault.written) }
{
    put_object(buffer, out, judged, listing, bits, packed, told)?;
    buffer.put(out, b"\n")
}

fn put_object<S: Sink>(
    buffer: &mut Buffer,
    out: &mut S,
    judged: &Judged,
    listing: FileListing,
    bits: &Bits,
    packed: &[u8],
    told: &[BytesFound],
) -> Result<(), WriteFault>
    requires { packed.now ≡ bitfield bits.now }
    ensures put { OnOk result (Puts S.took
        (compact_text (object (recheck_members listing judged.now.torrent judged.now.hashes bits.now told.now)))
        out.old buffer.old out.new buffer.new) }
    ensures stopped { IfErr result (λ fault. Stops S.took S.fails
        (compact_text (object (recheck_members listing judged.now.torrent judged.now.hashes bits.now told.now)))
        out.old buffer.old out.new fault.written) }
{
    put_before_files(buffer, out, packed, &judged.hashes)?;
    put_files(buffer, out, listing, told, judged.torrent.files())?;
    put_after_files(buffer, out, &judged.torrent, bits)
}

/// Puts the members before the files.
fn put_before_files<'a, S: Sink>(
    buffer: &mut Buffer,
    out: &mut S,
    packed: &'a [u8],
    hashes: &'a Hashes,
) -> Result<(), WriteFault>
    ensures put { OnOk result (Puts S.took (before_files packed.now hashes.now)
        out.old buffer.old out.new buffer.new) }
    ensures stopped { IfErr result (λ fault. Stops S.took S.fails (before_files packed.now hashes.now)
        out.old buffer.old out.new fault.written) }
{
    let segments = [
        Segment::Text("{\"bits\":"),
        Segment::JsonHash("", Some(packed)),
        Segment::Text(",\"btih\":"),
        Segment::JsonHash("", v1_of(hashes)),
        Segment::Text(",\"btmh\":"),
        Segment::JsonHash("1220", v2_of(hashes)),
        Segment::Text(",\"files\":"),
    ];
    buffer.put_all(out, &segments)
}

/// Puts the members after the files.
fn put_after_files<S: Sink>(
    buffer: &mut Buffer,
    out: &mut S,
    torrent: &Torrent,
    bits: &Bits,
) -> Result<(), WriteFault>
    ensures put { OnOk result (Puts S.took (after_files torrent.now bits.now)
        out.old buffer.old out.new buffer.new) }
    ensures stopped { IfErr result (λ fault. Stops S.took S.fails (after_files torrent.now bits.now)
        out.old buffer.old out.new fault.written) }
{
    let counts = counts_of(bits);
    let segments = [
        Segment::Text(",\"good\":"),
        Segment::Number(counts.good),
        Segment::Text(",\"kind\":"),
        Segment::JsonString(word_of(torrent.kind()).as_bytes()),
        Segment::Text(",\"name\":"),
        Segment::JsonString(torrent.name().as_bytes()),
        Segment::Text(",\"piece_length\":"),
        Segment::Number(torrent.piece_length()),
        Segment::Text(",\"pieces\":"),
        Segment::Number(counts.pieces),
        Segment::Text("}"),
    ];
    buffer.put_all(out, &segments)
}

/// The digits of the bitfield.
pub fn bits_value(alloc: Global, bits: &Bits) -> Result<Value, AllocError>
    ensures { IfOk result (λ value. view value ≡ string (encode_lower (bitfield bits.now))) }
{
    let bitfield = bits.to_bytes(alloc)?;
    let digits = encode(alloc, bitfield.as_slice())?;
    Value::try_from_str(alloc, digits.as_str())
}
