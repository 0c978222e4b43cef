//! What is printed of a recheck, written as it is made. All memory is taken before the first byte goes out: 64 KiB, the
//! bits packed, and for JSON a few numbers for each file and for each range of bytes that do not hold.
ghost use Rattle.std.specs.Io.KnownBytes.{Appends};
ghost use Rattle.std.specs.Prelude.{◌≡◌, ◌++◌, ℕ, List, IfErr, OnOk};
ghost use Rattle.tor_cli.specs.recheck.FoundFiles.{told_of_files};
ghost use Rattle.tor_cli.specs.recheck.Recheck.{IsText, counts_text, pieces_text, recheck_text};
ghost use Rattle.tor_cli.specs.steps.Reporting.{IsNotWritten};
ghost use Rattle.tor_cli.specs.text.Records.{recheck_line};
ghost use Rattle.tor_view.specs.Bitfield.{bitfield};
ghost use Rattle.tor_report.specs.Put.{Puts, Stops};
ghost use Rattle.tor_report.specs.Reports.{IsCutShort};

use crate::recheck::bytes_found::{BytesFound, bytes_found};
use crate::recheck::counts::counts_of;
use crate::recheck::found_text::put_files;
use crate::recheck::listing::{FileListing, Form};
use crate::recheck::record::put_record;
use std::alloc::Global;
use std::io::Write;
use tor_check::Torrent;
use tor_report::{Buffer, Judged, ReportFault, Segment, Sink};
use tor_spec::WriteFault;
use tor_view::{Bits, FileFound};

/// Writes two lines: how many pieces are there and right, of how many; and the bitfield. Below them the files that are
/// listed. Or the paths of the bad ones alone; or one line of JSON.
pub fn write_report<W: Write>(
    alloc: Global,
    out: &mut W,
    judged: &Judged,
    form: Form,
    listing: FileListing,
    bits: &Bits,
    files: &[FileFound],
) -> Result<(), ReportFault>
    ensures printed { OnOk result ((text : List ℕ)
        × IsText form listing judged.now.torrent judged.now.hashes bits.now files.now text
        × Appends (W.contents out.old) (W.contents out.new) text) }
    ensures stopped { IfErr result
        (IsNotWritten (IsText form listing judged.now.torrent judged.now.hashes bits.now files.now)
        (W.contents out.old) (W.contents out.new)) }
{
    match form {
        Form::Text => write_lines(alloc, out, &judged.torrent, form, listing, bits, files),
        Form::Brief => write_lines(alloc, out, &judged.torrent, form, listing, bits, files),
        Form::Json => {
            let told = bytes_found(alloc, &judged.torrent, bits, files)?;
            write_record(alloc, out, judged, listing, bits, &told)
        }
    }
}

/// Writes the pieces, and then the files.
fn write_lines<W: Write>(
    alloc: Global,
    out: &mut W,
    torrent: &Torrent,
    form: Form,
    listing: FileListing,
    bits: &Bits,
    files: &[FileFound],
) -> Result<(), ReportFault>
    ensures printed { OnOk result (Appends (W.contents out.old) (W.contents out.new)
        (pieces_text form listing bits.now ++ told_of_files listing files.now torrent.now.files)) }
    ensures stopped { IfErr result
        (IsCutShort (pieces_text form listing bits.now ++ told_of_files listing files.now torrent.now.files)
        (W.contents out.old) (W.contents out.new)) }
{
    let mut buffer = Buffer::new(alloc)?;
    let packed = bits.to_bytes(alloc)?;
    put_pieces(&mut buffer, out, form, listing, bits, &packed)?;
    put_files(&mut buffer, out, listing, files, torrent.files())?;
    buffer.end(out)?;
    Ok(())
}

/// Writes the record of both, with the bytes of each file that do not hold.
fn write_record<W: Write>(
    alloc: Global,
    out: &mut W,
    judged: &Judged,
    listing: FileListing,
    bits: &Bits,
    told: &[BytesFound],
) -> Result<(), ReportFault>
    ensures printed { OnOk result (Appends (W.contents out.old) (W.contents out.new)
        (recheck_line listing judged.now.torrent judged.now.hashes bits.now told.now)) }
    ensures stopped { IfErr result
        (IsCutShort (recheck_line listing judged.now.torrent judged.now.hashes bits.now told.now)
        (W.contents out.old) (W.contents out.new)) }
{
    let mut buffer = Buffer::new(alloc)?;
    let packed = bits.to_bytes(alloc)?;
    put_record(&mut buffer, out, judged, listing, bits, &packed, told)?;
    buffer.end(out)?;
    Ok(())
}

/// Puts what is told of the pieces: nothing if paths alone are asked for. The bits are handed in packed too.
fn put_pieces<S: Sink>(
    buffer: &mut Buffer,
    out: &mut S,
    form: Form,
    listing: FileListing,
    bits: &Bits,
    packed: &[u8],
) -> Result<(), WriteFault>
    requires { packed.now ≡ bitfield bits.now }
    ensures put { OnOk result (Puts S.took (pieces_text form listing bits.now)
        out.old buffer.old out.new buffer.new) }
    ensures stopped { IfErr result (λ fault. Stops S.took S.fails (pieces_text form listing bits.now)
        out.old buffer.old out.new fault.written) }
{
    match (form, listing) {
        (_, FileListing::BadPaths) => Ok(()),
        (Form::Brief, _) => put_counts(buffer, out, bits),
        _ => put_bits(buffer, out, bits, packed),
    }
}

/// Puts how many pieces are there and right, of how many.
fn put_counts<S: Sink>(buffer: &mut Buffer, out: &mut S, bits: &Bits) -> Result<(), WriteFault>
    ensures put { OnOk result (Puts S.took (counts_text bits.now)
        out.old buffer.old out.new buffer.new) }
    ensures stopped { IfErr result (λ fault. Stops S.took S.fails (counts_text bits.now)
        out.old buffer.old out.new fault.written) }
{
    let counts = counts_of(bits);
    let segments = [
        Segment::Text("pieces "),
        Segment::Number(counts.good),
        Segment::Text(" of "),
        Segment::Number(counts.pieces),
        Segment::Text("\n"),
    ];
    buffer.put_all(out, &segments)
}

/// Puts the same, and the bitfield.
fn put_bits<S: Sink>(
    buffer: &mut Buffer,
    out: &mut S,
    bits: &Bits,
    packed: &[u8],
) -> Result<(), WriteFault>
    requires { packed.now ≡ bitfield bits.now }
    ensures put { OnOk result (Puts S.took (recheck_text bits.now)
        out.old buffer.old out.new buffer.new) }
    ensures stopped { IfErr result (λ fault. Stops S.took S.fails (recheck_text bits.now)
        out.old buffer.old out.new fault.written) }
{
    let counts = counts_of(bits);
    let segments = [
        Segment::Text("pieces "),
        Segment::Number(counts.good),
        Segment::Text(" of "),
        Segment::Number(counts.pieces),
        Segment::Text("\nbits "),
        Segment::Digits(packed),
        Segment::Text("\n"),
    ];
    buffer.put_all(out, &segments)
}
