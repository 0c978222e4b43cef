//! What a torrent describes, written as it is made. All memory is taken before the first byte goes out: 64 KiB, and for
//! the object a few numbers for each file.
ghost use Rattle.std.specs.Io.KnownBytes.{Appends};
ghost use Rattle.std.specs.Prelude.{IfErr, OnOk};
ghost use Rattle.tor_bencode.specs.RefView.{view};
ghost use Rattle.tor_report.specs.Put.{Puts, Stops};
ghost use Rattle.serde_json.specs.Data.{object};
ghost use Rattle.serde_json.specs.Written.{compact_text};
ghost use Rattle.tor_report.specs.Records.{check_line, check_members, members_of, record_line};
ghost use Rattle.tor_report.specs.Reports.{IsCutShort, IsReportStopped};
ghost use Rattle.tor_report.specs.Shown.{check_lines, ended_paths, rooted_lines};

use crate::buffer::Buffer;
use crate::fault::ReportFault;
use crate::sink::Sink;
use std::alloc::Global;
use std::io::Write;
use tor_bencode::ItemRef;
use tor_check::Torrent;
use tor_spec::{Hashes, WriteFault};
use tor_view::{FilePieces, files_in_pieces};

/// Writes the torrent as a whole, then its files in its order, then its info hashes. The user's text is escaped.
pub fn write_lines<W: Write>(
    alloc: Global,
    out: &mut W,
    torrent: &Torrent,
    hashes: &Hashes,
) -> Result<(), ReportFault>
    ensures printed { OnOk result
        (Appends (W.contents out.old) (W.contents out.new) (check_lines torrent.now hashes.now)) }
    ensures stopped { IfErr result
        (IsCutShort (check_lines torrent.now hashes.now) (W.contents out.old) (W.contents out.new)) }
{
    let mut buffer = Buffer::new(alloc)?;
    buffer.put_lines(out, torrent, hashes)?;
    buffer.end(out)?;
    Ok(())
}

/// Writes what `write_lines` writes, and then a line for each file that has a root.
pub fn write_rooted_lines<W: Write>(
    alloc: Global,
    out: &mut W,
    torrent: &Torrent,
    hashes: &Hashes,
) -> Result<(), ReportFault>
    ensures printed { OnOk result
        (Appends (W.contents out.old) (W.contents out.new) (rooted_lines torrent.now hashes.now)) }
    ensures stopped { IfErr result
        (IsCutShort (rooted_lines torrent.now hashes.now) (W.contents out.old) (W.contents out.new)) }
{
    let mut buffer = Buffer::new(alloc)?;
    buffer.put_rooted_lines(out, torrent, hashes)?;
    buffer.end(out)?;
    Ok(())
}

/// Writes the paths of the files in the torrent's order, as they are, each ended by a zero byte.
pub fn write_paths<W: Write>(
    alloc: Global,
    out: &mut W,
    torrent: &Torrent,
) -> Result<(), ReportFault>
    ensures printed { OnOk result
        (Appends (W.contents out.old) (W.contents out.new) (ended_paths torrent.now)) }
    ensures stopped { IfErr result
        (IsCutShort (ended_paths torrent.now) (W.contents out.old) (W.contents out.new)) }
{
    let mut buffer = Buffer::new(alloc)?;
    buffer.put_paths(out, torrent)?;
    buffer.end(out)?;
    Ok(())
}

/// Writes the torrent with this tree in one line of JSON: all that the lines tell, and more of its files, of its pieces
/// and of the servers that it names.
pub fn write_record<W: Write>(
    alloc: Global,
    out: &mut W,
    root: &ItemRef<'_>,
    torrent: &Torrent,
    hashes: &Hashes,
) -> Result<(), ReportFault>
    ensures printed { OnOk result
        (Appends (W.contents out.old) (W.contents out.new) (check_line (view root.now) torrent.now hashes.now)) }
    ensures stopped { IfErr result
        (IsCutShort (check_line (view root.now) torrent.now hashes.now) (W.contents out.old) (W.contents out.new)) }
{
    let mut buffer = Buffer::new(alloc)?;
    let pieces = files_in_pieces(alloc, torrent)?;
    buffer.put_record(out, root, torrent, &pieces, hashes)?;
    buffer.end(out)?;
    Ok(())
}

/// Sends the torrent with this tree as an object of JSON, without a line feed, into any sink.
pub fn send_object<S: Sink>(
    alloc: Global,
    out: &mut S,
    root: &ItemRef<'_>,
    torrent: &Torrent,
    hashes: &Hashes,
) -> Result<(), ReportFault>
    ensures sent { OnOk result (S.took out.old out.new
        (compact_text (object (check_members (view root.now) torrent.now hashes.now)))) }
    ensures stopped { IfErr result (IsReportStopped S.took S.fails
        (compact_text (object (check_members (view root.now) torrent.now hashes.now))) out.old out.new) }
{
    let mut buffer = Buffer::new(alloc)?;
    let pieces = files_in_pieces(alloc, torrent)?;
    buffer.put_object(out, root, torrent, &pieces, hashes)?;
    buffer.end(out)?;
    Ok(())
}

impl Buffer {
    /// Puts the torrent in one line of JSON.
    pub(crate) fn put_record<S: Sink>(
        &mut self,
        out: &mut S,
        root: &ItemRef<'_>,
        torrent: &Torrent,
        pieces: &[FilePieces],
        hashes: &Hashes,
    ) -> Result<(), WriteFault>
        ensures put { OnOk result (Puts S.took
            (record_line (object (members_of (view root.now) torrent.now pieces.now hashes.now)))
            out.old self.old out.new self.new) }
        ensures stopped { IfErr result (λ fault. Stops S.took S.fails
            (record_line (object (members_of (view root.now) torrent.now pieces.now hashes.now)))
            out.old self.old out.new fault.written) }
    {
        self.put_object(out, root, torrent, pieces, hashes)?;
        self.put(out, b"\n")
    }
}
