//! `tor check` and `tor magnet`: what is printed of the torrent in a file.
ghost use Rattle.std.specs.Prelude.{ℕ, List, Option, IfErr, OnOk};
ghost use Rattle.std.specs.Io.KnownBytes.{Appends};
ghost use Rattle.tor_cli.specs.Foreign.{AreLinesOf, DoesTell, IsNotTold, StopsTelling};
ghost use Rattle.tor_cli.specs.check.Telling.{lines_of};
ghost use Rattle.tor_cli.specs.declared.check.telling.Telling.TheVariants.{Link, Record};
ghost use Rattle.tor_cli.specs.steps.Writing.{writing};
ghost use Rattle.tor_report.specs.Told.{Describes};

use crate::check::link::{LinkWords, link_line};
use crate::fault::Fault;
use crate::foreign::read_file;
use std::alloc::Global;
use std::io::Write;
use tor_report::{
    Judged, torrent_tree, torrent_with_hashes, write_lines, write_paths, write_record,
    write_rooted_lines,
};
use tor_spec::write_out;

/// What is printed of a torrent.
#[derive(Clone, Copy)]
pub enum Telling {
    /// All that it describes.
    Lines,
    /// Its magnet link, with these words.
    Link(LinkWords),
    /// The paths of its files.
    Paths,
    /// All that it describes, as JSON.
    Record,
    /// What `Lines` has, and the roots of its files.
    Roots,
}

/// Writes this of the torrent in the file `place`. Nothing is written before it was judged.
pub fn tell_torrent<W: Write>(
    system: &HostRuntime,
    place: &str,
    telling: Telling,
    out: &mut W,
) -> Result<(), Fault>
    ensures printed { (reader : Option (List ℕ)) → OnOk result (DoesTell (lines_of telling) (writing reader
        (W.contents out.old) (W.contents out.new))) }
    ensures stopped { (reader : Option (List ℕ)) → IfErr result (StopsTelling (lines_of telling) (writing reader
        (W.contents out.old) (W.contents out.new))) }
{
    let alloc = system.alloc();
    let bytes = read_file(alloc, system, place)?;
    tell_bytes(alloc, &bytes, telling, out)
}

/// Writes this of the torrent that the bytes are. It is written as it is made, so that what is held is in proportion to
/// the bytes.
fn tell_bytes<W: Write>(
    alloc: Global,
    bytes: &[u8],
    telling: Telling,
    out: &mut W,
) -> Result<(), Fault>
    ensures printed { OnOk result ((text : List ℕ) × AreLinesOf (lines_of telling) bytes.now text
        × Appends (W.contents out.old) (W.contents out.new) text) }
    ensures stopped { IfErr result
        (IsNotTold (lines_of telling) bytes.now (W.contents out.old) (W.contents out.new)) }
{
    let judged = torrent_with_hashes(alloc, bytes)?;
    tell_judged(alloc, bytes, &judged, telling, out)
}

/// Writes this of the torrent that was judged.
fn tell_judged<W: Write>(
    alloc: Global,
    bytes: &[u8],
    judged: &Judged,
    telling: Telling,
    out: &mut W,
) -> Result<(), Fault>
    requires { Describes bytes.now judged.now.torrent judged.now.hashes }
    ensures printed { OnOk result ((text : List ℕ) × AreLinesOf (lines_of telling) bytes.now text
        × Appends (W.contents out.old) (W.contents out.new) text) }
    ensures stopped { IfErr result
        (IsNotTold (lines_of telling) bytes.now (W.contents out.old) (W.contents out.new)) }
{
    match telling {
        Telling::Lines => Ok(write_lines(alloc, out, &judged.torrent, &judged.hashes)?),
        Telling::Link(words) => tell_link(alloc, bytes, judged, words, out),
        Telling::Paths => Ok(write_paths(alloc, out, &judged.torrent)?),
        Telling::Record => tell_record(alloc, bytes, judged, out),
        Telling::Roots => Ok(write_rooted_lines(alloc, out, &judged.torrent, &judged.hashes)?),
    }
}

/// Writes the magnet link.
fn tell_link<W: Write>(
    alloc: Global,
    bytes: &[u8],
    judged: &Judged,
    words: LinkWords,
    out: &mut W,
) -> Result<(), Fault>
    requires { Describes bytes.now judged.now.torrent judged.now.hashes }
    ensures printed { OnOk result ((text : List ℕ) × AreLinesOf (lines_of (Link words)) bytes.now text
        × Appends (W.contents out.old) (W.contents out.new) text) }
    ensures stopped { IfErr result
        (IsNotTold (lines_of (Link words)) bytes.now (W.contents out.old) (W.contents out.new)) }
{
    let line = link_line(alloc, bytes, judged, words)?;
    Ok(write_out(out, line.as_bytes())?)
}

/// Writes all that the torrent describes, as JSON.
fn tell_record<W: Write>(
    alloc: Global,
    bytes: &[u8],
    judged: &Judged,
    out: &mut W,
) -> Result<(), Fault>
    requires { Describes bytes.now judged.now.torrent judged.now.hashes }
    ensures printed { OnOk result ((text : List ℕ) × AreLinesOf (lines_of Record) bytes.now text
        × Appends (W.contents out.old) (W.contents out.new) text) }
    ensures stopped { IfErr result
        (IsNotTold (lines_of Record) bytes.now (W.contents out.old) (W.contents out.new)) }
{
    let root = torrent_tree(alloc, bytes)?;
    Ok(write_record(alloc, out, &root, &judged.torrent, &judged.hashes)?)
}
