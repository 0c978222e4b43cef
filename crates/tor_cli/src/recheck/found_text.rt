//! What is printed of a torrent's files after a recheck.
ghost use Rattle.std.specs.Prelude.{◌≡◌, IfErr, OnOk};
ghost use Rattle.tor_cli.specs.recheck.FoundFiles.{found_line, is_whole, length_text, state_word, told_of};
ghost use Rattle.tor_cli.specs.recheck.FoundFiles.{told_of_files};
ghost use Rattle.tor_report.specs.Put.{Puts, Stops};
ghost use Rattle.tor_report.specs.Segments.{segment_text};

use crate::recheck::listing::FileListing;
use tor_check::ViewFile;
use tor_report::{Buffer, Segment, Sink, Spelling};
use tor_spec::WriteFault;
use tor_tree::TreeFile;
use tor_view::{FileFound, FileState};

/// Puts what is told of each file, in the torrent's order: the nth that was found is the torrent's nth.
pub fn put_files<S: Sink>(
    buffer: &mut Buffer,
    out: &mut S,
    listing: FileListing,
    found: &[FileFound],
    files: &[ViewFile],
) -> Result<(), WriteFault>
    ensures put { OnOk result (Puts S.took (told_of_files listing found.now files.now)
        out.old buffer.old out.new buffer.new) }
    ensures stopped { IfErr result (λ fault. Stops S.took S.fails (told_of_files listing found.now files.now)
        out.old buffer.old out.new fault.written) }
{
    'files: for (found, file) in found.iter().zip(files) {
        put_file(buffer, out, listing, found, file.file())?;
    }
    Ok(())
}

fn put_file<S: Sink>(
    buffer: &mut Buffer,
    out: &mut S,
    listing: FileListing,
    found: &FileFound,
    file: &TreeFile,
) -> Result<(), WriteFault>
    ensures put { OnOk result (Puts S.took (told_of listing found.now file.now)
        out.old buffer.old out.new buffer.new) }
    ensures stopped { IfErr result (λ fault. Stops S.took S.fails (told_of listing found.now file.now)
        out.old buffer.old out.new fault.written) }
{
    match listing {
        FileListing::Pieces => Ok(()),
        FileListing::Files => put_line(buffer, out, found, file),
        FileListing::BadFiles | FileListing::BadPaths if is_whole(found.state) => Ok(()),
        FileListing::BadFiles => put_line(buffer, out, found, file),
        FileListing::BadPaths => buffer.put_ended_path(out, file),
    }
}

pub fn is_whole(state: FileState) -> bool
    ensures { result ≡ is_whole state }
{
    matches!(state, FileState::Whole)
}

/// Puts the line of a file. The user's text is escaped.
fn put_line<S: Sink>(
    buffer: &mut Buffer,
    out: &mut S,
    found: &FileFound,
    file: &TreeFile,
) -> Result<(), WriteFault>
    ensures put { OnOk result (Puts S.took (found_line found.now file.now)
        out.old buffer.old out.new buffer.new) }
    ensures stopped { IfErr result (λ fault. Stops S.took S.fails (found_line found.now file.now)
        out.old buffer.old out.new fault.written) }
{
    let segments = [
        Segment::Text(state_word(found.state)),
        Segment::Text(" "),
        Segment::Number(found.good),
        Segment::Text(" "),
        Segment::Number(found.pieces),
        Segment::Text(" "),
        length_segment(found.there),
        Segment::Text(" "),
        Segment::Number(found.told),
        Segment::Text(" "),
        Segment::Path(Spelling::InLine, &file.path),
        Segment::Text("\n"),
    ];
    buffer.put_all(out, &segments)
}

/// The word for a state.
pub fn state_word(state: FileState) -> &'static str
    ensures { result.now ≡ state_word state }
{
    match state {
        FileState::Missing => "missing",
        FileState::Short => "short",
        FileState::Bad => "bad",
        FileState::Whole => "whole",
        FileState::Unreadable => "unreadable",
        FileState::Link => "link",
    }
}

/// A length in bytes; a hyphen if there is none.
fn length_segment(length: Option<u64>) -> Segment<'static>
    ensures { segment_text result ≡ length_text length }
{
    match length {
        Some(length) => Segment::Number(length),
        None => Segment::Text("-"),
    }
}
