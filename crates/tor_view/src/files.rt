//! What is told of each file of a torrent.
ghost use Rattle.std.specs.Prelude.{◌≡◌, IfOk, None, length, slice_index_or};
ghost use Rattle.tor_view.specs.Bitfield.{set_count};
ghost use Rattle.tor_view.specs.Files.{file_found, files_found, pieces_of_file, state_of};

use crate::bits::Bits;
use crate::spans::{FileSpan, spans_of};
use std::alloc::{AllocError, Global};
use tor_check::Torrent;

/// How a file of a torrent is there: the first of these that there is a reason for.
#[derive(Clone, Copy, Debug, PartialEq, Eq)]
pub enum FileState {
    /// It is not there.
    Missing,
    /// It is shorter than the torrent says.
    Short,
    /// A piece that has bytes of it does not hold.
    Bad,
    /// It is as long as the torrent says, or longer, and each piece that has bytes of it holds.
    Whole,
    /// Some place of it could not be read. [`files_of`] tells this of no file: it is for who tells it by
    /// `ReadableFindings` of `tor_recheck`.
    Unreadable,
    /// A link stands at its place, or on the way to it, and is not followed. Nor does [`files_of`] tell this: it is for
    /// who looks for files without links.
    Link,
}

/// What is told of one file.
#[derive(Clone, Copy, Debug, PartialEq, Eq)]
pub struct FileFound {
    pub state: FileState,
    /// How many of the pieces that have bytes of it hold.
    pub good: u64,
    /// How many pieces have bytes of it; an empty file has none.
    pub pieces: u64,
    /// How many bytes it has; none if it is missing.
    pub there: Option<u64>,
    /// How many bytes the torrent says that it has.
    pub told: u64,
}

/// What is told of each file of the torrent, in its order, padding not counted: by the pieces that hold, as the side
/// tells that knows whose bytes they have, and by the length of each file there, none if it is missing; one of which no
/// length is handed in is missing too. A piece of version 1 that has bytes of several files counts for each of them. Of
/// a file that is longer than the torrent says the bytes past that are not looked at.
pub fn files_of(
    alloc: Global,
    torrent: &Torrent,
    held: &Bits,
    lengths: &[Option<u64>],
) -> Result<Vec<FileFound>, AllocError>
    ensures found { IfOk result (λ files. files.items ≡ files_found torrent.now lengths.now held.now) }
    ensures counted { IfOk result (λ files. length files.items ≡ length torrent.now.files) }
{
    let spans = spans_of(alloc, torrent)?;
    let mut files = Vec::with_capacity(alloc, spans.len())?;
    'files: for (index, span) in spans.iter().enumerate() {
        files.push(file_found(held, span, length_at(lengths, index)))?;
    }
    Ok(files)
}

/// The length of a file, none if it is missing, or if none was told.
fn length_at(lengths: &[Option<u64>], index: usize) -> Option<u64>
    ensures { result ≡ slice_index_or lengths.now index None }
{
    lengths.get(index).copied().flatten()
}

/// What is told of a file that has these pieces and this length.
fn file_found(held: &Bits, span: &FileSpan, there: Option<u64>) -> FileFound
    ensures { result ≡ file_found held.now span.now there }
{
    let good = good_pieces(held, span);
    let pieces = span.after.saturating_sub(span.first);
    FileFound {
        state: state_of(there, span.length, good, pieces),
        good,
        pieces,
        there,
        told: span.length,
    }
}

/// How many of the pieces that have bytes of a file hold.
fn good_pieces(held: &Bits, span: &FileSpan) -> u64
    ensures { result ≡ set_count (pieces_of_file held.now span.now) }
{
    let mut good = 0;
    'pieces: for index in span.first..span.after {
        if held.get(index) == Some(true) {
            good += 1;
        }
    }
    good
}

/// The state of a file of which so many bytes are there, and so many of its pieces hold.
fn state_of(there: Option<u64>, told: u64, good: u64, pieces: u64) -> FileState
    ensures { result ≡ state_of there told good pieces }
{
    match there {
        None => FileState::Missing,
        Some(there) if there < told => FileState::Short,
        Some(_) if good < pieces => FileState::Bad,
        Some(_) => FileState::Whole,
    }
}
