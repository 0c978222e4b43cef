//! Which bytes of a torrent's files are in pieces that do not hold.
ghost use Rattle.std.specs.Prelude.{IfOk, IfSome, slice_get};
ghost use Rattle.tor_view.specs.FileBytes.{AreBadRanges};
ghost use Rattle.tor_cli.specs.recheck.BadBytes.{AreBytesFound};

use std::alloc::{AllocError, Global};
use tor_check::Torrent;
use tor_view::{Bits, ByteRange, FileFound, FilePieces, files_in_pieces};

/// What was found of a file, and which bytes of it are in pieces that do not hold.
#[derive(Drop)]
pub struct BytesFound {
    pub found: FileFound,
    pub bad: Vec<ByteRange>,
}

/// The same of each file of a torrent.
pub fn bytes_found(
    alloc: Global,
    torrent: &Torrent,
    bits: &Bits,
    files: &[FileFound],
) -> Result<Vec<BytesFound>, AllocError>
    ensures { IfOk result (λ told. AreBytesFound torrent.now bits.now files.now told.items) }
{
    let pieces = files_in_pieces(alloc, torrent)?;
    let mut told = Vec::with_capacity(alloc, files.len())?;
    'files: for (index, found) in files.iter().enumerate() {
        let bad = ranges_of(alloc, &pieces, index, bits)?;
        told.push(BytesFound { found: *found, bad })?;
    }
    Ok(told)
}

/// The bytes of the file of this number in pieces that do not hold; none if there is no such file.
fn ranges_of(
    alloc: Global,
    pieces: &[FilePieces],
    index: usize,
    bits: &Bits,
) -> Result<Vec<ByteRange>, AllocError>
    ensures { IfOk result (λ ranges. IfSome (slice_get pieces.now index)
        (λ file. AreBadRanges file bits.now ranges.items)) }
{
    match pieces.get(index) {
        Some(pieces) => pieces.bad_ranges(alloc, bits),
        None => Ok(Vec::new(alloc)),
    }
}
