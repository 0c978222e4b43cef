//! The Merkle hashes that a torrent has for its pieces.
ghost use Rattle.std.specs.Prelude.{◌≡◌, ◌<◌, [], drop, slice_index_or, unwrap_or};
ghost use Rattle.tor_view.specs.Pieces.{told_hashes};
ghost use Rattle.tor_spec.specs.Verified.{told_hash};

use std::marker::Model;
use tor_check::{Torrent, ViewFile};
use tor_merkle::Hash;

/// The Merkle hashes that a torrent has for those pieces that were not passed yet, file by file. Each is read where the
/// torrent holds it, since a torrent of half a megabyte may claim millions of pieces. Contracts see the list of their
/// bytes, which are none if the torrent has no hash for a piece.
#[derive(Drop)]
pub(crate) struct ToldHashes<'a> {
    piece_length: u64,
    files: &'a [ViewFile],
    /// How many of the first pieces of these files were passed.
    passed: u64,
}

impl<'a> Model for ToldHashes<'a> {
    ghost use Rattle.std.specs.Prelude.{◌<◌, List, ℕ, drop};
    ghost use Rattle.std.specs.List.{flat_map};
    ghost use Rattle.tor_view.specs.Pieces.{hashes_of_file};

    ghost Value = { List (List ℕ) };

    ghost view = { λ told. drop told.passed (flat_map (hashes_of_file told.piece_length) told.files.now) };

    ghost invariant = { λ told. 0 < told.piece_length };
}

impl<'a> ToldHashes<'a> {
    /// Those of all pieces of a torrent.
    pub(crate) fn of(torrent: &'a Torrent) -> ToldHashes<'a>
        ensures { result ≡ told_hashes torrent.now }
    {
        ToldHashes {
            piece_length: torrent.piece_length(),
            files: torrent.files(),
            passed: 0,
        }
    }

    /// That of the next piece: of a file longer than a piece the hash at its index in the layer, of another the root
    /// of the file. None if the torrent has none for it, or no piece is left.
    pub(crate) fn next(&mut self) -> Option<Hash>
        ensures hash { unwrap_or result [] ≡ slice_index_or self.old 0 [] }
        ensures later { self.new ≡ drop 1 self.old }
    {
        let piece_length = self.piece_length;
        let mut files = self.files;
        let mut passed = self.passed;
        'left: while let Some((file, later)) = files.split_first() {
            let count = file.file().length.div_ceil(piece_length);
            if passed < count {
                self.files = files;
                self.passed = passed + 1;
                return told_at(piece_length, file, passed);
            }
            passed -= count;
            files = later;
        }
        self.files = files;
        self.passed = passed;
        None
    }
}

/// The hash of the piece at this index of a file; none if the torrent has none.
fn told_at(piece_length: u64, file: &ViewFile, index: u64) -> Option<Hash>
    ensures { unwrap_or result [] ≡ told_hash piece_length file.now index }
{
    if file.file().length > piece_length {
        file.layer().get(index as usize).copied()
    } else {
        file.file().root
    }
}
