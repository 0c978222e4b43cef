//! A source of which some files alone are asked and read.
ghost use Rattle.std.specs.Prelude.{◌≡◌, ◌-◌, ◌≤◌, IfOk, drop, length, map, take};
ghost use Rattle.std.specs.List.{list_any, range_with_len};
ghost use Rattle.tor_view.specs.Files.{has_bytes_of};
ghost use Rattle.tor_view.specs.Pieces.{IsCut, pieces_of};
ghost use Rattle.tor_recheck.specs.steps.Lots.{is_own, own_answers, own_facts};
ghost use Rattle.tor_source.specs.Source.{SourceFacts};

use std::alloc::{AllocError, Global};
use tor_check::Torrent;
use tor_source::Source;
use tor_view::files_in_pieces;

/// A source of which those files alone are asked that are its own; each other one is missing.
#[derive(Drop)]
pub(crate) struct OwnFiles<'a, S: Source> {
    pub(crate) source: &'a S,
    /// For each file whether it is one of them.
    pub(crate) own: &'a [bool],
}

impl<'a, S: Source> Source for OwnFiles<'a, S> {
    type Fault = S::Fault;

    ghost is_steady = { λ some facts. (all : SourceFacts S.Fault) ×
        S.is_steady some.source.now all × (facts ≡ own_facts some.own.now all) };

    ghost answers = { λ some. own_answers some.own.now (S.answers some.source.now) };

    fn length(&self, file: u64) -> Result<Option<u64>, S::Fault> {
        if is_own(self.own, file) {
            self.source.length(file)
        } else {
            Ok(None)
        }
    }

    fn read_at(&self, file: u64, start: u64, buffer: &mut [u8]) -> Result<usize, S::Fault> {
        if is_own(self.own, file) {
            self.source.read_at(file, start, buffer)
        } else {
            Ok(0)
        }
    }
}

fn is_own(own: &[bool], file: u64) -> bool
    ensures { result ≡ is_own own.now file }
{
    match own.get(file as usize) {
        Some(own) => *own,
        None => false,
    }
}

/// For each file of the torrent whether the pieces from one number on, and before another, have bytes of it.
pub(crate) fn own_files(
    alloc: Global,
    torrent: &Torrent,
    from: usize,
    to: usize,
) -> Result<Vec<bool>, AllocError>
    requires cut { IsCut torrent.now }
    requires ordered { from ≤ to }
    requires within { to ≤ torrent.now.piece_count }
    ensures { IfOk result (λ own. own.items
        ≡ map (λ file. list_any (has_bytes_of file) (take (to - from) (drop from (pieces_of torrent.now))))
        (range_with_len 0 (length torrent.now.files))) }
{
    let files = files_in_pieces(alloc, torrent)?;
    let mut own = Vec::with_capacity(alloc, files.len())?;
    'files: for file in files.as_slice() {
        own.push(file.has_piece_between(from as u64, to as u64))?;
    }
    Ok(own)
}
