//! A source of which those files are missing whose lengths were not told.
ghost use Rattle.std.specs.Prelude.{◌≡◌, slice_index_or};
ghost use Rattle.tor_source.specs.Source.{SourceFacts};
ghost use Rattle.tor_engine.specs.steps.Readable.{seen_answers, seen_by};

use crate::pieces::present::size_told;
use tor_sums::FileBytes;

/// A source of which those files alone are read whose lengths were told; the others are missing.
#[derive(Drop)]
pub(crate) struct Seen<'a, S> {
    pub(crate) source: &'a S,
    pub(crate) lengths: &'a [Option<u64>],
}

impl<'a, S: FileBytes> FileBytes for Seen<'a, S> {
    type Fault = S::Fault;

    ghost is_steady = { λ seen facts. (own : SourceFacts S.Fault) × S.is_steady seen.source.now own
        × (facts ≡ seen_by seen.lengths.now own) };

    ghost answers = { λ seen. seen_answers seen.lengths.now (S.answers seen.source.now) };

    fn bytes_at(&self, file: u64, start: u64, buffer: &mut [u8]) -> Result<usize, S::Fault> {
        match size_told(self.lengths, file) {
            Some(_) => self.source.bytes_at(file, start, buffer),
            None => Ok(0),
        }
    }
}
