//! The files of a source in another order.
ghost use Rattle.std.specs.Prelude.{◌≡◌};
ghost use Rattle.tor_meta.specs.steps.IndexedFiles.{handed_in, renumbered};

use tor_engine::EngineError;
use tor_source::Source;

/// The files of a source in the order of a list: file k is the one at index k of `indices`.
#[derive(Drop)]
pub(crate) struct Indexed<'a, S: Source> {
    pub source: &'a S,
    pub indices: &'a [usize],
}

impl<'a, S: Source> Source for Indexed<'a, S> {
    ghost use Rattle.tor_source.specs.Source.{SourceFacts};
    ghost use Rattle.tor_meta.specs.steps.IndexedFiles.{answers_at, facts_at};

    type Fault = S::Fault;

    ghost is_steady = { λ indexed facts. (of_source : SourceFacts S.Fault) ×
        S.is_steady indexed.source.now of_source × (facts ≡ facts_at indexed.indices.now of_source) };

    ghost answers = { λ indexed. answers_at indexed.indices.now (S.answers indexed.source.now) };

    fn length(&self, file: u64) -> Result<Option<u64>, S::Fault> {
        match self.indices.get(file as usize) {
            Some(index) => self.source.length(*index as u64),
            None => Ok(None),
        }
    }

    fn read_at(&self, file: u64, start: u64, buffer: &mut [u8]) -> Result<usize, S::Fault> {
        match self.indices.get(file as usize) {
            Some(index) => self.source.read_at(*index as u64, start, buffer),
            None => Ok(0),
        }
    }
}

/// The fault with its file under the number that the file was handed in with.
pub(crate) fn renumbered<F>(indices: &[usize], error: EngineError<F>) -> EngineError<F>
    ensures { result ≡ renumbered indices.now error }
{
    match error {
        EngineError::Read { file, start, fault } => EngineError::Read {
            file: handed_in(indices, file),
            start,
            fault,
        },
        EngineError::Changed { file } => EngineError::Changed {
            file: handed_in(indices, file),
        },
        EngineError::Missing { file } => EngineError::Missing {
            file: handed_in(indices, file),
        },
        EngineError::Resources => EngineError::Resources,
        EngineError::StreamTooLong { file } => EngineError::StreamTooLong {
            file: handed_in(indices, file),
        },
    }
}

/// The number with which a file of the list was handed in.
fn handed_in(indices: &[usize], file: u64) -> u64
    ensures { result ≡ handed_in indices.now file }
{
    match indices.get(file as usize) {
        Some(index) => *index as u64,
        None => file,
    }
}
