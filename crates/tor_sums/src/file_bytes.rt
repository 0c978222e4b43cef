//! The bytes of files, as one worker reads them.
ghost use Rattle.std.specs.Prelude.{◌≡◌, ◌<◌, ◌≤◌, Some, Ok, IfErr, IfOk, length};
ghost use Rattle.tor_source.specs.Answers.{Answers};
ghost use Rattle.tor_source.specs.Source.{IsReadAt, SourceFacts};

use std::fmt::Debug;
use tor_source::Source;

/// What one worker reads of a source: each `Source` is one, by the `impl` below. It asks for nothing that threads rest
/// on: a method of an `impl` cannot hand such a bound of the `impl` on to a function.
pub trait FileBytes {
    type Fault: Debug + Drop;

    ghost is_steady: { Self → SourceFacts Self.Fault → Type 0 };

    ghost answers: { Self → Answers Self.Fault };

    /// As `read_at` of `Source`.
    fn bytes_at(&self, file: u64, start: u64, buffer: &mut [u8]) -> Result<usize, Self::Fault>
        ensures steady { (facts : SourceFacts Self.Fault) → is_steady self.now facts →
            IsReadAt facts file start buffer.old buffer.new result }
        ensures within { IfOk result (λ count. count ≤ length buffer.old) }
        ensures gave { IfErr result ((answers self.now).gave file (Some start)) }
        ensures ended { result ≡ Ok 0 → 0 < length buffer.old → (answers self.now).ended file start };
}

impl<S: Source> FileBytes for S {
    type Fault = S::Fault;

    ghost is_steady = { S.is_steady };

    ghost answers = { S.answers };

    fn bytes_at(&self, file: u64, start: u64, buffer: &mut [u8]) -> Result<usize, S::Fault> {
        self.read_at(file, start, buffer)
    }
}
