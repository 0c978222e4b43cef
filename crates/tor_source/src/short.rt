//! Files in memory that are read in small steps.
ghost use Rattle.std.specs.Prelude.{◌≡◌, ◌≤◌, ◌<◌, ℕ, IfErr, IfOk, Ok, length};
ghost use Rattle.tor_source.specs.Answers.{answers_of};
ghost use Rattle.tor_source.specs.Source.{IsReadAt, SourceFacts, bytes_from};
ghost use Rattle.tor_source.specs.Sources.{mem_facts};

use crate::memory::MemSource;
use crate::source::Source;
use std::marker::Model;

/// Files in memory of which no read gives more than so many bytes, so that a reader has to go on. Contracts see the
/// files and that number.
#[derive(Drop)]
pub struct ShortSource {
    files: MemSource,
    step: usize,
}

impl Model for ShortSource {
    ghost use Rattle.std.specs.Prelude.{◌≤◌};
    ghost use Rattle.tor_source.specs.Sources.{ShortFiles};

    ghost Value = { ShortFiles };

    ghost view = { λ source. record { files = source.files; step = source.step } };

    ghost invariant = { λ source. 1 ≤ source.step };
}

impl ShortSource {
    /// These files, at most `step` bytes a read.
    pub fn new(files: MemSource, step: usize) -> ShortSource
        requires { 1 ≤ step }
        ensures files { result.files ≡ files }
        ensures step { result.step ≡ step }
    {
        ShortSource { files, step }
    }
}

impl Source for ShortSource {
    type Fault = u64;

    ghost is_steady = { λ source facts. facts ≡ mem_facts source.files };

    ghost answers = { λ source. answers_of (mem_facts source.files) };

    fn length(&self, file: u64) -> Result<Option<u64>, u64> {
        self.files.length(file)
    }

    fn read_at(&self, file: u64, start: u64, buffer: &mut [u8]) -> Result<usize, u64>
        ensures steady { (facts : SourceFacts ℕ) → facts ≡ mem_facts self.now.files →
            IsReadAt facts file start buffer.old buffer.new result }
        ensures within { IfOk result (λ count. count ≤ length buffer.old) }
        ensures gave { IfErr result (λ _. ⊥) }
        ensures ended { result ≡ Ok 0 → 0 < length buffer.old →
            length (bytes_from (mem_facts self.now.files) file start) ≡ 0 }
        ensures short { IfOk result (λ count. count ≤ self.now.step) }
    {
        Ok(self.files.read_most(file, start, self.step, buffer))
    }
}
