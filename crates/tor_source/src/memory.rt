//! Files in memory.
ghost use Rattle.std.specs.Prelude.{◌≡◌, None, Some, MatchOption, length, map, min, option_map, take, vec_items};
ghost use Rattle.tor_source.specs.Answers.{answers_of};
ghost use Rattle.tor_source.specs.Source.{bytes_from};
ghost use Rattle.tor_source.specs.Sources.{content_of, mem_facts};

use crate::source::Source;
use std::marker::Model;

/// Files in memory, in the order of their numbers; some may be missing, as are all past the last. No call fails.
/// Contracts see the list of their contents.
#[derive(Drop)]
pub struct MemSource {
    files: Vec<Option<Vec<u8>>>,
}

impl Model for MemSource {
    ghost use Rattle.std.specs.Prelude.{ℕ, List, Option, map, option_map, vec_items};

    ghost Value = { List (Option (List ℕ)) };

    ghost view = { λ source. map (option_map vec_items) source.files.items };
}

impl MemSource {
    /// Files with these contents; None stands for a missing one.
    pub fn new(files: Vec<Option<Vec<u8>>>) -> MemSource
        ensures { result ≡ map (option_map vec_items) files.items }
    {
        MemSource { files }
    }

    /// The bytes of a file that is there.
    pub(crate) fn content(&self, file: u64) -> Option<&[u8]>
        ensures { MatchOption result (content_of self.now file ≡ None)
            (λ bytes. content_of self.now file ≡ Some bytes.now) }
    {
        match self.files.get(file as usize) {
            Some(Some(bytes)) => Some(bytes),
            _ => None,
        }
    }

    /// Reads as many bytes of a file from an offset on as there are, as the buffer has room for, and at most `most`.
    pub(crate) fn read_most(&self, file: u64, start: u64, most: usize, buffer: &mut [u8]) -> usize
        ensures count { result
            ≡ min most (min (length buffer.old) (length (bytes_from (mem_facts self.now) file start))) }
        ensures bytes { take result buffer.new ≡ take result (bytes_from (mem_facts self.now) file start) }
    {
        let Some(bytes) = self.content(file) else {
            return 0;
        };
        let (_, rest) = bytes.split_at(bytes.len().min(start as usize));
        let count = most.min(buffer.len()).min(rest.len());
        buffer[..count].copy_from_slice(&rest[..count]);
        count
    }
}

impl Source for MemSource {
    type Fault = u64;

    ghost is_steady = { λ source facts. facts ≡ mem_facts source };

    ghost answers = { λ source. answers_of (mem_facts source) };

    fn length(&self, file: u64) -> Result<Option<u64>, u64> {
        match self.content(file) {
            Some(bytes) => Ok(Some(bytes.len() as u64)),
            None => Ok(None),
        }
    }

    fn read_at(&self, file: u64, start: u64, buffer: &mut [u8]) -> Result<usize, u64> {
        Ok(self.read_most(file, start, buffer.len(), buffer))
    }
}
