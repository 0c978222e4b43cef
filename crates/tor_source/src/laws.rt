//! Laws over the sources in memory: each is steady, and the first fault at an offset counts. The limit of an input.
ghost use Rattle.std.specs.Prelude.{◌≡◌, ◌^◌, ◌∷◌, ◌++◌, ℕ, List, Option, None, Some, Contains};
ghost use Rattle.tor_source.specs.Sources.{FailingFiles, ShortFiles, fail_facts, first_fault, mem_facts};
ghost use Rattle.tor_source.specs.declared.input.TheConstants.{BUFFER_LENGTH, MAX_INPUT_LENGTH};

use crate::failing::FailSource;
use crate::memory::MemSource;
use crate::short::ShortSource;
use crate::source::Source;

/// Files in memory answer by their contents, each time.
pub fn memory_is_steady()
    ensures { (files : List (Option (List ℕ))) → ⟦<MemSource as Source>⟧.is_steady files (mem_facts files) }
{}

/// Files with faults answer by their contents and the faults that count, each time.
pub fn failing_is_steady()
    ensures { (source : FailingFiles) → ⟦<FailSource as Source>⟧.is_steady source (fail_facts source) }
{}

/// Files that are read in small steps answer as the files themselves, each time.
pub fn short_is_steady()
    ensures { (source : ShortFiles) → ⟦<ShortSource as Source>⟧.is_steady source (mem_facts source.files) }
{}

/// Of the faults at one offset the first counts.
pub fn first_fault_counts()
    ensures { (before after : List (ℕ × Option ℕ × ℕ)) (file : ℕ) (offset : Option ℕ) (number : ℕ) →
        first_fault before file offset ≡ None →
        first_fault (before ++ (file, offset, number) ∷ after) file offset ≡ Some number }
{}

/// No offset has a fault but one that is listed for it.
pub fn faults_are_listed()
    ensures { (faults : List (ℕ × Option ℕ × ℕ)) (file : ℕ) (offset : Option ℕ) (number : ℕ) →
        first_fault faults file offset ≡ Some number → Contains faults (file, offset, number) }
{}

/// An input has at most 1 GiB.
pub fn limit_of_inputs()
    ensures { MAX_INPUT_LENGTH ≡ 2 ^ 30 }
{}

/// So many bytes of an input are handed on at a time, fewer at its end.
pub fn limit_of_parts()
    ensures { BUFFER_LENGTH ≡ 2 ^ 21 }
{}
