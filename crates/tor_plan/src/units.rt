//! Units of work, and their parts.
ghost use Rattle.std.specs.Prelude.{◌≡◌, ◌∷◌, ◌++◌, [], OnErr, OnOk};

use smallvec::SmallVec;
use std::alloc::{AllocError, Global};
use std::marker::Model;

/// Bytes of one file that stand directly after one another, and zeros after them.
#[derive(Clone, Copy, Debug, Default, PartialEq, Eq)]
pub struct Part {
    /// The index of the file in the list.
    pub file: u64,
    /// The first byte's offset in the file.
    pub start: u64,
    /// In bytes, never 0.
    pub length: u64,
    /// How many zero bytes come after.
    pub zeros: u64,
}

/// The parts of a unit. Most units have one, which takes no memory of its own. Contracts see their list.
#[derive(Debug, Drop)]
pub struct Parts {
    parts: SmallVec<Part, 1>,
}

impl Model for Parts {
    ghost use Rattle.std.specs.Prelude.{List};
    ghost use Rattle.tor_plan.specs.declared.units.Part.{Part};

    ghost Value = { List Part };

    ghost view = { λ parts. parts.parts.items };
}

impl Parts {
    /// These parts.
    pub fn new(parts: Vec<Part>) -> Parts
        ensures { result ≡ parts.items }
    {
        Parts {
            parts: SmallVec::from_vec(parts),
        }
    }

    /// In the order of their bytes.
    pub fn as_slice(&self) -> &[Part]
        ensures { result.now ≡ self.now }
    {
        self.parts.as_slice()
    }
}

/// What one worker hashes at a time: zeros, then parts of files.
#[derive(Debug, Drop)]
pub struct PlanUnit {
    /// How many zero bytes come first.
    pub zeros: u64,
    /// Perhaps none.
    pub parts: Parts,
}

impl PlanUnit {
    ghost use Rattle.std.specs.Prelude.{◌≡◌, ◌+◌, ◌<◌, ◌^◌, OnErr, OnOk};
    ghost use Rattle.tor_plan.specs.Entries.{empty_unit};
    ghost use Rattle.tor_plan.specs.WithinEntries.{unit_length};
    ghost use Rattle.tor_plan.specs.steps.Joined.{joined, part_alone, zeros_alone};

    /// No byte.
    pub(crate) fn empty(alloc: Global) -> PlanUnit
        ensures { result ≡ empty_unit }
    {
        PlanUnit {
            zeros: 0,
            parts: Parts {
                parts: SmallVec::new(alloc),
            },
        }
    }

    /// Adds a part after all.
    pub(crate) fn add_part(&mut self, part: Part) -> Result<(), AllocError>
        ensures value { OnOk result (self.new ≡ joined self.old (part_alone part)) }
        ensures long { OnOk result (unit_length self.new ≡ unit_length self.old + (part.length + part.zeros)) }
        ensures kept { OnErr result (self.new ≡ self.old) }
    {
        self.parts.parts.push(part)?;
        Ok(())
    }

    /// Adds zeros: after its last part, or before all parts.
    pub(crate) fn add_zeros(&mut self, count: u64)
        requires { unit_length self.old + count < 2 ^ 64 }
        ensures value { self.new ≡ joined self.old (zeros_alone count) }
        ensures long { unit_length self.new ≡ unit_length self.old + count }
    {
        match self.parts.parts.as_mut_slice().last_mut() {
            Some(last) => last.zeros += count,
            None => self.zeros += count,
        }
    }
}
