//! A unit that is cut every so many bytes.
ghost use Rattle.std.specs.Prelude.{◌≡◌, ◌+◌, ◌<◌, ◌^◌, All, IfOk};
ghost use Rattle.tor_plan.specs.Pieces.{pieces_of_unit};
ghost use Rattle.tor_plan.specs.WithinEntries.{unit_length};

use crate::units::{Part, PlanUnit};
use std::alloc::{AllocError, Global};
use std::mem;

impl PlanUnit {
    /// Its pieces, each as a unit of its own; the last is perhaps shorter. A plan is cut by it too: it hands in the
    /// bytes of a unit for `piece_length`, and all bytes, or those of a file, become its units.
    pub fn pieces(&self, alloc: Global, piece_length: u64) -> Result<Vec<PlanUnit>, AllocError>
        requires some { 0 < piece_length }
        requires small { All (λ part. part.start + part.length < 2 ^ 64) self.now.parts }
        ensures { IfOk result (λ pieces. pieces.items ≡ pieces_of_unit piece_length self.now) }
    {
        let mut cut = UnitCut::new(alloc, piece_length);
        cut.add(alloc, Stretch::Zeros, self.zeros)?;
        'parts: for part in self.parts.as_slice() {
            let bytes = Stretch::Bytes {
                file: part.file,
                start: part.start,
            };
            cut.add(alloc, bytes, part.length)?;
            cut.add(alloc, Stretch::Zeros, part.zeros)?;
        }
        cut.finish()
    }
}

// Bytes that stand one after another: those of a file from an offset on, or zeros.
#[derive(Clone, Copy)]
pub(crate) enum Stretch {
    Bytes { file: u64, start: u64 },
    Zeros,
}

// The units of the first bytes of a unit.
#[derive(Drop)]
pub(crate) struct UnitCut {
    size: u64,
    // The units of `size` bytes.
    units: Vec<PlanUnit>,
    // The unit that is begun, perhaps full, and how many bytes it lacks.
    begun: PlanUnit,
    room: u64,
    ghost some: { 0 < size },
    ghost small: { size < 2 ^ 64 },
    ghost filled: { unit_length begun + room ≡ size },
}

impl UnitCut {
    ghost use Rattle.std.specs.Prelude.{◌≡◌, ◌+◌, ◌<◌, ◌≤◌, ◌^◌, ℕ, IfOk, OnOk};
    ghost use Rattle.tor_plan.specs.Pieces.{pieces_of_unit};
    ghost use Rattle.tor_plan.specs.WithinEntries.{unit_length};
    ghost use Rattle.tor_plan.specs.declared.units.PlanUnit.{PlanUnit};
    ghost use Rattle.tor_plan.specs.steps.Joined.{joined};
    ghost use Rattle.tor_plan.specs.steps.UnitCut.{stretch_at, HasCut, IsSmall, IsStretchAt};

    // Nothing was cut.
    fn new(alloc: Global, size: u64) -> UnitCut
        requires { 0 < size }
        ensures size { result.size ≡ size }
        ensures cut { (unit : PlanUnit) → HasCut result unit 0 }
    {
        UnitCut {
            size,
            units: Vec::new(alloc),
            begun: PlanUnit::empty(alloc),
            room: size,
        }
    }

    // Adds so many bytes.
    fn add(&mut self, alloc: Global, stretch: Stretch, length: u64) -> Result<(), AllocError>
        requires { IsSmall stretch length }
        ensures size { self.new.size ≡ self.old.size }
        ensures cut { (unit : PlanUnit) (at : ℕ) → HasCut self.old unit at → IsStretchAt unit at stretch length →
            OnOk result (HasCut self.new unit (at + length)) }
    {
        let mut done = 0;
        'stretch: while done < length {
            let count = self.room(alloc)?.min(length - done);
            self.add_some(stretch, done, count)?;
            done += count;
        }
        Ok(())
    }

    // How many bytes the unit lacks, after a full one was put away.
    fn room(&mut self, alloc: Global) -> Result<u64, AllocError>
        ensures size { self.new.size ≡ self.old.size }
        ensures room { IfOk result (λ room. (room ≡ self.new.room) × (0 < room)) }
        ensures fresh { self.old.room ≡ 0 → OnOk result (self.new.room ≡ self.new.size) }
        ensures cut { (unit : PlanUnit) (x : ℕ) → HasCut self.old unit x → OnOk result (HasCut self.new unit x) }
    {
        if self.room == 0 {
            let unit = mem::replace(&mut self.begun, PlanUnit::empty(alloc));
            self.room = self.size;
            self.units.push(unit)?;
        }
        Ok(self.room)
    }

    // Adds bytes that have room in the unit: of a stretch, after so many of it.
    fn add_some(&mut self, stretch: Stretch, done: u64, count: u64) -> Result<(), AllocError>
        requires some { 0 < count }
        requires within { count ≤ self.old.room }
        requires small { IsSmall stretch (done + count) }
        ensures size { self.new.size ≡ self.old.size }
        ensures units { self.new.units.items ≡ self.old.units.items }
        ensures begun { OnOk result (self.new.begun ≡ joined self.old.begun (stretch_at stretch done count)) }
        ensures room { OnOk result (self.new.room + count ≡ self.old.room) }
    {
        match stretch {
            Stretch::Bytes { file, start } => self.begun.add_part(Part {
                file,
                start: start + done,
                length: count,
                zeros: 0,
            })?,
            Stretch::Zeros => self.begun.add_zeros(count),
        }
        self.room -= count;
        Ok(())
    }

    // The units, the last perhaps shorter.
    fn finish(self) -> Result<Vec<PlanUnit>, AllocError>
        ensures { (unit : PlanUnit) → HasCut self unit (unit_length unit) →
            IfOk result (λ units. units.items ≡ pieces_of_unit self.size unit) }
    {
        let UnitCut {
            size,
            mut units,
            begun,
            room,
        } = self;
        if room < size {
            units.push(begun)?;
        }
        Ok(units)
    }
}
