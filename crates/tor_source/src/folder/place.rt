//! The place of a file, as the system is asked for it.
ghost use Rattle.std.specs.Prelude.{◌≡◌, ◌<◌, ◌+◌, ◌++◌, [], IfErr, OnOk, length};
ghost use Rattle.std.specs.IoError.{error_kind};
ghost use Rattle.std.specs.declared.io.ErrorKind.TheVariants.{InvalidFilename};
ghost use Rattle.tor_source.specs.Places.{place_below};
ghost use Rattle.tor_source.specs.declared.faults.TheConstants.{MAX_PLACE};

use crate::faults::MAX_PLACE;
use arrayvec::ArrayString;
use std::io;
use std::marker::Model;
use tor_tree::Name;

/// A longer place gets all the room that the system takes. Room is made zero first, and so much of it for each question
/// would take longer than many an answer.
const MAX_SHORT: usize = 255;

/// The number of the system's fault for one that is longer than it takes (Linux, ENAMETOOLONG).
const NAME_TOO_LONG: i32 = 36;

/// A place that is no longer than the system takes. Contracts see its bytes.
#[derive(Drop)]
pub(crate) struct Place {
    text: PlaceText,
}

/// What a place is written into.
#[derive(Drop)]
pub(crate) enum PlaceText {
    Short(ArrayString<MAX_SHORT>),
    Long(ArrayString<MAX_PLACE>),
}

impl Model for Place {
    ghost use Rattle.std.specs.Prelude.{ℕ, List};
    ghost use Rattle.tor_source.specs.steps.Placed.{place_bytes};

    ghost Value = { List ℕ };

    ghost view = { λ place. place_bytes place.text };
}

impl Place {
    /// The empty place.
    pub(crate) fn new() -> Place
        ensures { result ≡ [] }
    {
        Place {
            text: PlaceText::Short(ArrayString::new()),
        }
    }

    /// The place as text.
    pub(crate) fn as_str(&self) -> &str
        ensures { result.now ≡ self.now }
    {
        match &self.text {
            PlaceText::Short(text) => text.as_str(),
            PlaceText::Long(text) => text.as_str(),
        }
    }

    /// Writes a place, and each name after a slash, in place of what was there. For one that is longer than the system
    /// takes, the fault that the system would have is answered.
    pub(crate) fn write(&mut self, place: &str, names: &[Name]) -> io::Result<()>
        ensures written { OnOk result (self.new ≡ place_below place.now names.now) }
        ensures refused { IfErr result (λ fault. (error_kind fault ≡ InvalidFilename)
            × (MAX_PLACE < length (place_below place.now names.now))) }
    {
        if let PlaceText::Short(text) = &mut self.text {
            if let Ok(()) = write_below(place, names, text) {
                return Ok(());
            }
        }
        let mut text = ArrayString::new();
        write_below(place, names, &mut text)?;
        self.text = PlaceText::Long(text);
        Ok(())
    }
}

// Writes a place, and each name after a slash, in place of what was there, if there is room.
fn write_below<const ROOM: usize>(
    place: &str,
    names: &[Name],
    text: &mut ArrayString<ROOM>,
) -> io::Result<()>
    ensures written { OnOk result (text.new.bytes ≡ place_below place.now names.now) }
    ensures refused { IfErr result (λ fault. (error_kind fault ≡ InvalidFilename)
        × (ROOM < length (place_below place.now names.now))) }
{
    text.clear();
    append(place, text)?;
    for name in names {
        append("/", text)?;
        append(name.as_str(), text)?;
    }
    Ok(())
}

// Appends to a place. If there is no room, that is the fault that the system has for one that is too long.
fn append<const ROOM: usize>(more: &str, text: &mut ArrayString<ROOM>) -> io::Result<()>
    ensures appended { OnOk result (text.new.bytes ≡ text.old.bytes ++ more.now) }
    ensures refused { IfErr result (λ fault. (error_kind fault ≡ InvalidFilename)
        × (ROOM < length text.old.bytes + length more.now)) }
{
    match text.try_push_str(more) {
        Ok(()) => Ok(()),
        Err(_) => Err(io::Error::from_raw_os_error(NAME_TOO_LONG)),
    }
}
