//! Whether two places of the system have one file: the same number on the same device.
ghost use Rattle.std.specs.Prelude.{◌≡◌, ◌⊎◌, IfErr};
ghost use Rattle.tor_source.specs.declared.faults.ScanFault.TheVariants.{Memory, System};

use crate::faults::{ScanFault, is_absence_at};
use crate::folder::place::Place;
use crate::folder::places::Places;
use std::fs::Metadata;
use std::io::ErrorKind;
use std::os::unix::fs::MetadataExt;
use std::rt::Files;

/// Whether the system has this file at one of the places. A link there is followed. A place with nothing has another
/// file, as has one whose links lead nowhere; of any other the system must tell.
pub(crate) fn is_at_one_of<R: Files>(
    rt: &R,
    places: &Places,
    file: &Metadata,
) -> Result<bool, ScanFault>
    ensures { IfErr result (λ fault. (fault ≡ Memory) ⊎ (fault ≡ System)) }
{
    let mut place = Place::new();
    for index in 0..places.count() {
        places.write(index, &mut place)?;
        if is_at(rt, place.as_str(), file)? {
            return Ok(true);
        }
    }
    Ok(false)
}

fn is_at<R: Files>(rt: &R, place: &str, file: &Metadata) -> Result<bool, ScanFault>
    ensures { IfErr result (λ fault. (fault ≡ Memory) ⊎ (fault ≡ System)) }
{
    match rt.metadata(place) {
        Ok(there) => Ok(there.ino() == file.ino() && there.dev() == file.dev()),
        Err(fault) if matches!(fault.kind(), ErrorKind::FilesystemLoop) => Ok(false),
        Err(fault) if is_absence_at(place, fault.kind()) => Ok(false),
        Err(fault) => Err(ScanFault::from(fault)),
    }
}
