//! What stands at a place: the files that `make` would take, and what it would refuse.
ghost use Rattle.std.specs.Prelude.{◌≡◌, IfErr, IfOk, IfSome, None, Some, length, option_map};
ghost use Rattle.std.specs.List.Sorted.{IsStrictlySortedBy};
ghost use Rattle.tor_tree.specs.Path.{path_cmp};
ghost use Rattle.tor_cli.specs.scan.Inventory.{IsInventory, IsNoInventory};

use crate::fault::Fault;
use std::alloc::{AllocError, Global};
use std::rt::Files;
use tor_source::{FolderSource, Refused, ScanFault, Survey};
use tor_tree::{FilePath, Name};

/// The files that can be taken, in the order of their paths, and what is refused, in the order in which it was met.
#[derive(Drop)]
pub struct Inventory {
    pub paths: Vec<FilePath>,
    /// How many bytes each has.
    pub lengths: Vec<u64>,
    pub refused: Vec<Refused>,
}

/// What stands at a place: the file there, the files below the folder there, or of these those that are chosen. A link
/// at the place itself is followed, and none below it.
pub fn inventory_of(
    system: &HostRuntime,
    place: &str,
    chosen: Option<Vec<FilePath>>,
) -> Result<Inventory, Fault>
    requires { IfSome chosen (λ paths. IsStrictlySortedBy path_cmp paths.items) }
    ensures found { IfOk result (IsInventory (option_map (λ paths. paths.items) chosen)) }
    ensures stopped { IfErr result (IsNoInventory (option_map (λ paths. paths.items) chosen)) }
{
    match chosen {
        Some(paths) => Ok(chosen_below(system, place, paths)?),
        None => all_at(system, place),
    }
}

/// Of these files those below a folder that can be taken, and the others.
fn chosen_below(
    system: &HostRuntime,
    place: &str,
    chosen: Vec<FilePath>,
) -> Result<Inventory, ScanFault>
    requires { IsStrictlySortedBy path_cmp chosen.items }
    ensures { IfOk result (IsInventory (Some chosen.items)) }
{
    let survey = FolderSource::listed(system, system.alloc(), place, chosen)?;
    Ok(of_survey(system.alloc(), survey)?)
}

/// The file at a place, or all files below the folder there.
fn all_at(system: &HostRuntime, place: &str) -> Result<Inventory, Fault>
    ensures found { IfOk result (IsInventory None) }
    ensures stopped { IfErr result (IsNoInventory None) }
{
    let alloc = system.alloc();
    match system.metadata(place) {
        Ok(metadata) if metadata.is_file() => one_file(alloc, place, metadata.len()),
        _ => {
            let survey = FolderSource::survey(system, alloc, place)?;
            Ok(of_survey(alloc, survey)?)
        }
    }
}

fn of_survey(alloc: Global, survey: Survey<HostRuntime>) -> Result<Inventory, AllocError>
    ensures paths { IfOk result (λ found. found.paths ≡ survey.paths) }
    ensures lengths { IfOk result (λ found. length found.lengths.items ≡ length survey.source) }
    ensures refused { IfOk result (λ found. found.refused ≡ survey.refused) }
{
    let lengths = Vec::from_slice(alloc, survey.source.lengths())?;
    Ok(Inventory {
        paths: survey.paths,
        lengths,
        refused: survey.refused,
    })
}

/// The one file of a place, under the last name of the place.
fn one_file(alloc: Global, place: &str, length: u64) -> Result<Inventory, Fault>
    ensures found { IfOk result (IsInventory None) }
    ensures stopped { IfErr result (IsNoInventory None) }
{
    let name = Name::new(alloc, last_name(place).as_bytes())?;
    let path = FilePath::of_name(alloc, &name)?;
    Ok(Inventory {
        paths: vec![in alloc; path]?,
        lengths: vec![in alloc; length]?,
        refused: Vec::new(alloc),
    })
}

fn last_name(place: &str) -> &str {
    match place.rsplit_once('/') {
        Some((_, name)) => name,
        None => place,
    }
}
