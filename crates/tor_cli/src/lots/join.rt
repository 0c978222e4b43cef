//! `tor join`: its doing.
ghost use Rattle.std.specs.Prelude.{◌≡◌, ◌<◌, ℕ, List, Option, IfErr, IfOk, OnOk, length, map, string_bytes};
ghost use Rattle.tor_cli.specs.lots.Lots.{DoesJoin, IsJoinFault, StopsJoining, number_of_part, part_text};
ghost use Rattle.tor_cli.specs.steps.Writing.{writing};
ghost use Rattle.tor_meta.specs.steps.Join.{texts_of};

use crate::fault::Fault;
use crate::foreign::read_file;
use crate::lots::join_words::JoinOptions;
use crate::out_before::OutBefore;
use crate::text::escape::escaped;
use crate::whole_file::send_whole;
use std::alloc::{AllocError, Global};
use std::io::Write;
use tor_meta::{JoinError, join_lots};
use tor_source::InputFault;

/// Joins a plan and all its parts to the torrent, and writes it. Nothing is written before all was judged.
pub fn join<W: Write>(
    system: &HostRuntime,
    options: &JoinOptions<'_>,
    out: &mut W,
) -> Result<(), Fault>
    ensures made { (reader : Option (List ℕ)) → OnOk result (DoesJoin options.now (writing reader
        (W.contents out.old) (W.contents out.new))) }
    ensures stopped { (reader : Option (List ℕ)) → IfErr result (StopsJoining options.now (writing reader
        (W.contents out.old) (W.contents out.new))) }
{
    let before = OutBefore::at(system, options.out);
    let alloc = system.alloc();
    let plan = read_file(alloc, system, options.plan)?;
    let parts = read_parts(alloc, system, &options.parts)?;
    let torrent = match join_lots(alloc, &plan, &parts) {
        Ok(torrent) => torrent,
        Err(error) => return Err(join_fault(alloc, error, &options.parts)?),
    };
    send_whole(system, out, options.out, &before, &torrent)
}

/// The bytes of each part.
fn read_parts(
    alloc: Global,
    system: &HostRuntime,
    places: &[&str],
) -> Result<Vec<Vec<u8>>, InputFault>
    ensures { IfOk result (λ parts. length parts.items ≡ length places.now) }
{
    let mut parts = Vec::with_capacity(alloc, places.len())?;
    'places: for place in places {
        let part = read_file(alloc, system, place)?;
        if parts.push(part).is_err() {
            return Err(InputFault::Memory);
        }
    }
    Ok(parts)
}

/// The fault of an error, with the place of the part that it is for.
fn join_fault(alloc: Global, error: JoinError, places: &[&str]) -> Result<Fault, AllocError>
    ensures { IfOk result (IsJoinFault (map (λ place. place.now) places.now) error) }
{
    let part = part_text(alloc, places, number_of_part(&error))?;
    match error {
        JoinError::Memory => Ok(Fault::Resources),
        JoinError::Plan(error) => Ok(Fault::from(error)),
        error => Ok(Fault::Join(error, part)),
    }
}

/// The place of the part of this number, in one line.
fn part_text(alloc: Global, places: &[&str], number: Option<usize>) -> Result<String, AllocError>
    ensures { IfOk result (λ text. string_bytes text ≡ part_text (map (λ place. place.now) places.now) number) }
{
    let place = match number {
        Some(number) => places.get(number).copied(),
        None => None,
    };
    escaped(alloc, place.unwrap_or(""))
}

/// The number of the part that an error is for.
fn number_of_part(error: &JoinError) -> Option<usize>
    ensures { result ≡ number_of_part error.now }
{
    match error {
        JoinError::NoPart { word }
        | JoinError::OtherPlan { word }
        | JoinError::OtherParts { word }
        | JoinError::Twice { word }
        | JoinError::Length { word } => Some(*word),
        _ => None,
    }
}
