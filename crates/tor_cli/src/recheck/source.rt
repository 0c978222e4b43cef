//! Where the system has the files of a torrent.
ghost use Rattle.std.specs.Prelude.{◌≡◌, ◌⊎◌, IfErr, IfOk, map};
ghost use Rattle.tor_view.specs.FileBytes.{has_piece_between};
ghost use Rattle.tor_report.specs.Told.{Describes};
ghost use Rattle.tor_cli.specs.recheck.Recheck.{IsNoPlace, IsNotPlaced};
ghost use Rattle.tor_cli.specs.declared.recheck.whereabouts.Whereabouts.TheVariants.{Nowhere};
ghost use Rattle.tor_cli.specs.steps.Places.{ArePlaced, ArePlaces, wanted_of_lot};
ghost use Rattle.tor_source.specs.Places.{place_of};
ghost use Rattle.tor_source.specs.declared.faults.ScanFault.TheVariants.{Memory};

use crate::fault::Fault;
use crate::lots::lot_number::LotNumber;
use crate::recheck::whereabouts::{Whereabouts, standing_of_answer, whereabouts_of};
use std::alloc::{AllocError, Global};
use std::rt::Files;
use tor_check::{Torrent, ViewFile};
use tor_recheck::pieces_of_lot;
use tor_report::{Judged, torrent_with_hashes};
use tor_source::{FolderSource, ScanFault};
use tor_tree::FilePath;
use tor_view::{FilePieces, files_in_pieces};

/// Which links are followed below the place where files are looked for; and, if none is, which files are looked for.
#[derive(Clone, Copy)]
pub enum Links {
    Followed,
    /// None is. Each file is looked for.
    Refused,
    /// None is. Those files alone are looked for that have bytes in pieces of this lot.
    RefusedOfLot(LotNumber),
}

/// A torrent, and where its files are looked for.
#[derive(Drop)]
pub struct PlacedTorrent {
    pub judged: Judged,
    pub source: FolderSource<HostRuntime>,
}

/// The torrent that the bytes are, and its files at a place, at which nothing is looked before the torrent was judged.
pub fn placed_at(
    system: &HostRuntime,
    place: &str,
    bytes: &[u8],
    links: Links,
) -> Result<PlacedTorrent, Fault>
    ensures told { IfOk result
        (λ placed. Describes bytes.now placed.judged.torrent placed.judged.hashes) }
    ensures placed { IfOk result (λ placed. ArePlaced place.now placed.judged.torrent placed.source) }
    ensures stopped { IfErr result (IsNotPlaced bytes.now) }
{
    let judged = match torrent_with_hashes(system.alloc(), bytes) {
        Ok(judged) => judged,
        Err(refusal) => return Err(Fault::from(refusal)),
    };
    match source_at(system, place, &judged.torrent, links) {
        Ok(source) => Ok(PlacedTorrent { judged, source }),
        Err(fault) => Err(Fault::from(fault)),
    }
}

/// The torrent's files at a place. A link at the place itself is followed.
fn source_at(
    system: &HostRuntime,
    place: &str,
    torrent: &Torrent,
    links: Links,
) -> Result<FolderSource<HostRuntime>, ScanFault>
    ensures placed { IfOk result (ArePlaced place.now torrent.now) }
    ensures refused { IfErr result (IsNoPlace torrent.now) }
{
    let standing = standing_of_answer(&system.metadata(place));
    let whereabouts = whereabouts_of(standing, torrent.files().len());
    placed_files(system, place, torrent, whereabouts, links)
}

/// The torrent's files, where they are looked for.
fn placed_files(
    system: &HostRuntime,
    place: &str,
    torrent: &Torrent,
    whereabouts: Whereabouts,
    links: Links,
) -> Result<FolderSource<HostRuntime>, ScanFault>
    ensures placed { IfOk result (ArePlaces whereabouts place.now torrent.now.files) }
    ensures refused { IfErr result (λ fault. (whereabouts ≡ Nowhere fault) ⊎ (fault ≡ Memory)) }
{
    match whereabouts {
        Whereabouts::Itself => Ok(FolderSource::single(system, system.alloc(), place)?),
        Whereabouts::Below => Ok(files_below(system, place, torrent, links)?),
        Whereabouts::Nowhere(fault) => Err(fault),
    }
}

fn files_below(
    system: &HostRuntime,
    place: &str,
    torrent: &Torrent,
    links: Links,
) -> Result<FolderSource<HostRuntime>, AllocError>
    ensures { IfOk result
        (λ source. source ≡ map (place_of place.now) (map (λ told. told.file.path) torrent.now.files)) }
{
    let alloc = system.alloc();
    let paths = paths_of(alloc, torrent.files())?;
    match links {
        Links::Followed => FolderSource::at(system, alloc, place, paths),
        Links::Refused => FolderSource::at_without_links(system, alloc, place, paths),
        Links::RefusedOfLot(lot) => {
            let wanted = wanted_of_lot(alloc, torrent, lot)?;
            FolderSource::wanted_without_links(system, alloc, place, paths, &wanted)
        }
    }
}

/// Of each file of a torrent, whether a piece of the lot has bytes of it.
fn wanted_of_lot(alloc: Global, torrent: &Torrent, lot: LotNumber) -> Result<Vec<bool>, AllocError>
    ensures { IfOk result (λ wanted. wanted.items ≡ wanted_of_lot lot torrent.now) }
{
    let (from, to) = pieces_of_lot(torrent, lot.lots, lot.number);
    let files = files_in_pieces(alloc, torrent)?;
    wanted_between(alloc, &files, from, to)
}

/// Of each of these files, whether one of the pieces from one on, and before another, has bytes of it.
fn wanted_between(
    alloc: Global,
    files: &[FilePieces],
    from: u64,
    to: u64,
) -> Result<Vec<bool>, AllocError>
    ensures { IfOk result (λ wanted. wanted.items ≡ map (has_piece_between from to) files.now) }
{
    let mut wanted = Vec::with_capacity(alloc, files.len())?;
    'files: for file in files {
        wanted.push(file.has_piece_between(from, to))?;
    }
    Ok(wanted)
}

/// The paths of these files.
pub fn paths_of(alloc: Global, files: &[ViewFile]) -> Result<Vec<FilePath>, AllocError>
    ensures { IfOk result (λ paths. paths.items ≡ map (λ told. told.file.path) files.now) }
{
    let mut paths = Vec::with_capacity(alloc, files.len())?;
    'files: for file in files {
        paths.push(file.file().path.copy(alloc)?)?;
    }
    Ok(paths)
}
