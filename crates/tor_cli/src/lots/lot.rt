//! `tor make --plan PLAN --part K/N PATH`: its doing.
ghost use Rattle.std.specs.Prelude.{◌≡◌, ◌<◌, ◌⊎◌, ℕ, List, Option, IfErr, IfOk, IsSome, OnOk, length};
ghost use Rattle.tor_cli.specs.declared.fault.Fault.TheVariants.{OutAmongFiles, Resources, Scan};
ghost use Rattle.tor_source.specs.declared.faults.ScanFault.TheVariants.{System};
ghost use Rattle.tor_cli.specs.lots.Lots.{DoesLot, IsLotAt, IsNoLot, StopsLot, file_of_lot, places_of_list};
ghost use Rattle.tor_cli.specs.steps.Writing.{writing};
ghost use Rattle.tor_meta.specs.JudgedPlan.{bytes_of_plan};
ghost use Rattle.tor_sums.specs.How.{IsHow};
ghost use Rattle.tor_tree.specs.FileList.{paths_of};

use crate::fault::Fault;
use crate::foreign::read_file;
use crate::lots::lot_words::LotOptions;
use crate::make::out_file::{refuse_out_among_files, refuse_unwritable};
use crate::out_before::OutBefore;
use crate::progress::{Counting, Progress, erase};
use crate::whole_file::{refuse_unmakeable, send_whole};
use std::alloc::AllocError;
use std::io::Write;
use std::rt::Files;
use std::thread::Threads;
use tor_meta::{JudgedPlan, MakeError, files_of_lot, make_lot, read_plan};
use tor_source::FolderSource;
use tor_tree::copy_paths;

/// Hashes one lot of a plan, and writes it. Nothing is looked for, nor written, before the plan was judged; and nothing
/// is hashed that could not be written, or whose file is one of the plan's own.
pub fn lot<T: Threads + Sync, W: Write>(
    rt: &T,
    system: &HostRuntime,
    options: &LotOptions<'_>,
    out: &mut W,
    shows_progress: bool,
) -> Result<(), Fault>
    ensures made { (reader : Option (List ℕ)) → OnOk result (DoesLot options.now (writing reader
        (W.contents out.old) (W.contents out.new))) }
    ensures stopped { (reader : Option (List ℕ)) → IfErr result (StopsLot options.now (writing reader
        (W.contents out.old) (W.contents out.new))) }
{
    let before = OutBefore::at(system, options.out);
    let alloc = system.alloc();
    let plan = read_file(alloc, system, options.plan)?;
    let bytes = lot_of_plan(rt, system, &plan, options, shows_progress)?;
    send_whole(system, out, options.out, &before, &bytes)
}

/// The bytes of the lot of the plan that has these bytes.
fn lot_of_plan<T: Threads + Sync>(
    rt: &T,
    system: &HostRuntime,
    plan: &[u8],
    options: &LotOptions<'_>,
    shows_progress: bool,
) -> Result<Vec<u8>, Fault>
    ensures allowed { OnOk result (IsHow options.now.how) }
    ensures made { IfOk result (λ bytes. IsLotAt options.now.lot plan.now bytes.items) }
    ensures some { IfOk result (λ bytes. 0 < length bytes.items) }
    ensures stopped { IfErr result (IsNoLot options.now plan.now) }
{
    if !options.how.is_allowed() {
        return Err(Fault::Make(MakeError::Workers));
    }
    lot_by_workers(rt, system, plan, options, shows_progress)
}

/// The bytes of the lot, hashed by workers that may.
fn lot_by_workers<T: Threads + Sync>(
    rt: &T,
    system: &HostRuntime,
    plan: &[u8],
    options: &LotOptions<'_>,
    shows_progress: bool,
) -> Result<Vec<u8>, Fault>
    requires allowed { IsHow options.now.how }
    ensures made { IfOk result (λ bytes. IsLotAt options.now.lot plan.now bytes.items) }
    ensures some { IfOk result (λ bytes. 0 < length bytes.items) }
    ensures stopped { IfErr result (IsNoLot options.now plan.now) }
{
    let plan = read_plan(system.alloc(), plan)?;
    lot_of_judged(rt, system, &plan, options, shows_progress)
}

/// The bytes of the lot of a plan that was read. Nothing is hashed unless it can be written.
fn lot_of_judged<T: Threads + Sync>(
    rt: &T,
    system: &HostRuntime,
    plan: &JudgedPlan,
    options: &LotOptions<'_>,
    shows_progress: bool,
) -> Result<Vec<u8>, Fault>
    requires allowed { IsHow options.now.how }
    ensures made { IfOk result (λ bytes. IsLotAt options.now.lot (bytes_of_plan plan.now) bytes.items) }
    ensures some { IfOk result (λ bytes. 0 < length bytes.items) }
    ensures stopped { IfErr result (IsNoLot options.now (bytes_of_plan plan.now)) }
{
    let source = source_of(system, options, plan)?;
    refuse_out_among_plan(system, options, plan)?;
    refuse_unwritable(system, options.out)?;
    refuse_unmakeable(system, options.out)?;
    lot_of_source(rt, system, plan, &source, options, shows_progress)
}

/// The bytes of the lot, of the files of this source.
fn lot_of_source<T: Threads + Sync>(
    rt: &T,
    system: &HostRuntime,
    plan: &JudgedPlan,
    source: &FolderSource<HostRuntime>,
    options: &LotOptions<'_>,
    shows_progress: bool,
) -> Result<Vec<u8>, Fault>
    requires allowed { IsHow options.now.how }
    requires count { length source.now ≡ length plan.now.listing.list.files }
    requires places { source.now ≡ places_of_list options.now.place.now plan.now.listing.head.single
        (paths_of plan.now.listing.list.files) }
    ensures made { IfOk result (λ bytes. IsLotAt options.now.lot (bytes_of_plan plan.now) bytes.items) }
    ensures some { IfOk result (λ bytes. 0 < length bytes.items) }
    ensures stopped { IfErr result (IsNoLot options.now (bytes_of_plan plan.now)) }
{
    // What every plan keeps to is told with its listing.
    let files = plan.listing().list().files();
    let progress = Progress::shown(system, files.len(), shows_progress);
    let counting = Counting {
        source,
        files: &[],
        progress: &progress,
    };
    let alloc = system.alloc();
    let (lots, number) = (options.lot.lots, options.lot.number);
    let made = make_lot(rt, alloc, &counting, plan, lots, number, options.how);
    erase(&progress);
    match made {
        Ok(bytes) => Ok(bytes),
        Err(error) => Err(Fault::from(MakeError::from(error))),
    }
}

/// The files of a plan at PATH: the one file that it is of, or those below the folder, of which only the lot's own are
/// looked for, and no link is followed.
fn source_of(
    system: &HostRuntime,
    options: &LotOptions<'_>,
    plan: &JudgedPlan,
) -> Result<FolderSource<HostRuntime>, AllocError>
    ensures count { IfOk result (λ source. length source ≡ length plan.now.listing.list.files) }
    ensures places { IfOk result (λ source. source ≡ places_of_list options.now.place.now plan.now.listing.head.single
        (paths_of plan.now.listing.list.files)) }
{
    let listing = plan.listing();
    if listing.head().single {
        return all_files(system, options.place, plan);
    }
    let alloc = system.alloc();
    let paths = copy_paths(alloc, listing.list().files())?;
    let own = files_of_lot(alloc, listing, options.lot.lots, options.lot.number)?;
    FolderSource::wanted_without_links(system, alloc, options.place, paths, &own)
}

/// Refuses FILE if it is a file of the plan, whichever lot has bytes of it.
fn refuse_out_among_plan(
    system: &HostRuntime,
    options: &LotOptions<'_>,
    plan: &JudgedPlan,
) -> Result<(), Fault>
    ensures { IfErr result (λ fault. (fault ≡ Resources)
        ⊎ (((fault ≡ Scan System) ⊎ (fault ≡ OutAmongFiles)) × IsSome (file_of_lot options.now))) }
{
    let Some(place) = options.out else {
        return Ok(());
    };
    if system.metadata(place).is_err() {
        return Ok(());
    }
    let files = all_files(system, options.place, plan)?;
    refuse_out_among_files(system, options.out, &files)
}

/// All files of a plan at PATH, none of which was looked for.
fn all_files(
    system: &HostRuntime,
    place: &str,
    plan: &JudgedPlan,
) -> Result<FolderSource<HostRuntime>, AllocError>
    ensures count { IfOk result (λ source. length source ≡ length plan.now.listing.list.files) }
    ensures places { IfOk result (λ source. source ≡ places_of_list place.now plan.now.listing.head.single
        (paths_of plan.now.listing.list.files)) }
{
    let alloc = system.alloc();
    let listing = plan.listing();
    let files = listing.list().files();
    if listing.head().single && files.len() == 1 {
        return FolderSource::single(system, alloc, place);
    }
    FolderSource::at(system, alloc, place, copy_paths(alloc, files)?)
}
