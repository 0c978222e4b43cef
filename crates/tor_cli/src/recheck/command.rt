//! `tor recheck`: which pieces of the torrent in a file are there and right.
ghost use Rattle.std.specs.Prelude.{◌≡◌, if◌then◌else◌, ℕ, List, [], Option, IfErr, IfOk, OnOk, true};
ghost use Rattle.tor_cli.specs.recheck.Recheck.{DoesRecheck, IsNotRechecked, IsPastReads, StopsRechecking};
ghost use Rattle.tor_cli.specs.declared.recheck.source.Links.TheVariants.{Followed, Refused};
ghost use Rattle.tor_cli.specs.steps.Places.{ArePlaced};
ghost use Rattle.tor_cli.specs.steps.Reporting.{IsReportedOn, IsToldRechecked};
ghost use Rattle.tor_cli.specs.steps.Writing.{writing};
ghost use Rattle.tor_report.specs.Told.{Describes};
ghost use Rattle.tor_sums.specs.How.{IsHow};
ghost use Rattle.tor_sums.specs.declared.how.How.TheVariants.{Board};

use crate::answer::Answer;
use crate::fault::Fault;
use crate::foreign::read_file;
use crate::progress::Progress;
use crate::recheck::report::write_report;
use crate::recheck::source::{Links, PlacedTorrent, placed_at};
use crate::recheck::text::{Report, report_by};
use crate::recheck::words::RecheckOptions;
use std::alloc::{AllocError, Global};
use std::io::Write;
use std::thread::Threads;
use tor_report::Judged;
use tor_source::FolderSource;

/// Writes which pieces are there and right, and which files, if any are listed; the answer is yes if all pieces are.
/// Nothing is looked for, nor written, before the torrent was judged.
pub fn recheck<T: Threads + Sync, W: Write>(
    rt: &T,
    system: &HostRuntime,
    options: &RecheckOptions<'_>,
    out: &mut W,
    shows_progress: bool,
) -> Result<Answer, Fault>
    ensures answered { (reader : Option (List ℕ)) → IfOk result (λ answer. DoesRecheck options.now answer
        (writing reader (W.contents out.old) (W.contents out.new))) }
    ensures stopped { (reader : Option (List ℕ)) → IfErr result (StopsRechecking options.now (writing reader
        (W.contents out.old) (W.contents out.new))) }
{
    let bytes = read_file(system.alloc(), system, options.torrent)?;
    let told = report_at(rt, system, &bytes, options, shows_progress)?;
    write_report(
        system.alloc(),
        out,
        &told.judged,
        options.form,
        options.listing,
        &told.report.bits,
        &told.report.files,
    )?;
    Ok(told.report.answer)
}

/// What is told of a torrent.
#[derive(Drop)]
struct Told {
    judged: Judged,
    report: Report,
}

/// What is told of the torrent that the bytes are, by what the system has at the place.
fn report_at<T: Threads + Sync>(
    rt: &T,
    system: &HostRuntime,
    bytes: &[u8],
    options: &RecheckOptions<'_>,
    shows_progress: bool,
) -> Result<Told, Fault>
    ensures rechecked { IfOk result (IsToldRechecked options.now bytes.now) }
    ensures stopped { IfErr result (IsNotRechecked options.now.workers bytes.now) }
    ensures goes_on { options.now.keeps_going ≡ true → IfErr result IsPastReads }
{
    let looked = links_followed(options.follows_links);
    let placed = match placed_at(system, options.place, bytes, looked) {
        Ok(placed) => placed,
        Err(fault) => return Err(fault),
    };
    match report_on(rt, system, bytes, &placed, options, shows_progress) {
        Ok(report) => Ok(Told {
            judged: placed.judged,
            report,
        }),
        Err(fault) => Err(fault),
    }
}

/// What is told of the pieces and the files of this torrent, by what is at the places of its files.
fn report_on<T: Threads + Sync>(
    rt: &T,
    system: &HostRuntime,
    bytes: &[u8],
    placed: &PlacedTorrent,
    options: &RecheckOptions<'_>,
    shows_progress: bool,
) -> Result<Report, Fault>
    requires told { Describes bytes.now placed.now.judged.torrent placed.now.judged.hashes }
    requires placed { ArePlaced options.now.place.now placed.now.judged.torrent placed.now.source }
    ensures workers { OnOk result (IsHow (Board options.now.workers)) }
    ensures reported { IfOk result
        (IsReportedOn options.now placed.now.judged.torrent placed.now.judged.hashes) }
    ensures stopped { IfErr result (IsNotRechecked options.now.workers bytes.now) }
    ensures goes_on { options.now.keeps_going ≡ true → IfErr result IsPastReads }
{
    let files = placed.judged.torrent.files().len();
    let links = links_of(system.alloc(), &placed.source, files, options.follows_links)?;
    let progress = Progress::shown(system, files, shows_progress);
    match report_by(
        rt,
        system.alloc(),
        &placed.source,
        &placed.judged,
        &links,
        options,
        &progress,
    ) {
        Ok(report) => Ok(report),
        Err(error) => Err(Fault::from(error)),
    }
}

/// Which links are followed, as the words say.
fn links_followed(follows: bool) -> Links
    ensures { result ≡ (if follows then Followed else Refused) }
{
    if follows {
        Links::Followed
    } else {
        Links::Refused
    }
}

/// The numbers of the files that are not there because of a link; none if links are followed.
fn links_of(
    alloc: Global,
    source: &FolderSource<HostRuntime>,
    files: usize,
    follows_links: bool,
) -> Result<Vec<u64>, AllocError>
    ensures { follows_links ≡ true → IfOk result (λ links. links.items ≡ []) }
{
    let mut links = Vec::new(alloc);
    if follows_links {
        return Ok(links);
    }
    'files: for file in 0..files {
        if source.is_behind_link(file) {
            links.push(file as u64)?;
        }
    }
    Ok(links)
}
