//! `tor recheck --extra`: which files below PATH a torrent does not have.
ghost use Rattle.std.specs.Prelude.{◌≡◌, ◌⊎◌, ◌==◌, ℕ, List, Option, IfErr, IfOk, length};
ghost use Rattle.tor_cli.specs.proof.Proving.{answer_of};
ghost use Rattle.tor_cli.specs.recheck.Extra.{AreExtra, DoesExtra, IsExtraTold, IsNoExtra, StopsExtra};
ghost use Rattle.tor_cli.specs.steps.Writing.{writing};
ghost use Rattle.tor_source.specs.declared.faults.ScanFault.TheVariants.{Memory, System};

use crate::answer::Answer;
use crate::fault::Fault;
use crate::foreign::read_file;
use crate::recheck::extra_text::extra_text;
use crate::recheck::extra_words::ExtraOptions;
use crate::recheck::source::paths_of;
use std::alloc::{AllocError, Global};
use std::io::Write;
use std::rt::Files;
use tor_check::Torrent;
use tor_report::torrent_with_hashes;
use tor_source::{FolderSource, Refusal, Refused, ScanFault, extra_paths};
use tor_spec::write_out;
use tor_tree::FilePath;

/// Writes the paths of the files below the place that the torrent does not have; the answer is yes if there is none.
/// Nothing is looked for, nor written, before the torrent was judged.
pub fn tell_extra<W: Write>(
    system: &HostRuntime,
    options: &ExtraOptions<'_>,
    out: &mut W,
) -> Result<Answer, Fault>
    ensures answered { (reader : Option (List ℕ)) → IfOk result (λ answer. DoesExtra options.now answer (writing reader
        (W.contents out.old) (W.contents out.new))) }
    ensures stopped { (reader : Option (List ℕ)) → IfErr result (StopsExtra options.now (writing reader
        (W.contents out.old) (W.contents out.new))) }
{
    let bytes = read_file(system.alloc(), system, options.torrent)?;
    let report = extra_report(system, &bytes, options)?;
    write_out(out, &report.text)?;
    Ok(report.answer)
}

/// What is printed of these files, and whether there is none.
#[derive(Drop)]
struct ExtraReport {
    text: Vec<u8>,
    answer: Answer,
}

/// What is printed of the files that the torrent does not have that the bytes are.
fn extra_report(
    system: &HostRuntime,
    bytes: &[u8],
    options: &ExtraOptions<'_>,
) -> Result<ExtraReport, Fault>
    ensures told { IfOk result (λ report. IsExtraTold options.now bytes.now report.text.items report.answer) }
    ensures stopped { IfErr result (IsNoExtra bytes.now) }
{
    let alloc = system.alloc();
    let judged = match torrent_with_hashes(alloc, bytes) {
        Ok(judged) => judged,
        Err(refusal) => return Err(Fault::from(refusal)),
    };
    let extra = match extra_at(system, options.place, &judged.torrent) {
        Ok(extra) => extra,
        Err(fault) => return Err(Fault::from(fault)),
    };
    Ok(ExtraReport {
        text: extra_text(alloc, options.form, &extra)?,
        answer: answer_of(extra.is_empty()),
    })
}

fn answer_of(holds: bool) -> Answer
    ensures { result ≡ answer_of holds }
{
    if holds { Answer::Yes } else { Answer::No }
}

/// The paths of the files at a place that a torrent does not have.
fn extra_at(system: &HostRuntime, place: &str, torrent: &Torrent) -> Result<Vec<Vec<u8>>, ScanFault>
    ensures told { IfOk result (λ extra. AreExtra torrent.now extra.items) }
    ensures refused { IfErr result (λ fault. (fault ≡ Memory) ⊎ (fault ≡ System)) }
{
    let alloc = system.alloc();
    let known = paths_of(alloc, torrent.files())?;
    let (taken, refused) = match files_at(system, place) {
        Ok(found) => found,
        Err(fault) => return Err(fault),
    };
    Ok(extra_paths(alloc, &taken, &refused, &known)?)
}

/// The files below a folder, and those that no torrent can have for their names; none below a file.
fn files_at(system: &HostRuntime, place: &str) -> Result<(Vec<FilePath>, Vec<Refused>), ScanFault>
    ensures { IfErr result (λ fault. (fault ≡ Memory) ⊎ (fault ≡ System)) }
{
    let alloc = system.alloc();
    if is_file(system, place) {
        return Ok((Vec::new(alloc), Vec::new(alloc)));
    }
    match FolderSource::survey(system, alloc, place) {
        Ok(found) => Ok((found.paths, unnameable(alloc, found.refused)?)),
        Err(ScanFault::Memory) => Err(ScanFault::Memory),
        Err(_) => Err(ScanFault::System),
    }
}

fn is_file(system: &HostRuntime, place: &str) -> bool {
    match system.metadata(place) {
        Ok(found) => found.is_file(),
        Err(_) => false,
    }
}

/// Of what was refused, that which has a name or a depth that no file of a torrent has. What is a link, or no file, or
/// a folder that the system does not list, is none of the files, and may lead to one of them.
fn unnameable(alloc: Global, refused: Vec<Refused>) -> Result<Vec<Refused>, AllocError> {
    let mut files = Vec::new(alloc);
    'refused: for one in refused {
        if matches!(one.refusal, Refusal::NotUtf8 | Refusal::TooDeep) {
            files.push(one)?;
        }
    }
    Ok(files)
}
