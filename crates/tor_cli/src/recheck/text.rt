//! Looks for the pieces and files of a torrent in a source. `report.rt` prints them; the texts here are a lot's.
ghost use Rattle.std.specs.Prelude.{◌≡◌, ◌≢◌, [], Err, IfErr, IfOk, OnOk, MatchResult, None, false, length, map, string_bytes, true};
ghost use Rattle.tor_cli.specs.recheck.Recheck.{counts_text, recheck_answer, recheck_text};
ghost use Rattle.tor_cli.specs.steps.Reporting.{IsReportOf, IsReportedOn};
ghost use Rattle.tor_sums.specs.Contents.{contents_in};
ghost use Rattle.tor_sums.specs.How.{IsHow};
ghost use Rattle.tor_engine.specs.PieceFault.{lengths_told};
ghost use Rattle.tor_sums.specs.declared.how.How.TheVariants.{Board};
ghost use Rattle.tor_view.specs.Files.{files_found, held_pieces};
ghost use Rattle.tor_recheck.specs.Readable.{IsNoReadFault, faults_seen, readable_held, readable_pieces};
ghost use Rattle.tor_engine.specs.Readable.{seen_lengths};
ghost use Rattle.tor_cli.specs.recheck.FoundFiles.{state_at, with_state};
ghost use Rattle.tor_view.specs.declared.files.FileState.TheVariants.{Link, Unreadable};
ghost use Rattle.tor_recheck.specs.Recheck.{IsFault, IsGiven, first_fault};
ghost use Rattle.tor_recheck.specs.declared.errors.RecheckError.TheVariants.{Resources, Workers};
ghost use Rattle.tor_source.specs.Source.{SourceFacts};
ghost use Rattle.tor_spec.specs.Verified.{verified_pieces};

use crate::answer::Answer;
use crate::progress::{Counting, Progress, erase};
use crate::recheck::counts::counts_of;
use crate::recheck::words::RecheckOptions;
use crate::workers::board_of;
use hex::encode;
use std::alloc::{AllocError, Global};
use std::thread::Threads;
use tor_engine::ReadFault;
use tor_recheck::{Findings, ReadableFindings, RecheckError, recheck_files, recheck_readable};
use tor_report::Judged;
use tor_source::Source;
use tor_view::{Bits, FileFound, FileState};

/// What a recheck tells.
#[derive(Drop)]
pub struct Report {
    /// One bit for each piece.
    pub bits: Bits,
    /// What was found of each file.
    pub files: Vec<FileFound>,
    /// Whether all pieces are there and right.
    pub answer: Answer,
}

/// What a recheck tells, which keeps going exactly if the options ask for it.
pub fn report_by<S: Source, T: Threads + Sync>(
    rt: &T,
    alloc: Global,
    source: &S,
    judged: &Judged,
    links: &[u64],
    options: &RecheckOptions<'_>,
    progress: &Option<Progress>,
) -> Result<Report, RecheckError<S::Fault>>
    requires { options.now.follows_links ≡ true → links.now ≡ [] }
    ensures reported { IfOk result (IsReportedOn options.now judged.now.torrent judged.now.hashes) }
    ensures goes_on { options.now.keeps_going ≡ true → IsHow (Board options.now.workers) →
        (facts : SourceFacts S.Fault) → S.is_steady source.now facts →
        MatchResult result (IsReportOf
        (readable_pieces facts judged.now.torrent)
        (with_state Link links.now (with_state Unreadable
        (map (λ fault. fault.file) (faults_seen facts judged.now.torrent))
        (files_found judged.now.torrent (seen_lengths facts (length judged.now.torrent.files))
        (readable_held facts judged.now.torrent)))))
        (λ error. error ≡ Resources) }
    ensures ends { options.now.keeps_going ≡ false → IsHow (Board options.now.workers) →
        (facts : SourceFacts S.Fault) → S.is_steady source.now facts →
        MatchResult result
        (λ report. IsReportOf
        (verified_pieces judged.now.torrent (contents_in facts (length judged.now.torrent.files)))
        (with_state Link links.now
        (files_found judged.now.torrent (lengths_told facts (length judged.now.torrent.files))
        (held_pieces judged.now.torrent (contents_in facts (length judged.now.torrent.files)))))
        report × (first_fault facts judged.now.torrent ≡ None))
        (IsFault (first_fault facts judged.now.torrent)) }
    ensures refused { (IsHow (Board options.now.workers) → ⊥) → result ≡ Err Workers }
    ensures workers { OnOk result (IsHow (Board options.now.workers)) }
    ensures allowed { IsHow (Board options.now.workers) → IfErr result (λ error. error ≢ Workers) }
    ensures goes_past { options.now.keeps_going ≡ true → IfErr result IsNoReadFault }
    ensures gave { IfErr result (IsGiven (S.answers source.now) (length judged.now.torrent.files)) }
{
    if options.keeps_going {
        return readable_report(rt, alloc, source, judged, links, options, progress);
    }
    counted_report(rt, alloc, source, judged, links, options, progress)
}

/// As [`counted_report`], but it goes on past what cannot be read, which is not there: a file with such a place is
/// unreadable.
pub fn readable_report<S: Source, T: Threads + Sync>(
    rt: &T,
    alloc: Global,
    source: &S,
    judged: &Judged,
    links: &[u64],
    options: &RecheckOptions<'_>,
    progress: &Option<Progress>,
) -> Result<Report, RecheckError<S::Fault>>
    requires followed { options.now.follows_links ≡ true → links.now ≡ [] }
    requires kept { options.now.keeps_going ≡ true }
    ensures reported { IfOk result (IsReportedOn options.now judged.now.torrent judged.now.hashes) }
    ensures found { IsHow (Board options.now.workers) → (facts : SourceFacts S.Fault) → S.is_steady source.now facts →
        MatchResult result (IsReportOf
        (readable_pieces facts judged.now.torrent)
        (with_state Link links.now (with_state Unreadable
        (map (λ fault. fault.file) (faults_seen facts judged.now.torrent))
        (files_found judged.now.torrent (seen_lengths facts (length judged.now.torrent.files))
        (readable_held facts judged.now.torrent)))))
        (λ error. error ≡ Resources) }
    ensures refused { (IsHow (Board options.now.workers) → ⊥) → result ≡ Err Workers }
    ensures workers { OnOk result (IsHow (Board options.now.workers)) }
    ensures allowed { IsHow (Board options.now.workers) → IfErr result (λ error. error ≢ Workers) }
    ensures goes_past { IfErr result IsNoReadFault }
    ensures gave { IfErr result (IsGiven (S.answers source.now) (length judged.now.torrent.files)) }
{
    let torrent = &judged.torrent;
    let counting = Counting {
        source,
        files: torrent.files(),
        progress,
    };
    let how = board_of(options.workers);
    let rechecked = recheck_readable(rt, alloc, &counting, torrent, how);
    erase(progress);
    match rechecked {
        Ok(told) => {
            let ReadableFindings { found, faults } = told;
            let Findings { bits, files } = found;
            let files = with_links(with_unreadable(files, &faults), links);
            Ok(report_of(bits, files))
        }
        Err(error) => Err(error),
    }
}

/// What is told of files, of which those with a place that could not be read are unreadable.
fn with_unreadable<F>(files: Vec<FileFound>, faults: &[ReadFault<F>]) -> Vec<FileFound>
    ensures { result.items ≡ with_state Unreadable (map (λ fault. fault.file) faults.now) files.items }
{
    let mut files = files;
    'faults: for fault in faults {
        set_state(&mut files, fault.file as usize, FileState::Unreadable);
    }
    files
}

/// What is told of files, of which these are behind links that were not followed.
fn with_links(files: Vec<FileFound>, links: &[u64]) -> Vec<FileFound>
    ensures { result.items ≡ with_state Link links.now files.items }
{
    let mut files = files;
    'links: for link in links {
        set_state(&mut files, *link as usize, FileState::Link);
    }
    files
}

fn set_state(files: &mut [FileFound], file: usize, state: FileState)
    ensures { files.new ≡ state_at state file files.old }
{
    if file < files.len() {
        files[file] = FileFound {
            state,
            ..files[file]
        };
    }
}

/// Looks for the torrent's pieces and files in a source, and tells what is there of them. What is read is counted;
/// the progress that is shown meanwhile is erased at the end.
pub fn counted_report<S: Source, T: Threads + Sync>(
    rt: &T,
    alloc: Global,
    source: &S,
    judged: &Judged,
    links: &[u64],
    options: &RecheckOptions<'_>,
    progress: &Option<Progress>,
) -> Result<Report, RecheckError<S::Fault>>
    requires { options.now.follows_links ≡ true → links.now ≡ [] }
    ensures reported { IfOk result (IsReportedOn options.now judged.now.torrent judged.now.hashes) }
    ensures found { IsHow (Board options.now.workers) → (facts : SourceFacts S.Fault) → S.is_steady source.now facts →
        MatchResult result
        (λ report. IsReportOf
        (verified_pieces judged.now.torrent (contents_in facts (length judged.now.torrent.files)))
        (with_state Link links.now
        (files_found judged.now.torrent (lengths_told facts (length judged.now.torrent.files))
        (held_pieces judged.now.torrent (contents_in facts (length judged.now.torrent.files)))))
        report × (first_fault facts judged.now.torrent ≡ None))
        (IsFault (first_fault facts judged.now.torrent)) }
    ensures refused { (IsHow (Board options.now.workers) → ⊥) → result ≡ Err Workers }
    ensures workers { OnOk result (IsHow (Board options.now.workers)) }
    ensures allowed { IsHow (Board options.now.workers) → IfErr result (λ error. error ≢ Workers) }
    ensures gave { IfErr result (IsGiven (S.answers source.now) (length judged.now.torrent.files)) }
{
    let torrent = &judged.torrent;
    let counting = Counting {
        source,
        files: torrent.files(),
        progress,
    };
    let how = board_of(options.workers);
    let rechecked = recheck_files(rt, alloc, &counting, torrent, how);
    erase(progress);
    match rechecked {
        Ok(found) => {
            let Findings { bits, files } = found;
            let files = with_links(files, links);
            Ok(report_of(bits, files))
        }
        Err(error) => Err(error),
    }
}

/// What is told of these bits and these files.
fn report_of(bits: Bits, files: Vec<FileFound>) -> Report
    ensures { IsReportOf bits files.items result }
{
    let answer = answer_of(&bits);
    Report {
        bits,
        files,
        answer,
    }
}

pub fn counts_text(alloc: Global, bits: &Bits) -> Result<String, AllocError>
    ensures { IfOk result (λ text. string_bytes text ≡ counts_text bits.now) }
{
    let counts = counts_of(bits);
    let good = counts.good;
    let pieces = counts.pieces;
    format!(in alloc; "pieces {good} of {pieces}\n")
}

pub fn text_of(alloc: Global, bits: &Bits) -> Result<String, AllocError>
    ensures { IfOk result (λ text. string_bytes text ≡ recheck_text bits.now) }
{
    let counts = counts_of(bits);
    let good = counts.good;
    let pieces = counts.pieces;
    let bitfield = bits.to_bytes(alloc)?;
    let digits = encode(alloc, bitfield.as_slice())?;
    format!(in alloc; "pieces {good} of {pieces}\nbits {digits}\n")
}

/// Whether all pieces are there and right.
pub fn answer_of(bits: &Bits) -> Answer
    ensures { result ≡ recheck_answer bits.now }
{
    if counts_of(bits).are_all_good() {
        Answer::Yes
    } else {
        Answer::No
    }
}
