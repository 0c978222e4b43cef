//! What the words ask for: a `Request`. Which words there are, `tor_words` tells; what those of a command ask for, a
//! file of the command reads.
ghost use Rattle.clap.specs.Walk.{texts};
ghost use Rattle.clap.specs.Words.{first_of, found_of, rows_of, subcommand_rows_of};
ghost use Rattle.std.specs.Prelude.{◌≡◌, IfErr, IfOk, IfSome, None, Ok, Some, codes};
ghost use Rattle.tor_cli.specs.Words.{Asks, IsOfWords};
ghost use Rattle.tor_cli.specs.steps.Found.{IsFoundIn};

use crate::check::link::{MagnetOptions, magnet_options};
use crate::check::words::{CheckOptions, check_options};
use crate::edit::words::{EditOptions, edit_options};
use crate::fault::Fault;
use crate::lots::join_words::{JoinOptions, join_options};
use crate::lots::lot_words::{LotOptions, lot_options};
use crate::lots::number::lot_of;
use crate::lots::plan_options::PlanOptions;
use crate::lots::plan_words::plan_options;
use crate::make::options::{MakeOptions, make_options, piece_length_in};
use crate::make::piece_length::piece_length_fault;
use crate::proof::words::{ProveOptions, VerifyOptions, prove_options, verify_options};
use crate::recheck::extra_words::{ExtraOptions, extra_options};
use crate::recheck::lot_words::{LotRecheckOptions, lot_recheck_options};
use crate::recheck::words::{RecheckOptions, recheck_options};
use crate::scan::words::{ScanOptions, scan_options};
use crate::text::escape::escaped;
use crate::workers::workers_fault;
use clap::ArgMatches;
use clap::error::ErrorKind;
use std::alloc::{AllocError, Global};
use std::thread::Threads;
use tor_words::tor_command;

/// What the words ask for.
#[derive(Drop)]
pub enum Request<'a> {
    /// To print a text: help, or the version.
    Show(String),
    Make(MakeOptions<'a>),
    /// To make the plan by which many machines hash one torrent.
    Plan(PlanOptions<'a>),
    /// To hash one lot of a plan.
    Lot(LotOptions<'a>),
    /// To make the torrent of a plan and its parts.
    Join(JoinOptions<'a>),
    /// To write a torrent with another tracker.
    Edit(EditOptions<'a>),
    /// To tell what `make` would take of a place.
    Scan(ScanOptions<'a>),
    /// To tell what a torrent describes.
    Check(CheckOptions<'a>),
    /// To print a torrent's magnet link.
    Magnet(MagnetOptions<'a>),
    /// To print the proof of a piece.
    Prove(ProveOptions<'a>),
    /// To tell whether a proof of a piece holds.
    Verify(VerifyOptions<'a>),
    /// To tell which pieces are there and right.
    Recheck(RecheckOptions<'a>),
    /// To tell it of one lot of the pieces.
    RecheckLot(LotRecheckOptions<'a>),
    /// To tell which files the torrent does not have.
    Extra(ExtraOptions<'a>),
}

/// Reads the words, of which the first is the program's name.
pub fn read_words<'a, T: Threads>(
    rt: &T,
    alloc: Global,
    words: &'a [&'a str],
) -> Result<Request<'a>, Fault>
    ensures asked { IfOk result (Asks (texts words.entry.now)) }
    ensures refused { IfErr result IsOfWords }
{
    match tor_command(alloc)?.try_get_matches_from(words) {
        Ok(matches) => request_of(rt, alloc, &matches),
        Err(error) if error.kind() == ErrorKind::OutOfMemory => Err(Fault::Resources),
        Err(error) if error.use_stderr() => Err(usage_fault(alloc, words)?),
        Err(error) => Ok(Request::Show(format!(in alloc; "{error}")?)),
    }
}

fn request_of<'a, T: Threads>(
    rt: &T,
    alloc: Global,
    matches: &ArgMatches<'a>,
) -> Result<Request<'a>, Fault>
    ensures asked { IfOk result (IsFoundIn matches.now) }
    ensures refused { IfErr result IsOfWords }
{
    match request_in(rt, alloc, matches)? {
        Some(request) => Ok(request),
        None => Err(unread(alloc, matches)?),
    }
}

/// What is wrong with words that `clap` let through: a piece length, a part, `--null` alone, or the workers.
fn unread(alloc: Global, matches: &ArgMatches<'_>) -> Result<Fault, AllocError>
    ensures { IfOk result IsOfWords }
{
    if let Some(word) = unread_length(matches, "make") {
        return piece_length_fault(alloc, word, "tor make");
    }
    if let Some(word) = unread_length(matches, "plan") {
        return piece_length_fault(alloc, word, "tor plan");
    }
    if let Some(text) = unread_lot(matches) {
        return Fault::usage(alloc, text, "tor make");
    }
    if has_no_part(matches) {
        return Fault::usage(alloc, NO_PART, "tor recheck");
    }
    if has_null_alone(matches) {
        return Fault::usage(alloc, NULL_ALONE, "tor recheck");
    }
    if let Some(word) = workers_word(matches, "make") {
        return workers_fault(alloc, word, "tor make");
    }
    if let Some(word) = workers_word(matches, "recheck") {
        return workers_fault(alloc, word, "tor recheck");
    }
    Fault::usage(alloc, "no command", "tor")
}

/// The word for the piece length, if it asks for none.
fn unread_length<'a>(matches: &ArgMatches<'a>, command: &str) -> Option<&'a str> {
    let words = matches.subcommand_matches(command)?;
    match piece_length_in(words) {
        Some(_) => None,
        None => words.get_str("piece-length"),
    }
}

/// What is wrong with the words for a lot, but for its workers.
fn unread_lot(matches: &ArgMatches<'_>) -> Option<&'static str> {
    match lot_of(part_of(matches, "make")?) {
        Some(_) => streams_word(matches),
        None => Some(NO_PART),
    }
}

const NO_PART: &str =
    "the value for '--part <K/N>' is no part: K from 0 to N - 1, N at most 65536, as 0/16";

/// Whether the word for the part of a recheck is none.
fn has_no_part(matches: &ArgMatches<'_>) -> bool {
    match part_of(matches, "recheck") {
        Some(part) => lot_of(part).is_none(),
        None => false,
    }
}

const NULL_ALONE: &str =
    "the following required arguments were not provided: --bad, or --extra, beside '--null'";

/// Whether the paths of a recheck are to end with zero bytes, and none is asked for.
fn has_null_alone(matches: &ArgMatches<'_>) -> bool {
    match matches.subcommand_matches("recheck") {
        Some(recheck) => recheck.get_flag("null")
            && !recheck.get_flag("bad")
            && !recheck.get_flag("extra"),
        None => false,
    }
}

/// The word for a part.
fn part_of<'a>(matches: &ArgMatches<'a>, command: &str) -> Option<&'a str> {
    matches.subcommand_matches(command)?.get_str("part")
}

/// That no lot is hashed behind streams.
fn streams_word(matches: &ArgMatches<'_>) -> Option<&'static str> {
    match matches.subcommand_matches("make")?.get_str("how")? {
        "streams" => Some("'--how streams' does not go with '--plan <PLAN>'"),
        _ => None,
    }
}

fn workers_word<'a>(matches: &ArgMatches<'a>, command: &str) -> Option<&'a str> {
    matches.subcommand_matches(command)?.get_str("workers")
}

/// The request of the command that was found; none if `clap` let through words that are none.
fn request_in<'a, T: Threads>(
    rt: &T,
    alloc: Global,
    matches: &ArgMatches<'a>,
) -> Result<Option<Request<'a>>, AllocError>
    ensures { IfOk result (λ request. IfSome request (IsFoundIn matches.now)) }
{
    let Some(join) = matches.subcommand_matches("join") else {
        return Ok(request_of_others(rt, matches));
    };
    match join_options(alloc, join)? {
        Some(options) => Ok(Some(Request::Join(options))),
        None => Ok(None),
    }
}

/// The request of the command that was found, if it takes no list of words.
fn request_of_others<'a, T: Threads>(rt: &T, matches: &ArgMatches<'a>) -> Option<Request<'a>>
    ensures { IfSome result (IsFoundIn matches.now) }
{
    if let Some(make) = matches.subcommand_matches("make") {
        return request_to_make(rt, make, matches);
    }
    if let Some(plan) = matches.subcommand_matches("plan") {
        return Some(Request::Plan(plan_options(plan)?));
    }
    if let Some(edit) = matches.subcommand_matches("edit") {
        return Some(Request::Edit(edit_options(edit)?));
    }
    if let Some(scan) = matches.subcommand_matches("scan") {
        return Some(Request::Scan(scan_options(scan)?));
    }
    if let Some(check) = matches.subcommand_matches("check") {
        return Some(Request::Check(check_options(check)?));
    }
    if let Some(magnet) = matches.subcommand_matches("magnet") {
        return Some(Request::Magnet(magnet_options(magnet)?));
    }
    request_of_pieces(rt, matches)
}

/// The request of `make`: of a whole torrent, or of one lot if a plan is named.
fn request_to_make<'a, T: Threads>(
    rt: &T,
    make: &ArgMatches<'a>,
    matches: &ArgMatches<'a>,
) -> Option<Request<'a>>
    requires { subcommand_rows_of matches.now ≡ Some (codes "make", rows_of (found_of make.now)) }
    ensures { IfSome result (IsFoundIn matches.now) }
{
    match make.get_str("plan") {
        Some(_) => Some(Request::Lot(lot_options(rt, make)?)),
        None => Some(Request::Make(make_options(rt, make)?)),
    }
}

/// The request of the command over pieces that was found; none if `clap` let through words that are none.
fn request_of_pieces<'a, T: Threads>(rt: &T, matches: &ArgMatches<'a>) -> Option<Request<'a>>
    ensures { IfSome result (IsFoundIn matches.now) }
{
    if let Some(prove) = matches.subcommand_matches("prove") {
        return Some(Request::Prove(prove_options(prove)?));
    }
    if let Some(verify) = matches.subcommand_matches("verify") {
        return Some(Request::Verify(verify_options(verify)?));
    }
    if let Some(recheck) = matches.subcommand_matches("recheck") {
        return request_to_recheck(rt, recheck, matches);
    }
    None
}

/// The request of `recheck`: of a whole torrent, of one lot of its pieces, or of the files that it does not have.
fn request_to_recheck<'a, T: Threads>(
    rt: &T,
    recheck: &ArgMatches<'a>,
    matches: &ArgMatches<'a>,
) -> Option<Request<'a>>
    requires { subcommand_rows_of matches.now ≡ Some (codes "recheck", rows_of (found_of recheck.now)) }
    ensures { IfSome result (IsFoundIn matches.now) }
{
    match recheck.get_str("part") {
        Some(_) => Some(Request::RecheckLot(lot_recheck_options(rt, recheck)?)),
        None => request_of_whole(rt, recheck, matches),
    }
}

/// The request of `recheck`, of a whole torrent: its pieces, or the files that it does not have.
fn request_of_whole<'a, T: Threads>(
    rt: &T,
    recheck: &ArgMatches<'a>,
    matches: &ArgMatches<'a>,
) -> Option<Request<'a>>
    requires found { subcommand_rows_of matches.now ≡ Some (codes "recheck", rows_of (found_of recheck.now)) }
    requires whole { first_of (codes "part") (rows_of (found_of recheck.now)) ≡ None }
    ensures { IfSome result (IsFoundIn matches.now) }
{
    if recheck.get_flag("extra") {
        return Some(Request::Extra(extra_options(recheck)?));
    }
    Some(Request::Recheck(recheck_options(rt, recheck)?))
}

/// What is wrong with the words, said of them as they are printed. No word that `clap` knows has a byte that is
/// written out, so the same is wrong with the printed ones.
fn usage_fault(alloc: Global, words: &[&str]) -> Result<Fault, Fault>
    ensures named { IfOk result IsOfWords }
    ensures unnamed { IfErr result IsOfWords }
{
    let printed = printed_words(alloc, words)?;
    let error = tor_command(alloc)?.try_get_matches_from(&printed).err();
    match error {
        Some(error) if error.kind() == ErrorKind::OutOfMemory => Err(Fault::Resources),
        Some(error) => {
            let text = format!(in alloc; "{error}")?;
            Ok(Fault::usage(alloc, &text, command_of(words))?)
        }
        None => Ok(Fault::usage(alloc, "no command", "tor")?),
    }
}

fn printed_words(alloc: Global, words: &[&str]) -> Result<Vec<String>, AllocError> {
    let mut printed = Vec::with_capacity(alloc, words.len())?;
    for word in words {
        printed.push(escaped(alloc, word)?)?;
    }
    Ok(printed)
}

/// The command whose help is named.
fn command_of(words: &[&str]) -> &'static str {
    let Some(word) = words.get(1) else {
        return "tor";
    };
    'commands: for command in COMMANDS {
        if *word == command.0 {
            return command.1;
        }
    }
    "tor"
}

const COMMANDS: &[(&str, &str)] = &[
    ("make", "tor make"),
    ("plan", "tor plan"),
    ("join", "tor join"),
    ("edit", "tor edit"),
    ("scan", "tor scan"),
    ("check", "tor check"),
    ("magnet", "tor magnet"),
    ("prove", "tor prove"),
    ("verify", "tor verify"),
    ("recheck", "tor recheck"),
];
