//! `tor recheck --part K/N`: which pieces of one lot of a torrent are there and right.
ghost use Rattle.std.specs.Prelude.{◌≡◌, ◌+◌, ◌<◌, ◌^◌, if◌then◌else◌, ℕ, List, Option, IfErr, IfOk, length, string_bytes};
ghost use Rattle.serde_json.specs.Data.{object};
ghost use Rattle.serde_json.specs.View.{view};
ghost use Rattle.tor_cli.specs.recheck.LotRecheck.{DoesLotRecheck, IsFaultOfLot, IsLotRechecked, StopsLotRecheck};
ghost use Rattle.tor_cli.specs.recheck.LotRecheck.{lot_members, lot_text};
ghost use Rattle.tor_cli.specs.recheck.Recheck.{IsNotRechecked, recheck_answer};
ghost use Rattle.tor_cli.specs.declared.recheck.source.Links.TheVariants.{Followed, RefusedOfLot};
ghost use Rattle.tor_cli.specs.steps.Places.{ArePlaced};
ghost use Rattle.tor_cli.specs.steps.Writing.{writing};
ghost use Rattle.tor_report.specs.Told.{Describes};

use crate::answer::Answer;
use crate::fault::Fault;
use crate::foreign::read_file;
use crate::progress::{Counting, Progress, erase};
use crate::recheck::counts::counts_of;
use crate::recheck::listing::Form;
use crate::recheck::lot_words::LotRecheckOptions;
use crate::recheck::record::bits_value;
use crate::recheck::source::{Links, PlacedTorrent, placed_at};
use crate::recheck::text::{answer_of, counts_text, text_of};
use crate::text::json_line::line_of;
use crate::workers::board_of;
use serde_json::{Value, json};
use std::alloc::{AllocError, Global};
use std::io::Write;
use std::thread::Threads;
use tor_recheck::{pieces_of_lot, recheck_lot};
use tor_spec::write_out;
use tor_view::Bits;

/// Writes which pieces of the lot are there and right; the answer is yes if all are. Nothing is looked for, nor
/// written, before the torrent was judged, and of the files those alone are that have bytes in these pieces.
pub fn recheck_part<T: Threads + Sync, W: Write>(
    rt: &T,
    system: &HostRuntime,
    options: &LotRecheckOptions<'_>,
    out: &mut W,
    shows_progress: bool,
) -> Result<Answer, Fault>
    ensures answered { (reader : Option (List ℕ)) → IfOk result (λ answer. DoesLotRecheck options.now answer
        (writing reader (W.contents out.old) (W.contents out.new))) }
    ensures stopped { (reader : Option (List ℕ)) → IfErr result (StopsLotRecheck options.now (writing reader
        (W.contents out.old) (W.contents out.new))) }
{
    let bytes = read_file(system.alloc(), system, options.torrent)?;
    let report = report_at(rt, system, &bytes, options, shows_progress)?;
    write_out(out, report.text.as_bytes())?;
    Ok(report.answer)
}

/// What is printed of a lot.
#[derive(Drop)]
struct LotReport {
    text: String,
    /// Whether all its pieces are there and right.
    answer: Answer,
}

/// What is printed of the lot of the torrent that the bytes are, by what the system has at the place.
fn report_at<T: Threads + Sync>(
    rt: &T,
    system: &HostRuntime,
    bytes: &[u8],
    options: &LotRecheckOptions<'_>,
    shows_progress: bool,
) -> Result<LotReport, Fault>
    ensures rechecked { IfOk result
        (λ report. IsLotRechecked options.now bytes.now (string_bytes report.text) report.answer) }
    ensures stopped { IfErr result (IsNotRechecked options.now.workers bytes.now) }
    ensures of_lot { IfErr result (IsFaultOfLot options.now.lot bytes.now) }
{
    let placed = match placed_at(system, options.place, bytes, links_of_lot(options)) {
        Ok(placed) => placed,
        Err(fault) => return Err(fault),
    };
    report_on(rt, system, bytes, &placed, options, shows_progress)
}

/// What is printed of the lot of this torrent, by what is at the places of its files.
fn report_on<T: Threads + Sync>(
    rt: &T,
    system: &HostRuntime,
    bytes: &[u8],
    placed: &PlacedTorrent,
    options: &LotRecheckOptions<'_>,
    shows_progress: bool,
) -> Result<LotReport, Fault>
    requires told { Describes bytes.now placed.now.judged.torrent placed.now.judged.hashes }
    requires placed { ArePlaced options.now.place.now placed.now.judged.torrent placed.now.source }
    ensures rechecked { IfOk result
        (λ report. IsLotRechecked options.now bytes.now (string_bytes report.text) report.answer) }
    ensures stopped { IfErr result (IsNotRechecked options.now.workers bytes.now) }
    ensures of_lot { IfErr result (IsFaultOfLot options.now.lot bytes.now) }
{
    let torrent = &placed.judged.torrent;
    let alloc = system.alloc();
    let progress = Progress::shown(system, torrent.files().len(), shows_progress);
    let counting = Counting {
        source: &placed.source,
        files: torrent.files(),
        progress: &progress,
    };
    let lot = options.lot;
    let how = board_of(options.workers);
    let rechecked = recheck_lot(rt, alloc, &counting, torrent, lot.lots, lot.number, how);
    erase(&progress);
    match rechecked {
        Ok(bits) => {
            let (from, _) = pieces_of_lot(torrent, lot.lots, lot.number);
            Ok(report_of(alloc, options.form, from, &bits)?)
        }
        Err(error) => Err(Fault::from(error)),
    }
}

/// Which links are followed, as the words say.
fn links_of_lot(options: &LotRecheckOptions<'_>) -> Links
    ensures { result ≡ (if options.now.follows_links then Followed else RefusedOfLot options.now.lot) }
{
    if options.follows_links {
        Links::Followed
    } else {
        Links::RefusedOfLot(options.lot)
    }
}

/// What is printed of the bits of a lot whose first piece this is.
fn report_of(alloc: Global, form: Form, from: u64, bits: &Bits) -> Result<LotReport, AllocError>
    requires { from + length bits.now < 2 ^ 64 }
    ensures printed { IfOk result (λ report. string_bytes report.text ≡ lot_text form from bits.now) }
    ensures answered { IfOk result (λ report. report.answer ≡ recheck_answer bits.now) }
{
    let text = match form {
        Form::Text => text_of(alloc, bits)?,
        Form::Brief => counts_text(alloc, bits)?,
        Form::Json => line_of(alloc, &lot_value(alloc, from, bits)?)?,
    };
    Ok(LotReport {
        text,
        answer: answer_of(bits),
    })
}

fn lot_value(alloc: Global, from: u64, bits: &Bits) -> Result<Value, AllocError>
    requires { from + length bits.now < 2 ^ 64 }
    ensures { IfOk result (λ value. view value ≡ object (lot_members from bits.now)) }
{
    let counts = counts_of(bits);
    let good = counts.good;
    let pieces = counts.pieces;
    let to = from + pieces;
    json!(in alloc; {
        "bits": bits_value(alloc, bits)?,
        "from": from,
        "good": good,
        "pieces": pieces,
        "to": to
    })
}
