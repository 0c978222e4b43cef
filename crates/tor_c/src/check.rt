//! What a torrent describes, as JSON.
ghost use Rattle.std.specs.Prelude.{◌≡◌, ◌≤◌, ◌++◌, drop, length, IfErr, IfSome, OnErr, OnOk};
ghost use Rattle.tor_c.specs.Reports.{IsNotRefused, IsReportOf, check_text};
ghost use Rattle.tor_c.specs.steps.Told.{IsObjectReport, object_of};
ghost use Rattle.tor_report.specs.Reports.{IsReportStopped};
ghost use Rattle.tor_spec.specs.valid.Conditions.{IsValid};

use crate::outcome::PloverOutcome;
use crate::report::report;
use crate::sinks::{CallerRoom, Count};
use crate::{ACCEPTED, NO_ROOM};
use std::alloc::{AllocError, Global};
use tor_bencode::ItemRef;
use tor_check::Refusal;
use tor_report::{Judged, ReportFault, Sink, send_object, torrent_tree, torrent_with_hashes};

/// Judges the bytes of a torrent, and writes what it describes into `room`: the object that `tor check --json` prints,
/// in UTF-8, without a line feed. If it is longer than the room, nothing is written, and the outcome tells how much is
/// wanted. If the bytes are no torrent the answer is the number of the refusal.
#[unsafe(no_mangle)]
pub extern "C" fn plover_check(
    alloc: Global,
    torrent: &[u8],
    room: &mut [u8],
    outcome: &mut PloverOutcome,
) -> u32
    ensures told { IsReportOf check_text torrent.now room.old room.new outcome.new result }
    ensures only { IsValid torrent.now → IsNotRefused result }
{
    match torrent_with_hashes(alloc, torrent) {
        Ok(judged) => match torrent_tree(alloc, torrent) {
            Ok(root) => report_object(alloc, &root, &judged, room, outcome),
            Err(AllocError) => report(Err(Refusal::Memory), room, outcome),
        },
        Err(refusal) => report(Err(refusal), room, outcome),
    }
}

/// Tells the object of a torrent: its length first, and then, if there is room for it, its text. None of it is held.
fn report_object(
    alloc: Global,
    root: &ItemRef<'_>,
    judged: &Judged,
    room: &mut [u8],
    outcome: &mut PloverOutcome,
) -> u32
    ensures { IsObjectReport (object_of root.now judged.now) room.old room.new outcome.new result }
{
    let Some(length) = object_length(alloc, root, judged) else {
        return report(Err(Refusal::Memory), room, outcome);
    };
    if length > room.len() {
        *outcome = PloverOutcome::of_text(length);
        return NO_ROOM;
    }
    match write_object(alloc, root, judged, room) {
        Ok(()) => {
            *outcome = PloverOutcome::of_text(length);
            ACCEPTED
        }
        Err(_) => report(Err(Refusal::Memory), room, outcome),
    }
}

/// How many bytes the object of a torrent has; none if memory was refused, or if they are too many to count.
fn object_length(alloc: Global, root: &ItemRef<'_>, judged: &Judged) -> Option<usize>
    ensures { IfSome result (λ count. count ≡ length (object_of root.now judged.now)) }
{
    let mut count = Count { bytes: 0 };
    match send_judged(alloc, &mut count, root, judged) {
        Ok(()) => Some(count.bytes),
        Err(_) => None,
    }
}

/// Writes the object of a torrent in front of the room, which it fits into.
fn write_object(
    alloc: Global,
    root: &ItemRef<'_>,
    judged: &Judged,
    room: &mut [u8],
) -> Result<(), AllocError>
    requires { length (object_of root.now judged.now) ≤ length room.old }
    ensures written { OnOk result
        (room.new ≡ object_of root.now judged.now ++ drop (length (object_of root.now judged.now)) room.old) }
    ensures unchanged { OnErr result (room.new ≡ room.old) }
{
    let mut out = CallerRoom { room, filled: 0 };
    match send_judged(alloc, &mut out, root, judged) {
        Ok(()) => Ok(()),
        Err(ReportFault::Memory) => Err(AllocError),
        Err(ReportFault::Write(_)) => unreachable!(),
    }
}

/// Sends the object of a torrent.
#[tactic(auto, unfolding(crate::specs::steps::Told::object_of))]
fn send_judged<S: Sink>(
    alloc: Global,
    out: &mut S,
    root: &ItemRef<'_>,
    judged: &Judged,
) -> Result<(), ReportFault>
    ensures sent { OnOk result (S.took out.old out.new (object_of root.now judged.now)) }
    ensures stopped { IfErr result (IsReportStopped S.took S.fails (object_of root.now judged.now) out.old out.new) }
{
    send_object(alloc, out, root, &judged.torrent, &judged.hashes)
}
