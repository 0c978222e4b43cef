//! `tor scan`: its doing.
ghost use Rattle.std.specs.Io.KnownBytes.{Appends};
ghost use Rattle.std.specs.Prelude.{◌≡◌, IfErr, IfOk, OnOk, length};
ghost use Rattle.tor_cli.specs.scan.Scanning.{DoesScan, IsAnswerOf, StopsScanning};
ghost use Rattle.tor_cli.specs.scan.ScanText.{scan_text};
ghost use Rattle.tor_cli.specs.Streams.{streams};
ghost use Rattle.tor_report.specs.Put.{Puts, Stops};
ghost use Rattle.tor_report.specs.Reports.{IsCutShort};

use crate::answer::Answer;
use crate::fault::Fault;
use crate::make::chosen_files::chosen_files;
use crate::scan::inventory::{Inventory, inventory_of};
use crate::scan::lines::{put_lines, put_paths};
use crate::scan::record::put_record;
use crate::scan::words::{ScanForm, ScanOptions};
use std::alloc::Global;
use std::io::{Read, Write};
use tor_report::{Buffer, ReportFault, Sink};
use tor_spec::WriteFault;

/// Writes which files at a place can be taken, and what is refused; the answer is yes if nothing is. No file is read.
pub fn scan<R: Read, W: Write>(
    system: &HostRuntime,
    options: &ScanOptions<'_>,
    reader: &mut R,
    out: &mut W,
) -> Result<Answer, Fault>
    ensures answered { IfOk result (λ answer. DoesScan options.now answer
        (streams (R.remaining reader.old) (R.remaining reader.new) (W.contents out.old) (W.contents out.new))) }
    ensures stopped { IfErr result (StopsScanning options.now
        (streams (R.remaining reader.old) (R.remaining reader.new) (W.contents out.old) (W.contents out.new))) }
{
    let alloc = system.alloc();
    let chosen = chosen_files(alloc, system, options.list, reader)?;
    let found = inventory_of(system, options.place, chosen)?;
    write_scan(alloc, out, options.form, &found)?;
    Ok(answer_of(&found))
}

/// Writes what is printed of an inventory, as it is made. All memory for it is taken before the first byte goes out:
/// 64 KiB.
fn write_scan<W: Write>(
    alloc: Global,
    out: &mut W,
    form: ScanForm,
    found: &Inventory,
) -> Result<(), ReportFault>
    requires { length found.now.lengths.items ≡ length found.now.paths.items }
    ensures printed { OnOk result
        (Appends (W.contents out.old) (W.contents out.new) (scan_text form found.now)) }
    ensures stopped { IfErr result
        (IsCutShort (scan_text form found.now) (W.contents out.old) (W.contents out.new)) }
{
    let mut buffer = Buffer::new(alloc)?;
    put_scan(&mut buffer, out, form, found)?;
    buffer.end(out)?;
    Ok(())
}

fn put_scan<S: Sink>(
    buffer: &mut Buffer,
    out: &mut S,
    form: ScanForm,
    found: &Inventory,
) -> Result<(), WriteFault>
    requires { length found.now.lengths.items ≡ length found.now.paths.items }
    ensures put { OnOk result (Puts S.took (scan_text form found.now) out.old buffer.old out.new buffer.new) }
    ensures stopped { IfErr result (λ fault. Stops S.took S.fails (scan_text form found.now)
        out.old buffer.old out.new fault.written) }
{
    match form {
        ScanForm::Lines => put_lines(buffer, out, found),
        ScanForm::Paths => put_paths(buffer, out, &found.paths),
        ScanForm::Record => put_record(buffer, out, found),
    }
}

fn answer_of(found: &Inventory) -> Answer
    ensures { IsAnswerOf found.now result }
{
    if found.refused.is_empty() {
        Answer::Yes
    } else {
        Answer::No
    }
}
