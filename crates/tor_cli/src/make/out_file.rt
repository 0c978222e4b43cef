//! A torrent on its way out: to standard output, or into the file that the words name.
ghost use Rattle.std.specs.Prelude.{◌≡◌, ◌⊎◌, ◌≤◌, ◌<◌, IfErr, IsSome, OnOk, length, option_map};
ghost use Rattle.tor_cli.specs.make.Request.{Sends, SendsFront};
ghost use Rattle.tor_cli.specs.declared.fault.Fault.TheVariants.{OutAmongFiles, Resources, Scan};
ghost use Rattle.tor_cli.specs.declared.fault.Fault.TheVariants.{Write as OutFault};
ghost use Rattle.tor_source.specs.declared.faults.ScanFault.TheVariants.{System};

use crate::fault::Fault;
use crate::out_before::{OutBefore, exchanged};
use crate::unwritten::Unwritten;
use std::fs::{File, OpenFile, OpenOptions};
use std::io::{self, ErrorKind, Write};
use std::rt::Files;
use tor_source::{FileNumber, FolderSource};
use tor_spec::{WriteFault, write_out};

/// Makes or empties the file `place`, at which this stood before, writes the bytes into it, and has the system keep
/// them. If a write stops, what went into it stays there.
pub fn write_file(
    system: &HostRuntime,
    place: &str,
    before: &OutBefore,
    bytes: &[u8],
) -> Result<(), WriteFault>
    ensures within { IfErr result (λ fault. fault.written ≤ length bytes.now) }
    ensures part { 0 < length bytes.now → IfErr result (λ fault. fault.written < length bytes.now) }
{
    let mut file = match before.open(system, place) {
        Ok(file) => file,
        Err(fault) => return Err(before_all(fault)),
    };
    match write_out(&mut file, bytes) {
        Ok(()) => kept(system, place, file, bytes.len()),
        Err(fault) => Err(fault),
    }
}

/// That no byte is known to be there, for this reason.
pub(crate) fn before_all(fault: io::Error) -> WriteFault
    ensures { result.written ≡ 0 }
{
    WriteFault {
        written: 0,
        fault: Some(fault),
    }
}

/// That so many bytes were written into a file, once the system keeps them at its place.
fn kept(system: &HostRuntime, place: &str, file: File, length: usize) -> Result<(), WriteFault>
    ensures { IfErr result (λ fault. fault.written ≡ 0) }
{
    match keep(system, place, file, length) {
        Ok(()) => Ok(()),
        Err(fault) => Err(before_all(fault)),
    }
}

/// Has the system keep what was written into a file, and closes it: it has to be at this place still, and have so many
/// bytes. A file system may refuse them as late as that, and no call reports how closing ended. What is no regular file
/// is left as it is.
pub(crate) fn keep(system: &HostRuntime, place: &str, file: File, length: usize) -> io::Result<()> {
    let written = file.metadata()?;
    if !written.is_file() {
        return Ok(());
    }
    sync(&file)?;
    drop(file);
    let there = system.metadata(place)?;
    if !FileNumber::of(&written).is(FileNumber::of(&there)) {
        return Err(exchanged());
    }
    if there.len() != length as u64 {
        return Err(io::Error::other("the file has not all bytes once it is closed"));
    }
    Ok(())
}

/// Has the system keep what was written into a file, if its file system can be asked to.
fn sync(file: &File) -> io::Result<()> {
    match file.sync_all() {
        Err(fault) if is_without_sync(fault.kind()) => Ok(()),
        synced => synced,
    }
}

/// Whether a fault of this kind says that a file system does not take this question.
fn is_without_sync(kind: ErrorKind) -> bool {
    matches!(kind, ErrorKind::InvalidInput | ErrorKind::Unsupported)
}

/// Writes a torrent into the file `place`, at which this stood before, or to `out` if there is none.
pub fn send<W: Write>(
    system: &HostRuntime,
    out: &mut W,
    place: Option<&str>,
    before: &OutBefore,
    torrent: &[u8],
) -> Result<(), WriteFault>
    ensures whole { OnOk result (Sends (option_map (λ name. name.now) place.entry)
        (W.contents out.old) (W.contents out.new) torrent.now) }
    ensures part { 0 < length torrent.now → IfErr result
        (λ fault. SendsFront (option_map (λ name. name.now) place.entry)
        (W.contents out.old) (W.contents out.new) fault.written torrent.now) }
{
    match place {
        None => write_out(out, torrent),
        Some(place) => write_file(system, place, before, torrent),
    }
}

/// Refuses a file `place` that is one of those that a torrent is to be made of, under whatever name: the torrent would
/// take its place. If the system tells nothing of `place`, no file is there that could be lost; of each of the others
/// it must tell.
pub fn refuse_out_among_files(
    system: &HostRuntime,
    place: Option<&str>,
    source: &FolderSource<HostRuntime>,
) -> Result<(), Fault>
    ensures { IfErr result (λ fault. (fault ≡ Resources)
        ⊎ (((fault ≡ Scan System) ⊎ (fault ≡ OutAmongFiles)) × IsSome (option_map (λ name. name.now) place.entry))) }
{
    let Some(place) = place else {
        return Ok(());
    };
    match system.metadata(place) {
        Ok(file) if file.is_file() && source.has(&file)? => Err(Fault::OutAmongFiles),
        Err(fault) if matches!(fault.kind(), ErrorKind::OutOfMemory) => Err(Fault::Resources),
        _ => Ok(()),
    }
}

/// Refuses a file `place` that cannot be written, before there is anything to write. What stands there stays as it is:
/// a file is opened and not emptied. If none is there, none is made: another one beside it is, and is removed.
pub fn refuse_unwritable(system: &HostRuntime, place: Option<&str>) -> Result<(), Fault>
    ensures { IfErr result
        (λ fault. (fault ≡ OutFault 0) × IsSome (option_map (λ name. name.now) place.entry)) }
{
    match place {
        Some(place) => match try_writing(system, place) {
            Ok(()) => Ok(()),
            Err(reason) => Err(Fault::Write(Unwritten::before_all(reason))),
        },
        None => Ok(()),
    }
}

/// Tries whether the file can be written. Of what is neither file nor folder, such as a FIFO, opening it tells.
fn try_writing(system: &HostRuntime, place: &str) -> io::Result<()> {
    let Ok(found) = system.metadata(place) else {
        return try_making(system, place);
    };
    if found.is_dir() {
        return Err(io::Error::from(ErrorKind::IsADirectory));
    }
    if found.is_file() {
        OpenOptions::new().write(true).open(system, place)?;
    }
    Ok(())
}

/// Tries whether a file can be made here, as one beside it can. A link to nothing is not tried; and if only the one
/// beside cannot be made, since its name is longer, opening the file tells later.
fn try_making(system: &HostRuntime, place: &str) -> io::Result<()> {
    let Ok(beside) = format!(in system.alloc(); "{place}.unmade") else {
        return Ok(());
    };
    if system.symlink_metadata(place).is_ok() {
        return Ok(());
    }
    match File::create_new(system, beside.as_str()) {
        Ok(_) => {
            let _ = system.remove_file(beside.as_str());
            Ok(())
        }
        Err(fault) if is_for_any_file(fault.kind()) => Err(fault),
        Err(_) => Ok(()),
    }
}

/// Whether a fault that keeps one file from being made keeps every file from it that stands beside.
fn is_for_any_file(kind: ErrorKind) -> bool {
    matches!(
        kind,
        ErrorKind::NotFound
            | ErrorKind::NotADirectory
            | ErrorKind::PermissionDenied
            | ErrorKind::ReadOnlyFilesystem
    )
}
