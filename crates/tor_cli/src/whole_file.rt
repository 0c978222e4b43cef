//! A file that appears whole or not at all.
ghost use Rattle.std.specs.Prelude.{◌≡◌, ◌⊎◌, ◌<◌, IfErr, IfOk, IsSome, OnOk, length, option_map, string_bytes};
ghost use Rattle.tor_cli.specs.declared.fault.Fault.TheVariants.{Resources};
ghost use Rattle.tor_cli.specs.declared.fault.Fault.TheVariants.{Write as OutFault};
ghost use Rattle.tor_cli.specs.steps.WholeFiles.{IsNotSent, place_of_whole};
ghost use Rattle.tor_cli.specs.make.Request.{Sends, SendsFront};

use crate::fault::Fault;
use crate::foreign::read_file;
use crate::make::out_file::{before_all, keep, write_file};
use crate::out_before::OutBefore;
use crate::unwritten::Unwritten;
use std::alloc::{AllocError, Global};
use std::fs::{self, File};
use std::io::{self, ErrorKind, Write};
use std::rt::Files;
use tor_spec::{WriteFault, write_out};

/// Writes the bytes into the file `place`, at which this stood before, and which appears whole or not at all; or to
/// `out` if there is none.
pub fn send_whole<W: Write>(
    system: &HostRuntime,
    out: &mut W,
    place: Option<&str>,
    before: &OutBefore,
    bytes: &[u8],
) -> Result<(), Fault>
    ensures whole { OnOk result (Sends (option_map (λ name. name.now) place.entry)
        (W.contents out.old) (W.contents out.new) bytes.now) }
    ensures part { 0 < length bytes.now → IfErr result (IsNotSent (option_map (λ name. name.now) place.entry)
        (W.contents out.old) (W.contents out.new) bytes.now) }
{
    let file = whole_file(system, place, before)?;
    Ok(send_into(system, out, &file, bytes)?)
}

/// A file, what stood there before, and the beginning of the name of the one beside it that is written first. There is
/// none for what was no file, as a link, a FIFO or a device: bytes go into it as they are written.
#[derive(Drop)]
struct WholeFile {
    place: String,
    before: OutBefore,
    beside: Option<String>,
}

/// The file that the bytes are to go to, at which this stood before; none if they go to standard output.
fn whole_file(
    system: &HostRuntime,
    place: Option<&str>,
    before: &OutBefore,
) -> Result<Option<WholeFile>, AllocError>
    ensures { IfOk result (λ file. option_map place_of_whole file ≡ option_map (λ name. name.now) place.entry) }
{
    match place {
        Some(place) => Ok(Some(WholeFile {
            place: String::from_str(system.alloc(), place)?,
            before: *before,
            beside: beside_of(system, place, before)?,
        })),
        None => Ok(None),
    }
}

/// Refuses a file that could not appear, before there is anything to write: another one beside it is made, and removed.
pub fn refuse_unmakeable(system: &HostRuntime, place: Option<&str>) -> Result<(), Fault>
    ensures { IfErr result (λ fault. (fault ≡ Resources)
        ⊎ ((fault ≡ OutFault 0) × IsSome (option_map (λ name. name.now) place.entry))) }
{
    let Some(place) = place else {
        return Ok(());
    };
    let before = OutBefore::at(system, Some(place));
    let Some(beside) = beside_of(system, place, &before)? else {
        return Ok(());
    };
    match new_file(system, &beside) {
        Ok((name, _)) => {
            let _ = system.remove_file(name.as_str());
            Ok(())
        }
        Err(reason) => Err(Fault::Write(Unwritten::before_all(reason))),
    }
}

/// The beginning of the name of the file that is written first: it has the names of this host and this process. None if
/// what stood at the place was no file, or a link: it is not to be replaced.
fn beside_of(
    system: &HostRuntime,
    place: &str,
    before: &OutBefore,
) -> Result<Option<String>, AllocError> {
    if !before.is_replaceable() {
        return Ok(None);
    }
    let host = host_name(system)?;
    let process = process_name(system)?;
    Ok(Some(format!(in system.alloc(); "{place}.{host}.{process}")?))
}

/// The name of this host, as the system tells it.
fn host_name(system: &HostRuntime) -> Result<String, AllocError> {
    let alloc = system.alloc();
    match read_file(alloc, system, "/proc/sys/kernel/hostname") {
        Ok(bytes) => match std::str::from_utf8(&bytes) {
            Ok(name) => String::from_str(alloc, name.trim()),
            Err(_) => String::from_str(alloc, "host"),
        },
        Err(_) => String::from_str(alloc, "host"),
    }
}

/// The number of this process, as the system tells it.
fn process_name(system: &HostRuntime) -> Result<String, AllocError> {
    let alloc = system.alloc();
    match system.read_link(alloc, "/proc/self") {
        Ok(path) => match path.as_path().to_str() {
            Some(name) => String::from_str(alloc, name),
            None => String::from_str(alloc, "process"),
        },
        Err(_) => String::from_str(alloc, "process"),
    }
}

/// Writes the bytes into the file, or to `out` if there is none.
fn send_into<W: Write>(
    system: &HostRuntime,
    out: &mut W,
    file: &Option<WholeFile>,
    bytes: &[u8],
) -> Result<(), WriteFault>
    ensures whole { OnOk result (Sends (option_map place_of_whole file.now)
        (W.contents out.old) (W.contents out.new) bytes.now) }
    ensures part { 0 < length bytes.now → IfErr result (λ fault. SendsFront (option_map place_of_whole file.now)
        (W.contents out.old) (W.contents out.new) fault.written bytes.now) }
{
    match file {
        None => write_out(out, bytes),
        Some(file) => write_whole(system, file, bytes),
    }
}

/// Writes the bytes into the file. If that fails none of them is there.
fn write_whole(system: &HostRuntime, file: &WholeFile, bytes: &[u8]) -> Result<(), WriteFault>
    ensures { IfErr result (λ fault. 0 < length bytes.now → fault.written < length bytes.now) }
{
    let Some(beside) = &file.beside else {
        return write_file(system, &file.place, &file.before, bytes);
    };
    match write_and_rename(system, beside, &file.place, bytes) {
        Ok(()) => Ok(()),
        Err(fault) => Err(before_all(fault)),
    }
}

fn write_and_rename(
    system: &HostRuntime,
    beside: &str,
    place: &str,
    bytes: &[u8],
) -> io::Result<()> {
    let (unfinished, file) = new_file(system, beside)?;
    match fill_and_rename(system, file, &unfinished, place, bytes) {
        Ok(()) => Ok(()),
        Err(fault) => {
            let _ = system.remove_file(unfinished.as_str());
            Err(fault)
        }
    }
}

/// A new file, and its name, of which no other process has one: two with one name for their host and one number, as in
/// containers, and one that was killed, leave theirs as they are.
fn new_file(system: &HostRuntime, beside: &str) -> io::Result<(String, File)> {
    'numbers: for number in 0..MAX_UNFINISHED {
        let name = unfinished_name(system, beside, number)?;
        match File::create_new(system, name.as_str()) {
            Ok(file) => return Ok((name, file)),
            Err(fault) if fault.kind() == ErrorKind::AlreadyExists => {}
            Err(fault) => return Err(fault),
        }
    }
    Err(io::Error::from(ErrorKind::AlreadyExists))
}

const MAX_UNFINISHED: u32 = 1000;

fn unfinished_name(system: &HostRuntime, beside: &str, number: u32) -> Result<String, AllocError> {
    let alloc = system.alloc();
    if number == 0 {
        return format!(in alloc; "{beside}.unfinished");
    }
    format!(in alloc; "{beside}.{number}.unfinished")
}

/// Writes the bytes into the new file, which takes the place, and the rights, of the old one.
fn fill_and_rename(
    system: &HostRuntime,
    file: File,
    unfinished: &str,
    place: &str,
    bytes: &[u8],
) -> io::Result<()> {
    let mut file = file;
    match system.symlink_metadata(place) {
        Ok(old) if old.is_file() => file.set_permissions(old.permissions())?,
        _ => {}
    }
    file.write_all(bytes)?;
    keep(system, unfinished, file, bytes.len())?;
    system.rename(unfinished, place)?;
    sync_folder_of(system, place)
}

/// Has the system keep the new name, if it can: some file systems sync no folder.
fn sync_folder_of(system: &HostRuntime, place: &str) -> io::Result<()> {
    let folder = match place.rsplit_once('/') {
        Some(("", _)) => "/",
        Some((folder, _)) => folder,
        None => ".",
    };
    if let Ok(opened) = fs::open(system, folder) {
        let _ = opened.sync_all();
    }
    Ok(())
}
