//! Files of a real folder as no command asks for them: past their ends and past the last, twice, and read once and in
//! order beyond what ends it. What commands find there, and refuse, tests/looking.py has.
use crate::shared::paths_of;
use crate::source::memory::read;
use std::alloc::{AllocError, Global};
use std::io::{self, ErrorKind, Read};
use std::rt::Files;
use std::{env, fs, process};
use tor_source::{FolderSource, LazyFile, OtherKind, Refusal, Refused, ScanFault, Source, Survey};
use tor_tree::FilePath;

type Folder = FolderSource<HostRuntime>;

// A new folder below the system's folder for temporary files.
fn new_folder(rt: &HostRuntime) -> io::Result<String> {
    let id = process::id(rt.process());
    let temporary = env::temp_dir(rt)?;
    let place = format!(in rt.alloc(); "{}/tor_source-{id}", temporary.display())?;
    let _ = rt.remove_dir_all(rt.alloc(), &place);
    rt.create_dir(&place)?;
    Ok(place)
}

fn below(alloc: Global, folder: &str, name: &str) -> Result<String, AllocError> {
    format!(in alloc; "{folder}/{name}")
}

fn write(rt: &HostRuntime, folder: &str, name: &str, text: &str) -> io::Result<()> {
    fs::write(rt, below(rt.alloc(), folder, name)?.as_str(), text)
}

fn link(rt: &HostRuntime, folder: &str, name: &str, link: &str) -> io::Result<()> {
    rt.symlink(name, &below(rt.alloc(), folder, link)?)
}

fn write_each(rt: &HostRuntime, folder: &str, files: &[(&str, &str)]) -> io::Result<()> {
    for file in files {
        write(rt, folder, file.0, file.1)?;
    }
    Ok(())
}

// Makes a file `a` of six bytes, an empty file `b`, a file `c` of three bytes, a folder `d` with such a file, and links
// `l` to the first and `m` to the folder.
fn add_files(rt: &HostRuntime, folder: &str) -> io::Result<()> {
    write_each(rt, folder, &[("a", "abcdef"), ("b", ""), ("c", "xyz")])?;
    rt.create_dir(&below(rt.alloc(), folder, "d")?)?;
    write(rt, folder, "d/c", "xyz")?;
    link(rt, folder, "a", "l")?;
    link(rt, folder, "d", "m")
}

fn files_at(rt: &HostRuntime, folder: &str, texts: &[&str]) -> Result<Folder, AllocError> {
    FolderSource::at(rt, rt.alloc(), folder, paths_of(rt.alloc(), texts)?)
}

const FILES: &[&str] = &["a", "missing", "d", "a/c", "l"];

// Of the five files, and past them.
type Length = (u64, Option<u64>);

const LENGTHS: &[Length] = &[
    (0, Some(6)),
    (1, None),
    (2, None),
    (3, None),
    (4, Some(6)),
    (5, None),
];

/// File, start, room, and the bytes.
type Row = (u64, u64, usize, &'static [u8]);

const READS: &[Row] = &[
    (0, 0, 9, b"abcdef"),
    (0, 1, 3, b"bcd"),
    (0, 6, 3, b""),
    (0, u64::MAX, 3, b""),
    (1, 0, 3, b""),
    (2, 0, 3, b""),
    (3, 0, 3, b""),
    (4, 4, 3, b"ef"),
    (5, 0, 3, b""),
];

fn is_read<S: Source>(source: &S, row: &Row) -> bool {
    let mut buffer = [0; 9];
    let (buffer, _) = buffer.split_at_mut(row.2.min(9));
    match read(source, row.0, row.1, buffer) {
        Ok(bytes) => bytes == row.3,
        Err(_) => false,
    }
}

fn is_told<S: Source>(source: &S, row: &Length) -> bool {
    match source.length(row.0) {
        Ok(length) => length == row.1,
        Err(_) => false,
    }
}

fn are_told<S: Source>(source: &S) -> bool {
    for row in LENGTHS {
        if !is_told(source, row) {
            return false;
        }
    }
    true
}

fn are_all_read<S: Source>(source: &S) -> bool {
    for row in READS {
        if !is_read(source, row) {
            return false;
        }
    }
    true
}

fn are_read(rt: &HostRuntime, folder: &str) -> bool {
    match files_at(rt, folder, FILES) {
        Ok(source) => are_told(&source) && are_all_read(&source) && source.count() == 5,
        Err(_) => false,
    }
}

fn has_count(source: Result<Folder, AllocError>, count: usize) -> bool {
    match source {
        Ok(source) => source.count() == count,
        Err(_) => false,
    }
}

// Whether one file is counted, and one below the empty place.
fn are_counted(rt: &HostRuntime, folder: &str) -> bool {
    has_count(FolderSource::single(rt, rt.alloc(), folder), 1)
        && has_count(files_at(rt, "", &["proc"]), 1)
}

/// What a read of at most four bytes gives, or the kind of its fault.
type Given = Result<&'static [u8], ErrorKind>;

fn is_given<R: Read>(reader: &mut R, wanted: &Given) -> bool {
    let mut buffer = [0; 4];
    match (reader.read(&mut buffer), wanted) {
        (Ok(count), Ok(bytes)) => {
            let (front, _) = buffer.split_at(count.min(4));
            front == *bytes
        }
        (Err(fault), Err(kind)) => fault.kind() == *kind,
        _ => false,
    }
}

fn are_given<R: Read>(reader: &mut R, wanted: &[Given]) -> bool {
    for given in wanted {
        if !is_given(reader, given) {
            return false;
        }
    }
    true
}

/// Files that are read once.
const READ_ONCE: &[&str] = &["a", "b", "missing", "c", "d", "a/c"];

/// What each of them gives, one read after the other.
const OF_A: &[Given] = &[Ok(b"abcd"), Ok(b"ef"), Ok(b""), Ok(b"")];

const OF_B: &[Given] = &[Ok(b""), Ok(b"")];

const OF_MISSING: &[Given] = &[
    Err(ErrorKind::NotFound),
    Err(ErrorKind::Other),
    Err(ErrorKind::Other),
];

const OF_C: &[Given] = &[Ok(b"xyz"), Ok(b""), Ok(b"")];

const OF_D: &[Given] = &[Err(ErrorKind::InvalidInput), Err(ErrorKind::Other)];

const BELOW_A: &[Given] = &[Err(ErrorKind::NotADirectory), Err(ErrorKind::Other)];

fn readers_of(
    rt: &HostRuntime,
    folder: &str,
    texts: &[&str],
) -> Result<Vec<LazyFile<HostRuntime>>, AllocError> {
    files_at(rt, folder, texts)?.readers(rt.alloc())
}

fn is_each_given<R: Read>(readers: &mut [R]) -> bool {
    match readers {
        [a, b, missing, c, d, below_a] => {
            are_given(a, OF_A)
                && are_given(b, OF_B)
                && are_given(missing, OF_MISSING)
                && are_given(c, OF_C)
                && are_given(d, OF_D)
                && are_given(below_a, BELOW_A)
        }
        _ => false,
    }
}

fn are_readers_right(rt: &HostRuntime, folder: &str) -> bool {
    match readers_of(rt, folder, READ_ONCE) {
        Ok(mut readers) => is_each_given(&mut readers),
        Err(_) => false,
    }
}

// Whether a file gives this, and then that, though it has other bytes by then.
fn is_given_up(
    rt: &HostRuntime,
    place: (&str, &str),
    reader: &mut LazyFile<HostRuntime>,
    first: &[Given],
    then: &Given,
) -> bool {
    are_given(reader, first)
        && write(rt, place.0, place.1, "abcdef").is_ok()
        && is_given(reader, then)
}

const AT_END: &[Given] = &[Ok(b"ab"), Ok(b"")];

const AT_FAULT: &[Given] = &[Err(ErrorKind::NotFound)];

// Whether the two are, at an end and at a fault.
fn are_given_up(rt: &HostRuntime, folder: &str, readers: &mut [LazyFile<HostRuntime>]) -> bool {
    match readers {
        [p, q] => {
            is_given_up(rt, (folder, "p"), p, AT_END, &Ok(b""))
                && is_given_up(rt, (folder, "q"), q, AT_FAULT, &Err(ErrorKind::Other))
        }
        _ => false,
    }
}

// Whether a file is opened at the first read, and given up at its end, though it grows then; and at its first fault,
// though it is there then.
fn are_opened_once(rt: &HostRuntime, folder: &str) -> bool {
    match readers_of(rt, folder, &["p", "q"]) {
        Ok(mut readers) => {
            write(rt, folder, "p", "ab").is_ok() && are_given_up(rt, folder, &mut readers)
        }
        Err(_) => false,
    }
}

/// What is looked for: files that are there, twice in one folder; a link, a way through one, a folder; what is missing,
/// and a way through a file.
const NAMED: &[&str] = &["a", "d/c", "d/e", "l", "m/c", "d", "a/c", "n/c", "d/c"];

// Whether the last six but one are refused, each as it has to be.
fn are_refused(refused: &[Refused]) -> bool {
    match refused {
        [e, l, c, d, through, nowhere] => {
            matches!(e.refusal, Refusal::Missing)
                && matches!(l.refusal, Refusal::NotRegular(OtherKind::Link))
                && matches!(c.refusal, Refusal::NotRegular(OtherKind::Link))
                && matches!(d.refusal, Refusal::NotRegular(OtherKind::Folder))
                && matches!(through.refusal, Refusal::Missing)
                && matches!(nowhere.refusal, Refusal::Missing)
                && c.path.as_slice() == b"m/c".as_slice()
        }
        _ => false,
    }
}

// Whether files that are named are each found or refused.
fn is_survey(survey: &Survey<HostRuntime>) -> bool {
    survey.paths.len() == 3
        && survey.source.lengths() == [6, 3, 3].as_slice()
        && are_refused(&survey.refused)
}

fn are_paths_found(rt: &HostRuntime, folder: &str, paths: Vec<FilePath>) -> bool {
    match FolderSource::listed(rt, rt.alloc(), folder, paths) {
        Ok(survey) => is_survey(&survey),
        Err(_) => false,
    }
}

fn are_named_found(rt: &HostRuntime, folder: &str) -> bool {
    match paths_of(rt.alloc(), NAMED) {
        Ok(paths) => are_paths_found(rt, folder, paths),
        Err(_) => false,
    }
}

/// What is looked for while no link is followed: the third is a link, and the fourth behind one.
const LOOKED_FOR: &[&str] = &["a", "d/c", "l", "m/c", "d", "e", "a/c", "n/c", "b"];

fn unlinked(rt: &HostRuntime, folder: &str, texts: &[&str]) -> Result<Folder, AllocError> {
    let paths = paths_of(rt.alloc(), texts)?;
    FolderSource::at_without_links(rt, rt.alloc(), folder, paths)
}

// Whether just the third and the fourth file are behind a link, and none past the last.
fn are_behind_links(source: &Folder) -> bool {
    for file in 0..10 {
        if source.is_behind_link(file) != (file == 2 || file == 3) {
            return false;
        }
    }
    true
}

fn are_six_read<R: Read>(reader: &mut R) -> bool {
    let mut buffer = [0; 9];
    matches!(reader.read(&mut buffer), Ok(6))
}

fn is_fault_read<R: Read>(reader: &mut R) -> bool {
    let mut buffer = [0; 9];
    reader.read(&mut buffer).is_err()
}

// Whether the readers of a file that is there, and of one behind a link, give its bytes, and a fault.
fn are_given_without_links(rt: &HostRuntime, source: &Folder) -> bool {
    let Ok(mut readers) = source.readers(rt.alloc()) else {
        return false;
    };
    match readers.as_mut_slice() {
        [a, _, l, ..] => are_six_read(a) && is_fault_read(l),
        _ => false,
    }
}

fn are_met_without_links(rt: &HostRuntime, folder: &str) -> bool {
    match unlinked(rt, folder, LOOKED_FOR) {
        Ok(source) => are_behind_links(&source) && are_given_without_links(rt, &source),
        Err(_) => false,
    }
}

fn is_nothing_below(rt: &HostRuntime, file: &str) -> bool {
    match unlinked(rt, file, &["c"]) {
        Ok(source) => is_told(&source, &(0, None)),
        Err(_) => false,
    }
}

fn is_not_scanned(rt: &HostRuntime, file: &str) -> bool {
    match FolderSource::scan(rt, rt.alloc(), file) {
        Ok(_) => false,
        Err(fault) => matches!(fault, ScanFault::System),
    }
}

// Whether a file is no folder: nothing is below it, and it is not scanned.
fn is_no_folder(rt: &HostRuntime, folder: &str) -> bool {
    match below(rt.alloc(), folder, "a") {
        Ok(file) => is_nothing_below(rt, &file) && is_not_scanned(rt, &file),
        Err(_) => false,
    }
}

fn hold(rt: &HostRuntime, folder: &str) -> bool {
    add_files(rt, folder).is_ok()
        && are_read(rt, folder)
        && are_counted(rt, folder)
        && are_readers_right(rt, folder)
        && are_opened_once(rt, folder)
        && are_named_found(rt, folder)
        && are_met_without_links(rt, folder)
        && is_no_folder(rt, folder)
}

fn hold_in_new(rt: &HostRuntime) -> io::Result<bool> {
    let folder = new_folder(rt)?;
    let hold = hold(rt, &folder);
    rt.remove_dir_all(rt.alloc(), &folder)?;
    Ok(hold)
}

#[test]
fn reads_files_of_a_new_folder(rt: HostRuntime) {
    assert!(rt; matches!(hold_in_new(&rt), Ok(true)));
}
