//! From a file or a folder of the system to the torrent of it.
ghost use Rattle.std.specs.Prelude.{◌≡◌, ◌<◌, ◌≤◌, IfErr, IfOk, IfSome, List, Option, Some, ℕ, false, length, map};
ghost use Rattle.std.specs.Prelude.{option_map, true, vec_len};
ghost use Rattle.std.specs.List.{All};
ghost use Rattle.std.specs.List.Sorted.{IsStrictlySortedBy};
ghost use Rattle.tor_meta.specs.Make.{IsGivenTo, make_refusal};
ghost use Rattle.tor_meta.specs.MakeStreams.{stream_refusal};
ghost use Rattle.tor_source.specs.Answers.{system_answers};
ghost use Rattle.tor_cli.specs.make.Attrs.{HaveLetters};
ghost use Rattle.tor_cli.specs.Place.{AreFilesAt, AreFound, IsGivenBy, IsStreamFault};
ghost use Rattle.tor_cli.specs.Place.{IsNotFound, refusal_by};
ghost use Rattle.tor_tree.specs.FileList.{paths_of};
ghost use Rattle.tor_tree.specs.Path.{path_cmp};
ghost use Rattle.tor_cli.specs.make.Request.{IsMadeOfFound};

use crate::fault::Fault;
use crate::make::attrs_file::lettered_files;
use crate::make::path_text::path_in;
use crate::make::way::Way;
use crate::progress::{CountedReader, Counting, Progress, erase};
use std::alloc::{AllocError, Global};
use std::io;
use std::rt::Files;
use std::sync::Wait;
use std::thread::Threads;
use tor_engine::EngineError;
use tor_meta::{MakeError, Order, make_streams_with, make_with};
use tor_source::{FolderSource, LazyFile, Refusal, Refused, ScanFault};
use tor_tree::{Attr, FilePath, Name, NameError};

/// The files at a place: file i of the source has the i-th path, and its letters.
#[derive(Drop)]
pub struct LetteredFiles {
    pub source: FolderSource<HostRuntime>,
    pub files: Vec<(FilePath, Attr)>,
    /// It is one file, and not a folder's.
    pub single: bool,
}

/// The files at a place, before their letters are known: file i of the source has the i-th path.
#[derive(Drop)]
struct UnletteredFiles {
    source: FolderSource<HostRuntime>,
    paths: Vec<FilePath>,
    single: bool,
}

/// The file at a place, which gets the torrent's name, or the files below the folder there: all of them, or those that
/// are chosen, whose paths rise. A link at the place itself is followed, and none below it. The letters are those that
/// the file `attrs` has, if one is named.
pub fn files_at(
    system: &HostRuntime,
    place: &str,
    chosen: Option<Vec<FilePath>>,
    attrs: Option<&str>,
    name: &Name,
) -> Result<LetteredFiles, Fault>
    requires { IfSome chosen (λ paths. IsStrictlySortedBy path_cmp paths.items) }
    ensures paths { IfOk result (λ found. AreFilesAt name.now (option_map (λ paths. paths.items) chosen) found.single
        (paths_of found.files.items)) }
    ensures letters { IfOk result
        (λ found. HaveLetters (option_map (λ place. place.now) attrs.entry) found.files.items) }
    ensures each { IfOk result (λ found. length found.source ≡ length found.files.items) }
    ensures stopped { IfErr result (IsNotFound name.now (option_map (λ paths. paths.items) chosen)
        (option_map (λ place. place.now) attrs.entry)) }
{
    let placed = paths_at(system, place, chosen, name)?;
    let UnletteredFiles {
        source,
        paths,
        single,
    } = placed;
    let files = lettered_files(system, attrs, paths)?;
    Ok(LetteredFiles {
        source,
        files,
        single,
    })
}

fn paths_at(
    system: &HostRuntime,
    place: &str,
    chosen: Option<Vec<FilePath>>,
    name: &Name,
) -> Result<UnletteredFiles, Fault>
    requires { IfSome chosen (λ paths. IsStrictlySortedBy path_cmp paths.items) }
    ensures paths { IfOk result (λ placed. AreFilesAt name.now (option_map (λ paths. paths.items) chosen)
        placed.single placed.paths.items) }
    ensures each { IfOk result (λ placed. length placed.source ≡ length placed.paths.items) }
    ensures stopped { (attrs : Option (List ℕ)) →
        IfErr result (IsNotFound name.now (option_map (λ paths. paths.items) chosen) attrs) }
{
    match chosen {
        Some(paths) => chosen_at(system, place, paths),
        None => Ok(all_at(system, place, name)?),
    }
}

/// The files of a folder that are chosen. The first that cannot be taken is the fault.
fn chosen_at(
    system: &HostRuntime,
    place: &str,
    chosen: Vec<FilePath>,
) -> Result<UnletteredFiles, Fault>
    ensures single { IfOk result (λ placed. placed.single ≡ false) }
    ensures paths { IfOk result (λ placed. placed.paths.items ≡ chosen.items) }
    ensures short { IfOk result (λ placed. All (λ path. length path ≤ 64) placed.paths.items) }
    ensures each { IfOk result (λ placed. length placed.source ≡ length placed.paths.items) }
    ensures stopped { (name : List ℕ) (attrs : Option (List ℕ)) →
        IfErr result (IsNotFound name (Some chosen.items) attrs) }
{
    let alloc = system.alloc();
    let survey = FolderSource::listed(system, alloc, place, chosen)?;
    if let Some(refused) = survey.refused.first() {
        return Err(first_refusal(alloc, refused, &survey.paths)?);
    }
    Ok(UnletteredFiles {
        source: survey.source,
        paths: survey.paths,
        single: false,
    })
}

/// The fault of the first file that is not taken, if these are taken.
fn first_refusal(alloc: Global, refused: &Refused, taken: &[FilePath]) -> Result<Fault, AllocError>
    ensures { (name : List ℕ) (chosen : List (List (List ℕ))) (attrs : Option (List ℕ)) →
        length taken.now < length chosen → IfOk result (IsNotFound name (Some chosen) attrs) }
{
    match refused.refusal {
        Refusal::Missing => {
            let file = files_before(alloc, &refused.path, taken)?;
            Ok(Fault::Make(MakeError::Hashing(EngineError::Missing { file })))
        }
        _ => Ok(Fault::Scan(refused.refusal.fault())),
    }
}

/// How many of these files, whose paths rise, stand before the path of these bytes.
fn files_before(alloc: Global, path: &[u8], files: &[FilePath]) -> Result<u64, AllocError>
    ensures { IfOk result (λ count. count ≤ length files.now) }
{
    match path_in(alloc, path) {
        Ok(path) => match files.binary_search(&path) {
            Ok(count) | Err(count) => Ok(count as u64),
        },
        Err(NameError::Memory) => Err(AllocError),
        Err(_) => Ok(0),
    }
}

fn all_at(system: &HostRuntime, place: &str, name: &Name) -> Result<UnletteredFiles, ScanFault>
    ensures paths { IfOk result (λ placed. AreFound name.now placed.single placed.paths.items) }
    ensures each { IfOk result (λ placed. length placed.source ≡ length placed.paths.items) }
{
    match system.metadata(place) {
        Ok(metadata) if metadata.is_file() => Ok(one_file(system, place, name)?),
        _ => {
            let (source, paths) = FolderSource::scan(system, system.alloc(), place)?;
            Ok(UnletteredFiles {
                source,
                paths,
                single: false,
            })
        }
    }
}

fn one_file(system: &HostRuntime, place: &str, name: &Name) -> Result<UnletteredFiles, AllocError>
    ensures single { IfOk result (λ placed. placed.single ≡ true) }
    ensures paths { IfOk result (λ placed. AreFound name.now placed.single placed.paths.items) }
    ensures each { IfOk result (λ placed. length placed.source ≡ length placed.paths.items) }
{
    let alloc = system.alloc();
    let path = FilePath::of_name(alloc, name)?;
    Ok(UnletteredFiles {
        source: FolderSource::single(system, alloc, place)?,
        paths: vec![in alloc; path]?,
        single: true,
    })
}

/// The torrent of the files that were found. The progress that is shown meanwhile is erased at the end.
pub fn torrent_of<T: Threads + Wait + Sync>(
    rt: &T,
    alloc: Global,
    way: Way,
    found: &LetteredFiles,
    order: &Order,
    progress: &Option<Progress>,
) -> Result<Vec<u8>, MakeError<io::Error>>
    requires { length found.now.source ≡ length found.now.files.items }
    ensures { IsMadeOfFound (refusal_by way order.now (paths_of found.now.files.items))
        (IsGivenBy way (length found.now.files.items)) order.now found.now.files.items result }
{
    match way {
        Way::Shared(_) => by_sharing(rt, alloc, found, order, progress),
        Way::Streams(_) => by_streams(rt, alloc, found, order, progress),
    }
}

/// The torrent of the files that were found, by workers that read the files.
fn by_sharing<T: Threads + Sync>(
    rt: &T,
    alloc: Global,
    found: &LetteredFiles,
    order: &Order,
    progress: &Option<Progress>,
) -> Result<Vec<u8>, MakeError<io::Error>>
    requires { length found.now.source ≡ length found.now.files.items }
    ensures { let count = length found.now.files.items in
        IsMadeOfFound (make_refusal order.now (paths_of found.now.files.items))
        (IsGivenTo (system_answers count) count) order.now found.now.files.items result }
{
    let counting = Counting {
        source: &found.source,
        files: &[],
        progress,
    };
    let answer = make_with(rt, alloc, &counting, &found.files, order);
    erase(progress);
    answer
}

/// The torrent of the files that were found, by workers behind the calling thread, which reads file after file.
fn by_streams<T: Threads + Wait + Sync>(
    rt: &T,
    alloc: Global,
    found: &LetteredFiles,
    order: &Order,
    progress: &Option<Progress>,
) -> Result<Vec<u8>, MakeError<io::Error>>
    requires { length found.now.source ≡ length found.now.files.items }
    ensures { IsMadeOfFound (stream_refusal order.now (paths_of found.now.files.items))
        (IsStreamFault (length found.now.files.items)) order.now found.now.files.items result }
{
    let readers = counted_readers(alloc, found, progress)?;
    let answer = make_streams_with(rt, alloc, readers, &found.files, order);
    erase(progress);
    answer
}

/// A reader of each file, in their order; what is read of it is counted, if that is to be shown.
fn counted_readers<'a>(
    alloc: Global,
    found: &LetteredFiles,
    progress: &'a Option<Progress>,
) -> Result<Vec<CountedReader<'a, LazyFile<HostRuntime>>>, AllocError>
    ensures each { IfOk result (λ readers. map (λ counted. counted.reader) readers.items ≡ found.now.source) }
    ensures count { IfOk result (λ readers. vec_len readers ≡ length found.now.source) }
{
    if let Some(progress) = progress {
        progress.ask_lengths(&found.source);
    }
    let files = found.source.readers(alloc)?;
    let mut readers = Vec::with_capacity(alloc, files.len())?;
    'files: for reader in files {
        readers.push(CountedReader { reader, progress })?;
    }
    Ok(readers)
}
