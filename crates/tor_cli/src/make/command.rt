//! `tor make`, of standard input or of PATH: the order, the torrent, and where it goes.
ghost use Rattle.std.specs.Prelude.{◌≡◌, ◌⊎◌, ◌<◌, ◌∷◌, [], ℕ, List, Option, IfErr, IfOk, OnOk, None, Some, length};
ghost use Rattle.std.specs.Prelude.{true};
ghost use Rattle.std.specs.Prelude.{IfSome, option_map};
ghost use Rattle.std.specs.List.Sorted.{IsStrictlySortedBy};
ghost use Rattle.tor_tree.specs.Path.{path_cmp};
ghost use Rattle.tor_meta.specs.FromInput.{MakesOf, StopsReading};
ghost use Rattle.tor_tree.specs.Name.{name_fault};
ghost use Rattle.tor_tree.specs.declared.names.NameError.TheVariants.{Memory};
ghost use Rattle.tor_cli.specs.lots.Planning.{IsOfLengths};
ghost use Rattle.tor_cli.specs.make.Attrs.{HaveLetters, IsNotLettered};
ghost use Rattle.tor_cli.specs.Place.{refusal_by};
ghost use Rattle.tor_cli.specs.make.Request.{DoesFiles, DoesInput, DoesMake, DoesPlace, IsOrder, IsOrderOf};
ghost use Rattle.tor_cli.specs.make.Request.{IsOrderOfOne, IsTorrentAt, IsTorrentToSend, StopsFiles, StopsFinding, StopsInput};
ghost use Rattle.tor_cli.specs.make.Request.{StopsMake, StopsPlace, StopsSending, attrs_of};
ghost use Rattle.tor_cli.specs.Streams.{streams};
ghost use Rattle.tor_cli.specs.steps.Lettering.{IsNotOrdered};
ghost use Rattle.tor_cli.specs.steps.Writing.{writing};
ghost use Rattle.tor_cli.specs.Words.{length_for};

use crate::fault::Fault;
use crate::make::attrs_file::lettered_files;
use crate::make::check_after::check_after;
use crate::make::chosen_files::chosen_files;
use crate::make::from_place::{LetteredFiles, files_at, torrent_of};
use crate::make::options::MakeOptions;
use crate::make::out_file::{refuse_out_among_files, refuse_unwritable, send};
use crate::make::way::{Way, how_of, workers_after};
use crate::out_before::OutBefore;
use crate::progress::Progress;
use std::alloc::{AllocError, Global};
use std::io::{Read, Write};
use std::sync::Wait;
use std::thread::Threads;
use tor_meta::{FromFault, Order, torrent_by_streams, torrent_from};
use tor_source::drop_input;
use tor_tree::{Attr, FilePath, Name, NameError};

/// Makes the torrent of one file, whose content the reader has, or of the files at a place of the system. The first of
/// these faults is answered: of the reader or the list of files, the name, the place, the letters, the file that it is
/// to go to if that is one of those at the place or cannot be written, the other options, the files, the check of
/// `--check-after`, the writer. That check is of the place too: its faults come in the order of a recheck of what was
/// made, and that not all pieces are there comes last.
pub fn make<T: Threads + Wait + Sync + Send + Clone + Drop + 'static, R: Read, W: Write>(
    rt: &T,
    system: &HostRuntime,
    options: &MakeOptions<'_>,
    reader: &mut R,
    out: &mut W,
    shows_progress: bool,
) -> Result<(), Fault>
    ensures made { OnOk result (DoesMake options.now (streams (R.remaining reader.old) (R.remaining reader.new)
        (W.contents out.old) (W.contents out.new))) }
    ensures stopped { IfErr result (StopsMake options.now (streams (R.remaining reader.old) (R.remaining reader.new)
        (W.contents out.old) (W.contents out.new))) }
{
    match options.place {
        Some(place) => make_of_place(rt, system, options, place, reader, out, shows_progress),
        None => make_of_input(rt, system, options, reader, out),
    }
}

/// Makes the torrent of what the reader has.
fn make_of_input<T: Threads + Wait + Sync + Send + Clone + Drop + 'static, R: Read, W: Write>(
    rt: &T,
    system: &HostRuntime,
    options: &MakeOptions<'_>,
    reader: &mut R,
    out: &mut W,
) -> Result<(), Fault>
    ensures made { OnOk result (DoesInput options.now (streams (R.remaining reader.old) (R.remaining reader.new)
        (W.contents out.old) (W.contents out.new))) }
    ensures stopped { IfErr result (StopsInput options.now (streams (R.remaining reader.old) (R.remaining reader.new)
        (W.contents out.old) (W.contents out.new))) }
{
    let before = OutBefore::at(system, options.out);
    let alloc = system.alloc();
    let (order, attr) = match order_of_one(system, options) {
        Ok(both) => both,
        Err(fault) => {
            drop_input(alloc, reader)?;
            return Err(fault);
        }
    };
    let torrent = torrent_of_input(rt, alloc, options.way, reader, &order, attr)?;
    Ok(send(system, out, options.out, &before, &torrent)?)
}

/// The torrent of what the reader has.
fn torrent_of_input<T: Threads + Wait + Sync + Send + Clone + Drop + 'static, R: Read>(
    rt: &T,
    alloc: Global,
    way: Way,
    reader: &mut R,
    order: &Order,
    attr: Attr,
) -> Result<Vec<u8>, FromFault>
    ensures made { IfOk result (λ torrent. (content : List ℕ)
        × MakesOf (refusal_by way order.now ((order.now.name ∷ []) ∷ [])) order.now attr
        (R.remaining reader.old) (R.remaining reader.new) (λ bytes. torrent.items ≡ bytes) content) }
    ensures stopped { IfErr result (StopsReading (refusal_by way order.now ((order.now.name ∷ []) ∷ []))
        (R.remaining reader.old) (R.remaining reader.new)) }
{
    match way {
        Way::Shared(_) => torrent_from(alloc, reader, order, attr),
        Way::Streams(_) => torrent_by_streams(rt, alloc, reader, order, attr),
    }
}

/// Makes the torrent of the file or the folder at a place of the system. The list that chooses files is read first.
fn make_of_place<T: Threads + Wait + Sync, R: Read, W: Write>(
    rt: &T,
    system: &HostRuntime,
    options: &MakeOptions<'_>,
    place: &str,
    reader: &mut R,
    out: &mut W,
    shows_progress: bool,
) -> Result<(), Fault>
    ensures made { OnOk result (DoesPlace options.now (streams (R.remaining reader.old) (R.remaining reader.new)
        (W.contents out.old) (W.contents out.new))) }
    ensures stopped { IfErr result (StopsPlace options.now (streams (R.remaining reader.old) (R.remaining reader.new)
        (W.contents out.old) (W.contents out.new))) }
{
    let before = OutBefore::at(system, options.out);
    let chosen = chosen_files(system.alloc(), system, options.list, reader)?;
    make_of_files(
        rt,
        system,
        options,
        place,
        chosen,
        &before,
        out,
        shows_progress,
    )
}

/// Makes the torrent of the file at a place of the system, or of the files below the folder there: all, or those that
/// are chosen; at FILE this stood before. Nothing is written before it may go out.
fn make_of_files<T: Threads + Wait + Sync, W: Write>(
    rt: &T,
    system: &HostRuntime,
    options: &MakeOptions<'_>,
    place: &str,
    chosen: Option<Vec<FilePath>>,
    before: &OutBefore,
    out: &mut W,
    shows_progress: bool,
) -> Result<(), Fault>
    requires { IfSome chosen (λ paths. IsStrictlySortedBy path_cmp paths.items) }
    ensures made { (reader : Option (List ℕ)) → OnOk result (DoesFiles options.now
        (option_map (λ paths. paths.items) chosen) (writing reader (W.contents out.old) (W.contents out.new))) }
    ensures stopped { (reader : Option (List ℕ)) → IfErr result (StopsFiles options.now
        (option_map (λ paths. paths.items) chosen) (writing reader (W.contents out.old) (W.contents out.new))) }
{
    let torrent = torrent_to_send(rt, system, options, place, chosen, shows_progress)?;
    Ok(send(system, out, options.out, before, &torrent)?)
}

/// The torrent of the file or the folder at a place of the system, if it may go out: with `--check-after` only if the
/// place has each piece of it afterwards.
fn torrent_to_send<T: Threads + Wait + Sync>(
    rt: &T,
    system: &HostRuntime,
    options: &MakeOptions<'_>,
    place: &str,
    chosen: Option<Vec<FilePath>>,
    shows_progress: bool,
) -> Result<Vec<u8>, Fault>
    requires { IfSome chosen (λ paths. IsStrictlySortedBy path_cmp paths.items) }
    ensures made { IfOk result
        (λ torrent. IsTorrentToSend options.now (option_map (λ paths. paths.items) chosen) torrent.items) }
    ensures some { IfOk result (λ torrent. 0 < length torrent.items) }
    ensures stopped { IfErr result (StopsSending options.now (option_map (λ paths. paths.items) chosen)) }
{
    let torrent = torrent_at(rt, system, options, place, chosen, shows_progress)?;
    if !options.check_after {
        return Ok(torrent);
    }
    let workers = workers_after(options.way);
    check_after(rt, system, place, &torrent, workers, shows_progress)?;
    Ok(torrent)
}

/// The torrent of the file or the folder at a place of the system.
fn torrent_at<T: Threads + Wait + Sync>(
    rt: &T,
    system: &HostRuntime,
    options: &MakeOptions<'_>,
    place: &str,
    chosen: Option<Vec<FilePath>>,
    shows_progress: bool,
) -> Result<Vec<u8>, Fault>
    requires { IfSome chosen (λ paths. IsStrictlySortedBy path_cmp paths.items) }
    ensures made { IfOk result
        (λ torrent. IsTorrentAt options.now (option_map (λ paths. paths.items) chosen) torrent.items) }
    ensures some { IfOk result (λ torrent. 0 < length torrent.items) }
    ensures stopped { IfErr result (StopsFinding options.now (option_map (λ paths. paths.items) chosen)) }
{
    let (found, order) = files_to_make(system, options, place, chosen)?;
    let progress = Progress::shown(system, found.files.len(), shows_progress);
    Ok(torrent_of(rt, system.alloc(), options.way, &found, &order, &progress)?)
}

/// The files at a place, and the order that the options ask for of them.
pub(crate) fn files_to_make(
    system: &HostRuntime,
    options: &MakeOptions<'_>,
    place: &str,
    chosen: Option<Vec<FilePath>>,
) -> Result<(LetteredFiles, Order), Fault>
    requires { IfSome chosen (λ paths. IsStrictlySortedBy path_cmp paths.items) }
    ensures ordered { IfOk result (λ both.
        IsOrderOf options.now (option_map (λ paths. paths.items) chosen) both.1 both.0.files.items) }
    ensures each { IfOk result (λ both. length both.0.source ≡ length both.0.files.items) }
    ensures stopped { IfErr result (StopsFinding options.now (option_map (λ paths. paths.items) chosen)) }
    ensures lengths { IfErr result IsOfLengths }
{
    let alloc = system.alloc();
    let name = name_of(alloc, options)?;
    let found = files_at(system, place, chosen, options.attrs, &name)?;
    refuse_out_among_files(system, options.out, &found.source)?;
    refuse_unwritable(system, options.out)?;
    let length = options
        .piece_length
        .for_files(&found.source, found.files.len());
    let order = order_of(alloc, options, name, found.single, length)?;
    Ok((found, order))
}

/// The order that the options ask for, of one file, and its letters.
fn order_of_one(system: &HostRuntime, options: &MakeOptions<'_>) -> Result<(Order, Attr), Fault>
    ensures made { IfOk result (λ both. IsOrderOfOne options.now both.0 both.1) }
    ensures stopped { IfErr result (IsNotOrdered options.now) }
{
    let alloc = system.alloc();
    let name = name_of(alloc, options)?;
    let attr = attr_of_one(system, options, &name)?;
    let length = options.piece_length.for_size(0);
    Ok((order_of(alloc, options, name, true, length)?, attr))
}

/// The letters of the one file that has the torrent's name.
fn attr_of_one(system: &HostRuntime, options: &MakeOptions<'_>, name: &Name) -> Result<Attr, Fault>
    ensures letters { IfOk result (λ attr. HaveLetters (attrs_of options.now) ((name.now ∷ [], attr) ∷ [])) }
    ensures stopped { IfErr result (IsNotLettered (attrs_of options.now) ((name.now ∷ []) ∷ [])) }
{
    let alloc = system.alloc();
    let path = FilePath::of_name(alloc, name)?;
    let files = lettered_files(system, options.attrs, vec![in alloc; path]?)?;
    Ok(files[0].1)
}

fn name_of(alloc: Global, options: &MakeOptions<'_>) -> Result<Name, NameError>
    ensures name { IfOk result (λ name. name ≡ options.now.name.now) }
    ensures accepted { OnOk result (name_fault options.now.name.now ≡ None) }
    ensures refused { IfErr result (λ fault. (name_fault options.now.name.now ≡ Some fault) ⊎ (fault ≡ Memory)) }
{
    Name::new(alloc, options.name.as_bytes())
}

/// The order that the options ask for, under the name that is their word for it, of pieces of so many bytes.
fn order_of(
    alloc: Global,
    options: &MakeOptions<'_>,
    name: Name,
    single: bool,
    piece_length: u64,
) -> Result<Order, AllocError>
    requires name { name ≡ options.now.name.now }
    requires length { (size : ℕ) × (piece_length ≡ length_for options.now.piece_length size) }
    ensures order { IfOk result (IsOrder options.now single) }
    ensures single { IfOk result (λ order. order.single ≡ single) }
{
    let announce = announce_of(alloc, options.announce)?;
    Ok(Order {
        kind: options.kind,
        single,
        name,
        piece_length,
        announce,
        is_private: options.is_private,
        tail: options.tail,
        span: options.span,
        how: how_of(options.way),
    })
}

fn announce_of(alloc: Global, announce: Option<&str>) -> Result<Option<Vec<u8>>, AllocError>
    ensures { IfOk result
        (λ made. option_map (λ bytes. bytes.items) made ≡ option_map (λ url. url.now) announce.entry) }
{
    match announce {
        Some(url) => Ok(Some(Vec::from_slice(alloc, url.as_bytes())?)),
        None => Ok(None),
    }
}
