//! The files that a recheck lists, as JSON.
ghost use Rattle.serde_json.specs.Data.{array};
ghost use Rattle.serde_json.specs.View.{items_of};
ghost use Rattle.serde_json.specs.Written.{comma_if, compact_text};
ghost use Rattle.std.specs.Prelude.{◌≡◌, ◌++◌, IfErr, IfOk, OnOk, false};
ghost use Rattle.tor_cli.specs.steps.FoundMembers.{is_listed};
ghost use Rattle.tor_cli.specs.steps.Items.{are_any, items_front};
ghost use Rattle.tor_cli.specs.text.Records.{files_data, found_data, listed_data, listed_files};
ghost use Rattle.tor_report.specs.Put.{Puts, Stops};

use crate::recheck::bytes_found::BytesFound;
use crate::recheck::found_record::put_found;
use crate::recheck::found_text::is_whole;
use crate::recheck::listing::FileListing;
use crate::text::json_line::comma_if;
use tor_check::ViewFile;
use tor_report::{Buffer, Sink};
use tor_spec::WriteFault;
use tor_tree::TreeFile;
use tor_view::FileState;

/// Puts the files that are listed, as an array; `null` if none is asked for.
pub fn put_files<S: Sink>(
    buffer: &mut Buffer,
    out: &mut S,
    listing: FileListing,
    told: &[BytesFound],
    files: &[ViewFile],
) -> Result<(), WriteFault>
    ensures put { OnOk result (Puts S.took (compact_text (files_data listing told.now files.now))
        out.old buffer.old out.new buffer.new) }
    ensures stopped { IfErr result (λ fault.
        Stops S.took S.fails (compact_text (files_data listing told.now files.now))
        out.old buffer.old out.new fault.written) }
{
    match listing {
        FileListing::Pieces => buffer.put(out, b"null"),
        FileListing::Files => put_array(buffer, out, listing, told, files),
        FileListing::BadFiles => put_array(buffer, out, listing, told, files),
        FileListing::BadPaths => put_array(buffer, out, listing, told, files),
    }
}

fn put_array<S: Sink>(
    buffer: &mut Buffer,
    out: &mut S,
    listing: FileListing,
    told: &[BytesFound],
    files: &[ViewFile],
) -> Result<(), WriteFault>
    ensures put { OnOk result (Puts S.took
        (compact_text (array (items_of (listed_files listing told.now files.now))))
        out.old buffer.old out.new buffer.new) }
    ensures stopped { IfErr result (λ fault. Stops S.took S.fails
        (compact_text (array (items_of (listed_files listing told.now files.now))))
        out.old buffer.old out.new fault.written) }
{
    buffer.put(out, b"[")?;
    put_listed(buffer, out, listing, told, files)?;
    buffer.put(out, b"]")
}

/// Puts the files that are listed, a comma between each two.
fn put_listed<S: Sink>(
    buffer: &mut Buffer,
    out: &mut S,
    listing: FileListing,
    told: &[BytesFound],
    files: &[ViewFile],
) -> Result<(), WriteFault>
    ensures put { OnOk result (Puts S.took (items_front false (listed_files listing told.now files.now))
        out.old buffer.old out.new buffer.new) }
    ensures stopped { IfErr result (λ fault.
        Stops S.took S.fails (items_front false (listed_files listing told.now files.now))
        out.old buffer.old out.new fault.written) }
{
    let mut later = false;
    'files: for (told, file) in told.iter().zip(files) {
        later = put_if_listed(buffer, out, listing, later, told, file.file())?;
    }
    Ok(())
}

/// Puts a file if it is listed, behind a comma if one was put before it. Answers whether one is put by now.
fn put_if_listed<S: Sink>(
    buffer: &mut Buffer,
    out: &mut S,
    listing: FileListing,
    later: bool,
    told: &BytesFound,
    file: &TreeFile,
) -> Result<bool, WriteFault>
    ensures put { OnOk result (Puts S.took (items_front later (listed_data listing told.now file.now))
        out.old buffer.old out.new buffer.new) }
    ensures later { IfOk result (λ any. any ≡ are_any later (listed_data listing told.now file.now)) }
    ensures stopped { IfErr result (λ fault.
        Stops S.took S.fails (items_front later (listed_data listing told.now file.now))
        out.old buffer.old out.new fault.written) }
{
    if is_listed(listing, told.found.state) {
        put_item(buffer, out, later, told, file)?;
        return Ok(true);
    }
    Ok(later)
}

/// Whether a file in this state is listed.
fn is_listed(listing: FileListing, state: FileState) -> bool
    ensures { result ≡ is_listed listing state }
{
    match listing {
        FileListing::Pieces => false,
        FileListing::Files => true,
        FileListing::BadFiles => !is_whole(state),
        FileListing::BadPaths => !is_whole(state),
    }
}

fn put_item<S: Sink>(
    buffer: &mut Buffer,
    out: &mut S,
    later: bool,
    told: &BytesFound,
    file: &TreeFile,
) -> Result<(), WriteFault>
    ensures put { OnOk result (Puts S.took (comma_if later ++ compact_text (found_data told.now file.now))
        out.old buffer.old out.new buffer.new) }
    ensures stopped { IfErr result (λ fault.
        Stops S.took S.fails (comma_if later ++ compact_text (found_data told.now file.now))
        out.old buffer.old out.new fault.written) }
{
    buffer.put(out, comma_if(later).as_bytes())?;
    put_found(buffer, out, told, file)
}
