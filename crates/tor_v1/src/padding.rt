//! Padding: entries that stand for zero bytes.
ghost use Rattle.std.specs.Prelude.{◌≡◌, None, IfOk};
ghost use Rattle.tor_tree.specs.Name.{name_fault};
ghost use Rattle.tor_v1.specs.Entries.{pad_entry, padding_length};
ghost use Rattle.tor_v1.specs.Piece.{IsV1PieceLength};

use crate::entry::Entry;
use itoa::Buffer;
use std::alloc::{AllocError, Global};
use tor_tree::{FilePath, Name, NameError};

/// How many bytes a file of `length` bytes lacks to a whole number of pieces (BEP 47, "padding files").
pub fn padding_length(length: u64, piece_length: u64) -> u64
    requires { IsV1PieceLength piece_length }
    ensures { result ≡ padding_length piece_length length }
{
    (piece_length - length % piece_length) % piece_length
}

/// The padding of `length` zero bytes.
pub fn pad_entry(alloc: Global, length: u64) -> Result<Entry, AllocError>
    ensures { IfOk result (λ entry. entry ≡ pad_entry length) }
{
    let mut names = Vec::with_capacity(alloc, 2)?;
    names.push(faultless_name(alloc, b".pad")?)?;
    names.push(faultless_name(alloc, Buffer::new().format(length).as_bytes())?)?;
    let Some(path) = FilePath::new(names) else {
        unreachable!()
    };
    Ok(Entry {
        path,
        length,
        pad: true,
        exec: false,
        hidden: false,
    })
}

/// The name of bytes that have no fault.
fn faultless_name(alloc: Global, bytes: &[u8]) -> Result<Name, AllocError>
    requires { name_fault bytes.now ≡ None }
    ensures { IfOk result (λ name. name ≡ bytes.now) }
{
    match Name::new(alloc, bytes) {
        Ok(name) => Ok(name),
        Err(NameError::Memory) => Err(AllocError),
        Err(_) => unreachable!(),
    }
}
