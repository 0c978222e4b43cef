//! What the tests share: bytes as parts, and whether there is a text, or there are bytes, and these.
use std::alloc::{AllocError, Global};
use std::fmt::Display;

// Bytes as parts, one after the other.
pub(crate) type Parts = &'static [&'static [u8]];

pub(crate) fn add_parts(bytes: &mut Vec<u8>, parts: &[&[u8]]) -> Result<(), AllocError> {
    for part in parts {
        bytes.extend_from_slice(part)?;
    }
    Ok(())
}

pub(crate) fn joined(alloc: Global, parts: &[&[u8]]) -> Result<Vec<u8>, AllocError> {
    let mut bytes = Vec::new(alloc);
    add_parts(&mut bytes, parts)?;
    Ok(bytes)
}

// Whether there is a text, and this.
pub(crate) fn is(text: Result<String, AllocError>, wanted: &str) -> bool {
    match text {
        Ok(text) => text.as_str() == wanted,
        Err(_) => false,
    }
}

// Whether a value is written so.
pub(crate) fn is_shown<T: Display>(alloc: Global, value: &T, wanted: &str) -> bool {
    is(format!(in alloc; "{value}"), wanted)
}

// Whether there are bytes, and these.
pub(crate) fn are<E: Drop>(bytes: Result<Vec<u8>, E>, wanted: &[u8]) -> bool {
    match bytes {
        Ok(bytes) => bytes.as_slice() == wanted,
        Err(_) => false,
    }
}

// Adds an item, if it was made.
pub(crate) fn add<T: Drop>(
    items: &mut Vec<T>,
    made: Result<T, AllocError>,
) -> Result<(), AllocError> {
    items.push(made?)?;
    Ok(())
}
