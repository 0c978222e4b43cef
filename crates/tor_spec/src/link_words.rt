//! Magnet links that show a name, and name a tracker (BEP 9, "magnet URI format").
ghost use Rattle.std.specs.Prelude.{◌≡◌, ◌++◌, IfOk, OnOk, codes, option_map, string_bytes};
ghost use Rattle.tor_spec.specs.Hashes.{HasHash, magnet_link};
ghost use Rattle.tor_spec.specs.LinkWords.{link_text, link_word};

use crate::hashes::{Hashes, magnet};
use percent_encoding::{AsciiSet, NON_ALPHANUMERIC, ascii_set, percent_encode};
use std::alloc::{AllocError, Global};

/// What a link does not have as it is: all but letters, digits, and four more (RFC 3986, section 2.3, "unreserved").
const RESERVED: AsciiSet = ascii_set!(
    NON_ALPHANUMERIC
        .remove(b'-')
        .remove(b'.')
        .remove(b'_')
        .remove(b'~')
);

/// The magnet link of a torrent with these info hashes, of which there is one at least, and with the name that is
/// shown while its files are not known, and the URL of its tracker, if they are given.
pub fn magnet_with(
    alloc: Global,
    hashes: &Hashes,
    name: Option<&[u8]>,
    tracker: Option<&[u8]>,
) -> Result<String, AllocError>
    requires { HasHash hashes.now }
    ensures { IfOk result (λ link. string_bytes link ≡ magnet_link hashes.now
        ++ (link_word (codes "&dn=") (option_map (λ text. text.now) name.entry)
        ++ link_word (codes "&tr=") (option_map (λ text. text.now) tracker.entry))) }
{
    let mut link = magnet(alloc, hashes)?;
    push_word(&mut link, "&dn=", name)?;
    push_word(&mut link, "&tr=", tracker)?;
    Ok(link)
}

/// Writes what stands before a text, and the text, if there is one.
fn push_word(link: &mut String, before: &str, text: Option<&[u8]>) -> Result<(), AllocError>
    ensures { OnOk result (string_bytes link.new ≡ string_bytes link.old
        ++ link_word before.now (option_map (λ text. text.now) text.entry)) }
{
    let Some(text) = text else {
        return Ok(());
    };
    link.push_str(before)?;
    push_text(link, text)
}

/// Writes a text with what a link does not have as it is escaped.
fn push_text(link: &mut String, text: &[u8]) -> Result<(), AllocError>
    ensures { OnOk result (string_bytes link.new ≡ string_bytes link.old ++ link_text text.now) }
{
    percent_encode(text, RESERVED).append_to(link)
}
