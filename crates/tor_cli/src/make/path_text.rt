//! A path as one text, with a slash between two names, read.
ghost use Rattle.std.specs.Prelude.{◌≡◌, ◌⊎◌, ◌==◌, ◌∷◌, ◌++◌, [], ℕ, List, Some, IfErr, IfNone, IfOk, IfSome, None, OnOk};
ghost use Rattle.std.specs.Prelude.{false};
ghost use Rattle.std.specs.List.{position_or_len};
ghost use Rattle.std.specs.Option.{IsSomeAnd};
ghost use Rattle.tor_tree.specs.Name.{has_byte, name_fault};
ghost use Rattle.tor_tree.specs.Path.{IsFilePath};
ghost use Rattle.tor_tree.specs.declared.names.NameError.TheVariants.{Memory};
ghost use Rattle.tor_cli.specs.make.PathsText.{names_fault, names_in};

use std::alloc::Global;
use tor_tree::{FilePath, Name, NameError};

/// The path of which this is the text, or why its first part that is no name is none.
pub fn path_in(alloc: Global, text: &[u8]) -> Result<FilePath, NameError>
    ensures path { IfOk result (λ path. (path ≡ names_in text.now) × IsFilePath path) }
    ensures refused { IfErr result
        (λ fault. (names_fault (names_in text.now) ≡ Some fault) ⊎ (fault ≡ Memory)) }
{
    let mut names = Vec::new(alloc);
    let mut rest = text;
    'names: while let Some((part, more)) = cut_at(b'/', rest) {
        push_name(alloc, &mut names, part)?;
        rest = more;
    }
    push_name(alloc, &mut names, rest)?;
    let Some(path) = FilePath::new(names) else {
        unreachable!();
    };
    Ok(path)
}

/// Puts a name of these bytes behind the others.
fn push_name(alloc: Global, names: &mut Vec<Name>, bytes: &[u8]) -> Result<(), NameError>
    ensures pushed { OnOk result (names.new.items ≡ names.old.items ++ bytes.now ∷ []) }
    ensures accepted { OnOk result (name_fault bytes.now ≡ None) }
    ensures refused { IfErr result (λ fault. (name_fault bytes.now ≡ Some fault) ⊎ (fault ≡ Memory)) }
{
    names.push(Name::new(alloc, bytes)?)?;
    Ok(())
}

/// What stands before the first such byte, and what after it.
pub fn cut_at(byte: u8, text: &[u8]) -> Option<(&[u8], &[u8])>
    ensures written { IfSome result (λ r. (text.now ≡ r.0.now ++ byte ∷ r.1.now)
        × (has_byte byte r.0.now ≡ false)) }
    ensures none { IfNone result (has_byte byte text.now ≡ false) }
    ensures read { (before after : List ℕ) → has_byte byte before ≡ false → text.now ≡ before ++ byte ∷ after
        → IsSomeAnd result (λ r. (r.0.now ≡ before) × (r.1.now ≡ after)) }
{
    let count = count_before(byte, text);
    let (before, rest) = text.split_at(count);
    let (_, after) = rest.split_first()?;
    Some((before, after))
}

/// How many bytes stand before the first that is this one, or in all.
fn count_before(byte: u8, text: &[u8]) -> usize
    ensures { result ≡ position_or_len (λ b. b == byte) text.now }
{
    text.iter().take_while(|found| **found != byte).count()
}
