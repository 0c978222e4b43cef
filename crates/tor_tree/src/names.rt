//! Names of files and folders: text that is one step of a path.
ghost use Rattle.std.specs.Prelude.{◌≡◌, ◌⊎◌, All, Some, None, IfOk, IfErr, OnOk, is_none};
ghost use Rattle.std.specs.Str.{IsUtf8, is_utf8};
ghost use Rattle.std.proofs.Common.{refl};
ghost use Rattle.std.specs.Cmp.{partial_equiv_from_equiv};
ghost use Rattle.std.specs.Cmp.Lexicographic.{nat_list_eq_equiv, nat_list_cmp_total, texts_ties, texts_po};
ghost use Rattle.tor_tree.specs.Name.{name_fault};
ghost use Rattle.tor_tree.specs.Path.{name_eq, name_cmp};
ghost use Rattle.tor_tree.specs.declared.names.NameError.TheVariants.{Memory};

use std::alloc::{AllocError, AllocFailed, Global};
use std::cmp::Ordering;
use std::marker::Model;
use std::str;
use std::sync::ArcSlice;
use thiserror::Error;

/// Why a byte string is no name. The least number is answered.
#[derive(Debug, Drop, Error)]
pub enum NameError {
    #[error("N1 Empty")]
    Empty,
    /// The name `.`.
    #[error("N2 Dot")]
    Dot,
    /// The name `..`.
    #[error("N3 DotDot")]
    DotDot,
    /// A `/` stands in it.
    #[error("N4 Slash")]
    Slash,
    /// A zero byte stands in it.
    #[error("N5 Nul")]
    Nul,
    #[error("N6 NotUtf8")]
    NotUtf8,
    /// Memory for the name was refused.
    #[error("out of memory")]
    Memory,
}

impl From<AllocError> for NameError {
    ghost from_gives = { λ _ e. e ≡ Memory };

    fn from(_error: AllocError) -> NameError {
        NameError::Memory
    }
}

impl<T: Drop> From<AllocFailed<T>> for NameError {
    ghost from_gives = { λ _ e. e ≡ Memory };

    fn from(_failed: AllocFailed<T>) -> NameError {
        NameError::Memory
    }
}

/// The name of a file or a folder. Contracts see its bytes.
#[derive(Debug, Drop)]
pub struct Name {
    bytes: ArcSlice<u8>,
}

impl Model for Name {
    ghost use Rattle.std.specs.Prelude.{◌≡◌, ℕ, List, None};

    ghost Value = { List ℕ };

    ghost use Rattle.std.specs.Arc.{arc_slice_items};
    ghost use Rattle.tor_tree.specs.Name.{name_fault};

    ghost view = { λ name. arc_slice_items name.bytes };

    ghost invariant = { λ name. name_fault (arc_slice_items name.bytes) ≡ None };
}

impl Name {
    /// A name of exactly these bytes.
    pub fn new(alloc: Global, bytes: &[u8]) -> Result<Name, NameError>
        ensures made { IfOk result (λ name. name ≡ bytes.now) }
        ensures accepted { OnOk result (name_fault bytes.now ≡ None) }
        ensures refused { IfErr result
            (λ fault. (name_fault bytes.now ≡ Some fault) ⊎ ((fault ≡ Memory) × (name_fault bytes.now ≡ None))) }
    {
        if let Some(fault) = fault_of(bytes) {
            return Err(fault);
        }
        let bytes = ArcSlice::from_slice(alloc, bytes)?;
        Ok(Name { bytes })
    }

    /// A copy of the name: one more owner of its bytes, and no new memory.
    pub fn copy(&self, _alloc: Global) -> Result<Name, AllocError>
        ensures { IfOk result (λ name. name ≡ self.now) }
    {
        let bytes = self.bytes.clone()?;
        Ok(Name { bytes })
    }

    /// The bytes, which are text.
    pub fn as_bytes(&self) -> &[u8]
        ensures value { result.now ≡ self.now }
        ensures faultless { name_fault self.now ≡ None }
        ensures utf8 { IsUtf8 self.now }
    {
        self.bytes.as_slice()
    }

    /// The name as text.
    pub fn as_str(&self) -> &str
        ensures { result.now ≡ self.now }
    {
        match str::from_utf8(self.as_bytes()) {
            Ok(text) => text,
            Err(_) => unreachable!(),
        }
    }
}

impl PartialEq for Name {
    ghost eq = { name_eq };

    ghost laws = { partial_equiv_from_equiv nat_list_eq_equiv };

    fn eq(&self, other: &Name) -> bool {
        self.bytes.as_slice() == other.bytes.as_slice()
    }
}

impl Eq for Name {
    ghost laws = { nat_list_eq_equiv };
}

/// Names are ordered by their bytes, a beginning first.
impl Ord for Name {
    ghost cmp = { name_cmp };

    ghost total = { nat_list_cmp_total };

    ghost matches_partial_cmp = { λ x y. refl };

    ghost matches_eq = { texts_ties };

    fn cmp(&self, other: &Name) -> Ordering {
        self.bytes.as_slice().cmp(other.bytes.as_slice())
    }
}

impl PartialOrd for Name {
    ghost partial_cmp = { λ x y. Some (name_cmp x y) };

    ghost laws = { texts_po };

    fn partial_cmp(&self, other: &Name) -> Option<Ordering> {
        Some(self.cmp(other))
    }
}

/// A copy of the names.
pub fn copy_names(alloc: Global, names: &[Name]) -> Result<Vec<Name>, AllocError>
    ensures { IfOk result (λ copied. copied.items ≡ names.now) }
{
    let mut copied = Vec::with_capacity(alloc, names.len())?;
    for name in names {
        copied.push(name.copy(alloc)?)?;
    }
    Ok(copied)
}

/// Each name is without fault. Of a slice contracts see lists of bytes alone: this says again what the type keeps.
pub(crate) fn each_is_name(names: &[Name])
    ensures { All (λ name. name_fault name ≡ None) names.now }
{
    for name in names {
        name.as_bytes();
    }
}

/// The first cause for which these bytes are no name.
fn fault_of(bytes: &[u8]) -> Option<NameError>
    ensures { result ≡ name_fault bytes.now }
{
    match bytes {
        [] => Some(NameError::Empty),
        [b'.'] => Some(NameError::Dot),
        [b'.', b'.'] => Some(NameError::DotDot),
        _ if bytes.contains(&b'/') => Some(NameError::Slash),
        _ if bytes.contains(&0) => Some(NameError::Nul),
        _ if !is_utf8(bytes) => Some(NameError::NotUtf8),
        _ => None,
    }
}

/// Whether these bytes are a name.
pub(crate) fn is_name(bytes: &[u8]) -> bool
    ensures { result ≡ is_none (name_fault bytes.now) }
{
    fault_of(bytes).is_none()
}

fn is_utf8(bytes: &[u8]) -> bool
    ensures { result ≡ is_utf8 bytes.now }
{
    str::from_utf8(bytes).is_ok()
}
