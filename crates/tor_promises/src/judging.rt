//! Bytes judged.
ghost use Rattle.std.specs.Prelude.{◌≡◌, ◌⊎◌, true, None, Some, IfSome};
ghost use Rattle.tor_bencode.specs.Fault.{may_take_memory};
ghost use Rattle.tor_check.specs.Valid.{IsRefusedFor};
ghost use Rattle.tor_check.specs.declared.refusal.Refusal.TheVariants.{Memory};
ghost use Rattle.tor_spec.specs.valid.Conditions.{IsValid};

use std::alloc::Global;
use tor_check::{Refusal, validate};

/// Why bytes are no torrent, of version 1, of version 2, or a hybrid (BEP 3, BEP 52, BEP 47); `None` if they are one.
pub fn refusal_of(alloc: Global, bytes: &[u8]) -> Option<Refusal>
    ensures accepted { result ≡ None → IsValid bytes.now }
    ensures only { IsValid bytes.now → (result ≡ None) ⊎ (result ≡ Some Memory) }
    ensures refused { IfSome result (IsRefusedFor bytes.now) }
    ensures memory { result ≡ Some Memory → may_take_memory bytes.now ≡ true }
{
    validate(alloc, bytes).err()
}
