//! Bytes as a tree of bencode.
ghost use Rattle.std.specs.Prelude.{◌≡◌, true, Err, IfErr, IfOk, IsOkUnless};
ghost use Rattle.tor_bencode.specs.Data.{Data};
ghost use Rattle.tor_bencode.specs.Fault.{IsRefusalOf, may_take_memory};
ghost use Rattle.tor_bencode.specs.Lawful.{IsLawful};
ghost use Rattle.tor_bencode.specs.Spelling.{spelling};
ghost use Rattle.tor_bencode.specs.View.{view};

use std::alloc::Global;
use tor_bencode::{BenError, Tree, decode};

/// The one tree that the bytes spell, or their first fault in reading order (BEP 3, "bencoding").
pub fn read(alloc: Global, bytes: &[u8]) -> Result<Tree, BenError>
    ensures tree { IfOk result (λ tree. IsLawful (view tree) × (bytes.now ≡ spelling (view tree))) }
    ensures only { (d : Data) → IsLawful d → bytes.now ≡ spelling d → IsOkUnless result BenError.Memory }
    ensures fault { IfErr result (λ refusal. IsRefusalOf bytes.now refusal) }
    ensures memory { result ≡ Err BenError.Memory → may_take_memory bytes.now ≡ true }
{
    decode(alloc, bytes)
}
