//! What bytes are read into.
ghost use Rattle.std.specs.Prelude.{◌≡◌, All, IfOk, vec_len};

use std::alloc::{AllocError, Global};

/// So many zero bytes, to read into.
pub fn zeros(alloc: Global, length: usize) -> Result<Vec<u8>, AllocError>
    ensures length { IfOk result (λ bytes. vec_len bytes ≡ length) }
    ensures zeros { IfOk result (λ bytes. All (λ byte. byte ≡ 0) bytes.items) }
{
    vec![in alloc; 0; length]
}
