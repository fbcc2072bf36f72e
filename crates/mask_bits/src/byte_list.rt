//! Lists of bytes that buffers are made of.

ghost use Rattle.std.specs.Prelude.{◌≡◌, IfOk, vec_len};

use std::alloc::{AllocError, Global};

/// A list of bytes that becomes a buffer's.
pub type ByteList = Vec<u8>;

/// The bytes of a list, which aren't copied.
pub fn byte_list(list: Vec<u8>) -> ByteList
    ensures { result ≡ list }
{
    list
}

/// Room for so many bytes, which is written before it is read: what it holds has no meaning.
pub fn unwritten(alloc: Global, count: usize) -> Result<ByteList, AllocError>
    ensures { IfOk result (λ b. vec_len b ≡ count) }
{
    vec![in alloc; 0u8; count]
}
