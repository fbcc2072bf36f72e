//! Small rows that are moved several at once: whether they are, and by what.
//!
//! The Rust package has a module by hand in place of this one, which asks what the processor has.

use crate::choose::small_rows::ByTable;

/// Whether several rows of one byte are moved at once.
#[inline(always)]
pub fn moves_bytes() -> bool {
    true
}

/// What moves them, where the answer is yes.
pub type Moved = ByTable;
