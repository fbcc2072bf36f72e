//! Why a call on masks is refused.

ghost use Rattle.std.specs.Prelude.{◌≡◌, alloc_error};
ghost use Rattle.vortex_mask.specs.declared.mask.error.MaskError.TheVariants.{Memory};

use std::alloc::{AllocError, AllocFailed};
use thiserror::Error;

/// Why a call on masks was refused.
#[derive(Debug, Drop, Error, PartialEq, Eq)]
pub enum MaskError {
    /// Out of memory.
    #[error("out of memory")]
    Memory(AllocError),
    /// The index at place `at` is below the one before it.
    #[error("index at place {at} is below the one before it")]
    UnsortedIndices { at: usize },
    /// The index at place `at` equals the one before it.
    #[error("index at place {at} repeats the one before it")]
    RepeatedIndex { at: usize },
    /// An index is not below the length.
    #[error("index {index} is not below the length {len}")]
    IndexOutOfBounds { index: usize, len: usize },
    /// The range at place `at` is empty or ends past the length.
    #[error("range at place {at} is empty or passes the length")]
    BadRange { at: usize },
    /// The range at place `at` does not start above the start of the one before it.
    #[error("range at place {at} does not start after the one before it")]
    UnsortedRanges { at: usize },
    /// The range at place `at` starts below the end of the one before it.
    #[error("range at place {at} overlaps the one before it")]
    OverlappingRanges { at: usize },
    /// The sum of the lengths is above `usize::MAX`.
    #[error("the sum of the lengths does not fit")]
    LengthOverflow,
}

impl From<AllocError> for MaskError {
    ghost from_gives = { λ e r. r ≡ Memory e };

    fn from(error: AllocError) -> MaskError {
        MaskError::Memory(error)
    }
}

impl<T: Drop> From<AllocFailed<T>> for MaskError {
    ghost from_gives = { λ _ r. r ≡ Memory alloc_error };

    fn from(_failed: AllocFailed<T>) -> MaskError {
        MaskError::Memory(AllocError)
    }
}
