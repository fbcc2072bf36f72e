//! Why a command prints no line.

ghost use Rattle.std.specs.Prelude.{◌≡◌, alloc_error};
ghost use Rattle.maskrun.specs.declared.error.RunError.TheVariants as run_error;
ghost use Rattle.vortex_mask.specs.declared.mask.error.MaskError.TheVariants.{Memory};

use std::alloc::{AllocError, AllocFailed};
use thiserror::Error;
use vortex_mask::MaskError;

/// Why a command printed no line.
#[derive(Debug, Drop, Error)]
pub enum RunError {
    /// An unknown command, none, or a wrong number of arguments.
    #[error("usage: maskrun COMMAND WORDS")]
    Usage,
    /// The byte at place `at` of argument number `word` is the first that is neither `0` nor
    /// `1`, or the argument is empty, and `at` is 0.
    #[error("word {word}: byte {at} is not 0 or 1")]
    BadBit { word: usize, at: usize },
    /// A mask has `got` values where it has to have `want`.
    #[error("length {got} where {want} is needed")]
    LengthsDiffer { want: usize, got: usize },
    /// Argument number `word` is not one or more ASCII digits whose value fits 64 bits.
    #[error("word {word}: not a number")]
    BadNumber { word: usize },
    /// The number in argument `word` lies outside of the mask.
    #[error("word {word}: out of range")]
    OutOfRange { word: usize },
    /// A call on masks was refused.
    #[error(transparent)]
    Mask(MaskError),
}

impl From<MaskError> for RunError {
    ghost from_gives = { λ e r. r ≡ run_error.Mask e };

    fn from(error: MaskError) -> RunError {
        RunError::Mask(error)
    }
}

impl From<AllocError> for RunError {
    ghost from_gives = { λ e r. r ≡ run_error.Mask (Memory e) };

    fn from(error: AllocError) -> RunError {
        RunError::Mask(MaskError::Memory(error))
    }
}

impl<T: Drop> From<AllocFailed<T>> for RunError {
    ghost from_gives = { λ _ r. r ≡ run_error.Mask (Memory alloc_error) };

    fn from(_failed: AllocFailed<T>) -> RunError {
        RunError::Mask(MaskError::Memory(AllocError))
    }
}
