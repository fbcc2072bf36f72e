//! Masks: lists of truth values that say which rows are chosen, and their rank intersection.
#![tactic(auto)]

// rust: visible
mod bitops;
// rust: replaced by kit::cached_list
#[doc(hidden)]
pub mod cached_list;
pub mod conditions;
mod eq;
pub mod intersect_by_rank;
pub mod laws;
// rust: visible
mod mask;

pub use mask::{
    AllOr, Fraction, Mask, MaskBoolIter, MaskError, MaskIter, MaskSetIndices, MaskSetSlices,
    MaskValues, MaskValuesRef, index_fault, range_fault,
};
