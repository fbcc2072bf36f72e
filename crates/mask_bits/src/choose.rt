//! Values and rows chosen at the true values.

pub mod bits;
pub mod rows;
// rust: visible
mod rows_of_word;
pub mod small_rows;
