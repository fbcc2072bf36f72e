//! Packed bits: a list of truth values, eight to a byte, at any bit offset.
#![tactic(auto)]

// A hidden module serves the other crates of this repository alone. README.md lists them.
// rust: visible
mod and_rows;
// rust: visible
mod bit_iterator;
// rust: visible
mod bitops;
#[doc(hidden)]
pub mod blocks;
#[doc(hidden)]
pub mod bools;
mod buffer;
mod buffer_mut;
// rust: replaced by kit::byte_list
#[doc(hidden)]
pub mod byte_list;
#[doc(hidden)]
pub mod byte_places;
#[doc(hidden)]
pub mod choose;
mod chunks;
#[doc(hidden)]
pub mod combine;
#[doc(hidden)]
pub mod common_indices;
#[doc(hidden)]
pub mod compare;
#[doc(hidden)]
pub mod counts;
mod eq;
#[doc(hidden)]
pub mod extract;
#[doc(hidden)]
pub mod from_rows;
#[doc(hidden)]
pub mod indices_of_word;
mod items_of_word;
#[doc(hidden)]
pub mod kleene;
pub mod laws;
mod nullable;
#[doc(hidden)]
pub mod output;
// rust: replaced by native::processor
#[doc(hidden)]
pub mod processor;
mod ranks;
mod read_word;
#[doc(hidden)]
pub mod row_index;
mod run_words;
mod scan;
mod set_indices;
mod set_slices;
// rust: replaced by kit::unchecked
#[doc(hidden)]
pub mod unchecked;
pub mod words;
#[doc(hidden)]
pub mod write_bits;

pub use bit_iterator::BitIterator;
pub use buffer::BitBuffer;
pub use buffer_mut::BitBufferMut;
pub use chunks::{BitChunks, PaddedWords, Words};
pub use nullable::NullableBitBuffer;
pub use ranks::Ranks;
pub use set_indices::SetIndices;
pub use set_slices::SetSlices;
