//! The proved loops over bitmaps for programs in C and Rust: a bitmap is bytes, a bit offset and a
//! length, and a result goes into room that the caller lends.
#![tactic(auto)]

mod append;
mod bitmap;
mod bools;
mod choose;
mod choose_bits;
mod compare;
mod counts;
mod fill;
mod from_indices;
mod in_place;
mod indices;
mod intersect;
mod last;
mod nullable;
mod offsets;
mod pointwise;
mod rank_words;
mod runs;
mod short_strings;
mod strings;
mod take;
mod take_bits;
mod version;
mod words;
mod write_at;
