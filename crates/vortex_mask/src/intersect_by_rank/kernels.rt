//! The kernels, one for each `RankPath`.

// rust: visible
mod bit_buffers;
mod indices;
mod mask_driven;
mod rank_blocks;
mod rank_indices;
mod rank_lists;
mod word_loop;

pub(super) use bit_buffers::intersect_bit_buffers_with;
pub use bit_buffers::{intersect_bit_buffers, narrow_by_bits, narrow_words};
pub use indices::intersect_by_rank_indices;
pub(super) use indices::intersect_by_rank_indices_with;
pub use mask_driven::intersect_mask_driven;
pub(super) use mask_driven::intersect_mask_driven_with;
pub(super) use rank_indices::intersect_bit_buffer_by_rank_indices_with;
pub use rank_indices::{intersect_bit_buffer_by_rank_indices, narrow_at_ranks};
pub(super) use word_loop::RankWords;
