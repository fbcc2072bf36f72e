//! Which kernel narrows two masks of mixed values. `docs/DISPATCH.md` has the tests in a table, with the reason
//! of each.

ghost use Rattle.std.specs.Prelude.{◌≡◌, ◌*◌};
ghost use Rattle.mask_bits.specs.Buffer.{values};
ghost use Rattle.mask_bits.specs.Positions.{count};
ghost use Rattle.vortex_mask.specs.Path.{path_of};

use crate::mask::MaskValues;
use mask_bits::words::started_words;

/// The four kernels of rank intersection.
#[derive(Debug, Clone, Copy, PartialEq, Eq)]
pub enum RankPath {
    /// `intersect_by_rank_indices`: one list of true indices is taken at another.
    Indices,
    /// `intersect_mask_driven`: each rank is looked for in the words of self.
    MaskDriven,
    /// `intersect_bit_buffers`: the rank mask's bits are deposited into the words of self.
    BitBuffers,
    /// `intersect_bit_buffer_by_rank_indices`: bits made of a list of ranks are deposited.
    RankIndices,
}

// A word kernel looks at each word of 64 rows. Where fewer than one row in 64 is true, there are
// fewer true rows than words, and it is quicker to go over a list of these.
const ROWS_PER_TRUE_BY_INDICES: u64 = 64;

// At one rank in 32 values there are on average at most two selections for a word of rows, and about
// there they cost as much as to count and deposit each word. Fewer ranks are found one by one.
const VALUES_PER_RANK_BY_SELECTION: u64 = 32;

// A list of ranks has to be turned into bits. Above one rank in four values that takes longer than
// to read the rank mask's bits as they are.
const VALUES_PER_RANK_BY_BITS: u64 = 4;

// So many times the number of true values, which may pass 64 bits.
fn times_true(mask: &MaskValues, times: u64) -> u128
    ensures { result ≡ times * count (values mask.now.buffer) }
{
    u128::from(times) * mask.true_count() as u128
}

/// The path of two mixed masks, by their lengths, their counts and which lists of true indices are
/// cached. It makes no list.
// rust: replaced by native::quickest_path
pub fn rank_path(values: &MaskValues, ranks: &MaskValues) -> RankPath
    ensures { result ≡ path_of values.now ranks.now }
{
    let (len, rank_len) = (values.len() as u128, ranks.len() as u128);
    let is_listed = ranks.cached_indices().is_some();
    // with both lists at hand, the entries to take are fewer than the words to read
    let are_few = ranks.true_count() < started_words(values.len());
    if is_listed && values.cached_indices().is_some() && are_few {
        return RankPath::Indices;
    }
    if times_true(values, ROWS_PER_TRUE_BY_INDICES) < len {
        return RankPath::Indices;
    }
    if times_true(ranks, VALUES_PER_RANK_BY_SELECTION) < rank_len {
        return RankPath::MaskDriven;
    }
    if !is_listed || times_true(ranks, VALUES_PER_RANK_BY_BITS) > rank_len {
        return RankPath::BitBuffers;
    }
    RankPath::RankIndices
}
