//! The indices that two ascending lists have in common, and those of a list at which a bitmap is true.
//!
//! No list is tested for its order: whatever stands in them the calls end, and what they find is said where both ascend.

ghost use Rattle.std.specs.Prelude.{◌≡◌, ◌+◌, ◌<◌, ◌≤◌, ◌↔◌, ◌++◌, IsTrue, Some, ℕ, All, false, length, map, min, take, drop, slice_get, slice_index, slice_index_or, slice_set};
ghost use Rattle.std.specs.List.{filter};
ghost use Rattle.std.specs.List.Sorted.{IsStrictlyIncreasing};
ghost use Rattle.mask_bits.specs.Bitmap.{bitmap};
ghost use Rattle.mask_bits.specs.Buffer.{IsWithinBytes};
ghost use Rattle.mask_bits.specs.CommonIndices.{AreSplit, common};
ghost use Rattle.mask_bits.specs.Merges.{IsAt, IsFound, GoesOn, comes_to};

use crate::row_index::RowIndex;
use crate::unchecked::{item, put};

/// Writes the indices that two ascending lists have in common to the front of `out`, and returns how many these are.
///
/// Few indices are looked up in a list that is much longer, which isn't read whole, and other lists are merged. Behind what
/// is found `out` may have other indices than before, as far as the shorter list would reach.
#[tactic(auto, using(crate::proofs::Lists::CommonLemmas::common_either_way))]
pub fn put_common<N: RowIndex>(lhs: &[N], rhs: &[N], out: &mut [N]) -> usize
    requires room { min (length lhs.now) (length rhs.now) ≤ length out.old }
    ensures within { result ≤ min (length lhs.now) (length rhs.now) }
    ensures indices { IsStrictlyIncreasing (map N.row_number lhs.now) → IsStrictlyIncreasing (map N.row_number rhs.now)
        → map N.row_number (take result out.new) ≡ common (map N.row_number lhs.now) (map N.row_number rhs.now) }
    ensures behind { drop (min (length lhs.now) (length rhs.now)) out.new ≡ drop (min (length lhs.now) (length rhs.now)) out.old }
{
    if lhs.len() <= rhs.len() {
        put_common_of(lhs, rhs, out)
    } else {
        put_common_of(rhs, lhs, out)
    }
}

// Those of a list that another one has too. The list is copied to the room first, and they are moved to its front.
fn put_common_of<N: RowIndex>(list: &[N], other: &[N], out: &mut [N]) -> usize
    requires room { length list.now ≤ length out.old }
    ensures within { result ≤ length list.now }
    ensures indices { IsStrictlyIncreasing (map N.row_number list.now) → IsStrictlyIncreasing (map N.row_number other.now)
        → map N.row_number (take result out.new) ≡ common (map N.row_number list.now) (map N.row_number other.now) }
    ensures behind { drop (length list.now) out.new ≡ drop (length list.now) out.old }
{
    let room = &mut out[..list.len()];
    room.copy_from_slice(list);
    move_found(room, other)
}

/// Moves the indices of an ascending list that another one has too to its front, and returns how many these are.
pub fn keep_common<N: RowIndex>(list: &mut [N], other: &[N]) -> usize
    ensures within { result ≤ length list.new }
    ensures indices { IsStrictlyIncreasing (map N.row_number list.old) → IsStrictlyIncreasing (map N.row_number other.now)
        → map N.row_number (take result list.new) ≡ common (map N.row_number list.old) (map N.row_number other.now) }
{
    move_found(list, other)
}

// The same, as merges tell of it.
fn move_found<N: RowIndex>(list: &mut [N], other: &[N]) -> usize
    ensures { IsFound (map N.row_number list.old) (map N.row_number other.now) (map N.row_number list.new) result }
{
    if list.len() <= other.len() / 16 {
        look_up(list, other)
    } else {
        merge(list, other)
    }
}

/// Writes those of a list of indices at which a bitmap is true to the front of `out`, in their order, and returns how many
/// these are. Indices may come in any order and more than once. Behind what is found `out` may have other indices than
/// before, as far as the list would reach.
pub fn put_true<N: RowIndex>(
    bytes: &[u8],
    offset: usize,
    len: usize,
    indices: &[N],
    out: &mut [N],
) -> usize
    requires bitmap { IsWithinBytes bytes.now offset len }
    requires within { All (λ i. N.row_number i < len) indices.now }
    requires room { length indices.now ≤ length out.old }
    ensures within { result ≤ length indices.now }
    ensures indices { take result out.new
        ≡ filter (λ i. slice_index_or (bitmap bytes.now offset len) (N.row_number i) false) indices.now }
    ensures behind { drop (length indices.now) out.new ≡ drop (length indices.now) out.old }
{
    let mut found = 0;
    // (with no branch, since it can't be foreseen which values are true)
    for k in 0..indices.len() {
        let index = item(indices, k);
        put(out, found, index);
        found += is_true(bytes, offset, len, index.get()) as usize;
    }
    found
}

// Whether value `i` is true.
#[inline(always)]
fn is_true(bytes: &[u8], offset: usize, len: usize, i: usize) -> bool
    requires bitmap { IsWithinBytes bytes.now offset len }
    requires within { i < len }
    ensures { result ≡ slice_index_or (bitmap bytes.now offset len) i false }
{
    let position = offset + i;
    (item(bytes, position / 8) >> (position % 8)) & 1 == 1
}

// The number at a place.
#[inline(always)]
fn number_at<N: RowIndex>(items: &[N], i: usize) -> usize
    requires { i < length items.now }
    ensures read { slice_get (map N.row_number items.now) i ≡ Some result }
    ensures index { slice_index (map N.row_number items.now) i ≡ result }
{
    item(items, i).get()
}

// Copies the index at one place to another, and returns its number.
#[inline(always)]
fn copy_to<N: RowIndex>(items: &mut [N], from: usize, to: usize) -> usize
    requires from { from < length items.old }
    requires to { to < length items.old }
    ensures read { slice_get (map N.row_number items.old) from ≡ Some result }
    ensures written { map N.row_number items.new ≡ slice_set (map N.row_number items.old) to result }
{
    let index = item(items, from);
    put(items, to, index);
    index.get()
}

// Moves the indices that a long list has too to the front of a short one, and tells how many these are. Each is looked
// up from the place of the one before it on.
fn look_up<N: RowIndex>(short: &mut [N], long: &[N]) -> usize
    ensures { IsFound (map N.row_number short.old) (map N.row_number long.now) (map N.row_number short.new) result }
{
    let (mut from, mut found) = (0, 0);
    for i in 0..short.len() {
        let index = number_at(short, i);
        from = place_of(long, from, index);
        if from < long.len() && number_at(long, from) == index {
            copy_to(short, i, found);
            found += 1;
        }
    }
    found
}

// How many indices are below `least`, which those before place `from` are: sought in strides that double, and then by
// halves.
fn place_of<N: RowIndex>(list: &[N], from: usize, least: usize) -> usize
    requires { from ≤ length list.now }
    ensures within { result ≤ length list.now }
    ensures split { IsStrictlyIncreasing (map N.row_number list.now)
        → ((k : ℕ) → k < from → slice_index (map N.row_number list.now) k < least)
        → AreSplit (map N.row_number list.now) result least }
{
    let (mut low, mut high) = (from, from);
    while high < list.len() && number_at(list, high) < least {
        low = high + 1;
        high = high.saturating_add(low - from);
    }
    place_between(list, low, high.min(list.len()), least)
}

// How many indices are below `least`, which those before place `low` are, and none from `high` on is.
fn place_between<N: RowIndex>(list: &[N], low: usize, high: usize, least: usize) -> usize
    requires order { low ≤ high }
    requires within { high ≤ length list.now }
    ensures within { result ≤ length list.now }
    ensures split { IsStrictlyIncreasing (map N.row_number list.now)
        → ((k : ℕ) → k < low → slice_index (map N.row_number list.now) k < least)
        → ((k : ℕ) → high ≤ k → k < length list.now → least ≤ slice_index (map N.row_number list.now) k)
        → AreSplit (map N.row_number list.now) result least }
{
    let (mut low, mut high) = (low, high);
    while low < high {
        let middle = low + (high - low) / 2;
        if number_at(list, middle) < least {
            low = middle + 1;
        } else {
            high = middle;
        }
    }
    low
}

// Moves the indices that another list has too to the front of a list, and tells how many these are: by a merge of their
// first parts beside one of their last parts.
fn merge<N: RowIndex>(list: &mut [N], other: &[N]) -> usize
    requires { 0 < length list.old }
    ensures { IsFound (map N.row_number list.old) (map N.row_number other.now) (map N.row_number list.new) result }
{
    let at = list.len() / 2;
    let place = place_between(other, 0, other.len(), number_at(list, at));
    let (first, last) = merge_parts(list, other, at, place);
    list.copy_within(at..at + last, first);
    first + last
}

// Merges the parts of two lists before a place of each, and those from there on, each in its part of the first list,
// and tells how many indices each two have in common.
fn merge_parts<N: RowIndex>(list: &mut [N], other: &[N], at: usize, place: usize) -> (usize, usize)
    requires within_list { at ≤ length list.old }
    requires within_other { place ≤ length other.now }
    ensures first { IsFound (take at (map N.row_number list.old)) (take place (map N.row_number other.now))
        (take at (map N.row_number list.new)) result.0 }
    ensures last { IsFound (drop at (map N.row_number list.old)) (drop place (map N.row_number other.now))
        (drop at (map N.row_number list.new)) result.1 }
{
    let (first, last) = list.split_at_mut(at);
    merge_both(first, &other[..place], last, &other[place..])
}

// Merges two pairs of lists. A step of the one needs nothing of the other's, so both are under way at once.
fn merge_both<N: RowIndex>(
    first: &mut [N],
    other: &[N],
    last: &mut [N],
    last_other: &[N],
) -> (usize, usize)
    ensures first { IsFound (map N.row_number first.old) (map N.row_number other.now) (map N.row_number first.new) result.0 }
    ensures last { IsFound (map N.row_number last.old) (map N.row_number last_other.now) (map N.row_number last.new) result.1 }
{
    let (mut at, mut last_at) = (Places::default(), Places::default());
    while at.have_eight(first, other) && last_at.have_eight(last, last_other) {
        at = eight_steps(first, other, at);
        last_at = eight_steps(last, last_other, last_at);
    }
    let found = merge_rest(first, other, at);
    (found, merge_rest(last, last_other, last_at))
}

// Merges what is left of two lists, and tells how many indices both have.
fn merge_rest<N: RowIndex>(list: &mut [N], other: &[N], at: Places) -> usize
    requires { IsAt (map N.row_number list.old) (map N.row_number other.now) at.list at.other at.found }
    ensures within { result ≤ length list.new }
    ensures found { IsStrictlyIncreasing (map N.row_number other.now) → IsStrictlyIncreasing (drop at.list (map N.row_number list.old))
        → take result (map N.row_number list.new)
        ≡ comes_to (map N.row_number list.old) (map N.row_number other.now) at.list at.other at.found }
{
    let mut at = at;
    while at.have_eight(list, other) {
        at = eight_steps(list, other, at);
    }
    while at.list < list.len() && at.other < other.len() {
        at = step(list, other, at);
    }
    at.found
}

// Eight steps, of which none is tested for the end of a list. Where the next eight indices of a list are below all that
// the other one has left, as in long runs of one list, they are passed at once.
// rust: inline
#[inline]
fn eight_steps<N: RowIndex>(list: &mut [N], other: &[N], at: Places) -> Places
    requires left_list { at.list + 8 ≤ length list.old }
    requires left_other { at.other + 8 ≤ length other.now }
    requires under_way { IsAt (map N.row_number list.old) (map N.row_number other.now) at.list at.other at.found }
    ensures merged { GoesOn (map N.row_number list.old) (map N.row_number list.new) (map N.row_number other.now)
        at.list at.other at.found result.list result.other result.found }
    ensures goes_on { at.list + at.other < result.list + result.other }
{
    if number_at(list, at.list + 7) < number_at(other, at.other) {
        return Places {
            list: at.list + 8,
            ..at
        };
    }
    if number_at(other, at.other + 7) < number_at(list, at.list) {
        return Places {
            other: at.other + 8,
            ..at
        };
    }
    let mut next = at;
    for k in 0..8usize {
        next = step(list, other, next);
    }
    next
}

// Passes the lower of the next indices of two lists, or both where they are equal, and keeps it then, behind those that
// were kept before. With no branch, since it can't be foreseen which one is lower.
#[inline]
fn step<N: RowIndex>(list: &mut [N], other: &[N], at: Places) -> Places
    requires left_list { at.list < length list.old }
    requires left_other { at.other < length other.now }
    requires under_way { IsAt (map N.row_number list.old) (map N.row_number other.now) at.list at.other at.found }
    ensures merged { GoesOn (map N.row_number list.old) (map N.row_number list.new) (map N.row_number other.now)
        at.list at.other at.found result.list result.other result.found }
    ensures goes_on { at.list + at.other < result.list + result.other }
    ensures list_by_one { result.list ≤ at.list + 1 }
    ensures other_by_one { result.other ≤ at.other + 1 }
{
    let left = copy_to(list, at.list, at.found);
    let right = number_at(other, at.other);
    Places {
        list: at.list + (left <= right) as usize,
        other: at.other + (right <= left) as usize,
        found: at.found + (left == right) as usize,
    }
}

// Where a merge stands: a place in each list, and how many indices before these places both have.
#[derive(Clone, Copy, Default)]
struct Places {
    list: usize,
    other: usize,
    found: usize,
}

impl Places {
    // Whether both lists have eight indices more.
    #[inline]
    fn have_eight<N>(self, list: &[N], other: &[N]) -> bool
        requires within_list { self.list ≤ length list.now }
        requires within_other { self.other ≤ length other.now }
        ensures { IsTrue result ↔ ((self.list + 8 ≤ length list.now) × (self.other + 8 ≤ length other.now)) }
    {
        list.len() - self.list >= 8 && other.len() - self.other >= 8
    }
}
