//! A condition on columns with nulls, as SQL answers it: `WHERE NOT (a > 5 OR b IS NULL)`.
ghost use Rattle.std.specs.Option.{is_none, is_some};
ghost use Rattle.std.specs.Prelude.{◌≡◌, IfOk, filter, length, map};
ghost use Rattle.mask_bits.specs.Buffer.{values};
ghost use Rattle.mask_bits.specs.Nullable.{not_kleene_of, or_kleene_of};
ghost use Rattle.mask_bits.specs.NullableBuffer.{nullable_values};
ghost use Rattle.uses.specs.Nulls.{condition, has_above, is_above, is_kept, is_missing};

use mask_bits::laws::kleene_row_by_row;
use mask_bits::{BitBuffer, NullableBitBuffer};
use std::alloc::{AllocError, Global};
use vortex_mask::{Mask, MaskError};

/// A row of two columns. `None` is a null.
#[derive(Clone, Copy)]
pub struct Row {
    pub a: Option<u64>,
    pub b: Option<u64>,
}

/// `a > low` of each row, which is null where `a` is.
pub fn above(alloc: Global, rows: &[Row], low: u64) -> Result<NullableBitBuffer, AllocError>
    ensures { IfOk result (λ t. nullable_values t ≡ map (is_above low) rows.now) }
{
    kleene_row_by_row::<Row>();
    let values = above_where_present(alloc, rows, low)?;
    let validity = present(alloc, rows)?;
    Ok(NullableBitBuffer::new(values, Some(validity)))
}

// The same where `a` is there. What it says elsewhere has no meaning.
fn above_where_present(alloc: Global, rows: &[Row], low: u64) -> Result<BitBuffer, AllocError>
    ensures { IfOk result (λ b. values b ≡ map (has_above low) rows.now) }
{
    BitBuffer::from_rows(alloc, rows, |row| row.a.unwrap_or(0) > low)
}

// Where `a` is there.
fn present(alloc: Global, rows: &[Row]) -> Result<BitBuffer, AllocError>
    ensures { IfOk result (λ b. values b ≡ map (λ row. is_some row.a) rows.now) }
{
    BitBuffer::from_rows(alloc, rows, |row| row.a.is_some())
}

/// `b IS NULL` of each row, which never is null.
pub fn missing(alloc: Global, rows: &[Row]) -> Result<NullableBitBuffer, AllocError>
    ensures { IfOk result (λ t. nullable_values t ≡ map is_missing rows.now) }
{
    kleene_row_by_row::<Row>();
    let values = absent(alloc, rows)?;
    Ok(NullableBitBuffer::new(values, None))
}

// Where `b` isn't there.
fn absent(alloc: Global, rows: &[Row]) -> Result<BitBuffer, AllocError>
    ensures { IfOk result (λ b. values b ≡ map (λ row. is_none row.b) rows.now) }
{
    BitBuffer::from_rows(alloc, rows, |row| row.b.is_none())
}

// `NOT (a OR b)`.
fn neither(
    alloc: Global,
    a: &NullableBitBuffer,
    b: &NullableBitBuffer,
) -> Result<NullableBitBuffer, AllocError>
    requires { length (nullable_values a.now) ≡ length (nullable_values b.now) }
    ensures { IfOk result (λ t. nullable_values t
        ≡ not_kleene_of (or_kleene_of (nullable_values a.now) (nullable_values b.now))) }
{
    a.or_kleene(alloc, b)?.not(alloc)
}

// `NOT (a > low OR b IS NULL)` of each row.
fn answers(alloc: Global, rows: &[Row], low: u64) -> Result<NullableBitBuffer, AllocError>
    ensures { IfOk result (λ t. nullable_values t ≡ map (condition low) rows.now) }
{
    kleene_row_by_row::<Row>();
    let a = above(alloc, rows, low)?;
    let b = missing(alloc, rows)?;
    neither(alloc, &a, &b)
}

/// The rows `WHERE NOT (a > low OR b IS NULL)`: those for which the condition is true, and not those for
/// which it is null.
pub fn kept(alloc: Global, rows: &[Row], low: u64) -> Result<Vec<Row>, MaskError>
    ensures { IfOk result (λ v. v.items ≡ filter (is_kept low) rows.now) }
{
    kleene_row_by_row::<Row>();
    let answers = answers(alloc, rows, low)?;
    let filter = Mask::from_nullable(alloc, &answers)?;
    filter.choose(alloc, rows)
}
