//! Callers of `vortex_mask` and `mask_bits` as their readers write them, on public contracts alone.
#![tactic(auto)]

pub mod column_filter;
pub mod lent_lists;
pub mod nulls;
pub mod own_deposit;
pub mod planner;
pub mod renumbering;
pub mod row_groups;
#[cfg(test)]
mod tests;
pub mod validity;
