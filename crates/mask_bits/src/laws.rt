//! Laws of lists of truth values. A call of one of these does nothing when it runs: a caller's
//! proof then knows the law.

mod boolean;
mod indices;
mod nullable;
mod parts;
mod rank_intersection;
mod runs;
mod stacks;

pub use boolean::{
    and_is_free_of_order, and_not_is_and_of_not, and_or_absorb, and_or_distribute, complements,
    or_is_free_of_order,
};
pub use indices::{count_below_position, position_of_count_below, positions_determine_list};
pub use nullable::{
    kleene_by_parts, kleene_de_morgan, kleene_filter_keeps_no_null, kleene_is_not_false_of_not,
    kleene_is_true, kleene_not_twice, kleene_row_by_row, kleene_without_nulls,
};
pub use parts::{
    limit_count, limit_of_limit, part_of_concat, part_of_part, split_at_limit, without_first_count,
};
pub use rank_intersection::{
    all_true_left_unit, all_true_right_unit, choosing_twice, rank_intersection_associative,
    rank_intersection_count, rank_intersection_is_the_list, rank_intersection_of_and,
    rank_intersection_of_not, rank_intersection_position, rank_intersection_value,
};
pub use runs::{runs_are_ranges, runs_are_the_list, runs_are_unique, runs_exist};
pub use stacks::stack_folds_alike;
