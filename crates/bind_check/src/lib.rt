//! What the tests of a resolved statement look at: the types of its expressions, the shape of queries and changes, the objects
//! that a query names, how a view joins its tables, and bytes of keys and rows. Each function computes its definition.
#![tactic(auto)]

mod column_widths;
mod joining;
mod objects;
mod shape;
mod typing;

pub use column_widths::{group_width, index_width, sums_in, widths};
pub use joining::{join_index, second_of};
pub use objects::{
    ObjectKind, as_table, count_of, have_many_readers, is_a, names_a, number_of, primary_of,
    width_of,
};
pub use shape::{
    aggregates, are_named, condition_has_arithmetic, groups_joined, have_length, is_grouping,
    is_view_list, item_named, lists_groups, repeats, sets_key, sets_twice,
};
pub use typing::{condition_typed, query_typed, sets_typed, tuples_typed};
