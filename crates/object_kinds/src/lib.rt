//! The kinds of the columns of tables and views.
#![tactic(auto)]

mod kinds;

pub use kinds::{
    RelationKinds, group_kinds, kind_at, kinds_at, kinds_of, kinds_of_object, kinds_of_table,
    numbered,
};
