//! The plan by which the relations of a bound statement are read, and the interval of an index that a part of it reads.
#![tactic(auto)]

mod intervals;
mod keys;
mod parts;
mod planning;
mod terms;

pub use intervals::interval;
pub use keys::key_bytes;
pub use object_kinds::{group_kinds, kinds_of, numbered};
pub use parts::{Equal, EqualList, Plan, PlanPart, PlanPartList, RangeTerm, RangeTermList};
pub use planning::{plan, plan_select};
