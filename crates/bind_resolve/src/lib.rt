//! Names resolved: what a statement sees, the objects and columns that its names stand for, expressions and queries with places
//! for names, and the types of resolved statements. Each name is looked up once.
#![tactic(auto)]

mod expressions;
mod names;
mod queries;
mod resolved;
mod scope;

pub use expressions::{assignments, condition, places, tuples};
pub use names::{all_new, known, new_object};
pub use queries::query;
pub use resolved::{Column, Joined, NamedItem, Resolved, ResolvedQuery, Scope};
pub use scope::{names_of, scope_of_object, scope_of_one};
