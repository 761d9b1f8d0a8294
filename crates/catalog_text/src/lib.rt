//! Catalogs and bound statements of texts, for the case programs that bind.
#![tactic(auto)]

mod catalogs;

pub use catalogs::{Definitions, bound, bound_or_refused};
