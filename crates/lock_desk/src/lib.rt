//! What becomes of a request for locks: it is free, it waits, or its wait would close a cycle; and the wants of pays, made ahead.
#![tactic(auto)]

mod asking;
mod pay_wants;

pub use asking::{Asked, ask};
pub use pay_wants::{OwedWants, PayWants};
