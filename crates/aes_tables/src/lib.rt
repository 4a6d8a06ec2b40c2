// The tables that the rounds of AES read, as two constants. They are large, so they have a crate to
// themselves.
#![tactic(auto)]

mod round;

pub use round::{forward, inverses};
