// The answers of all calls: rows of checks, the first that applies, the table of numbers and words,
// and the refusals of the code.
#![tactic(auto)]

mod refusals;

pub use refusals::{Refusal, number_of};
