// The key ledger: a console's number, what it has used of a key's capacity, its last nonce, and the
// data that it keeps under names, above plain sealing.
#![tactic(auto)]

mod carrying;
mod checks;
mod headings;
mod known;
mod ledger;

pub use ledger::{Heading, Ledger, NOTHING, Outcome, make, seal_in_place};
