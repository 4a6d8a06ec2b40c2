// Opening: DEC of the paper, for a key that is set.
#![tactic(auto)]

mod blocks;
mod forms;
mod joined;
mod separate;

pub use forms::dec;
