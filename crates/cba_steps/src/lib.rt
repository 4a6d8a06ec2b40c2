// The steps of the mode in code: parameters, forms, offsets, padding, and the associated data.
#![tactic(auto)]

mod associated;
mod endings;
mod offsets;
mod parameters;

pub use associated::data_hash;
pub use endings::{Ending, ending_of};
pub use offsets::{Halves, doubled, pad, split, start, step, step_block, whole, words};
pub use parameters::Parameters;
