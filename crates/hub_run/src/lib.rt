// The hub program between its standard input and its standard output: chunks in, text out.
#![tactic(auto)]

mod chunk;
mod ending;
mod kept;
mod line;
mod state;
mod summary;

pub use chunk::Fed;
pub use kept::{LINE_KEPT, Line};
pub use state::{Hub, is_over, put_heading};
