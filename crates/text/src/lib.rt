// Text of bytes: decimal numbers and hex strings, read and written.
#![tactic(auto)]

mod decimal;
mod hex;
mod writer;

pub use decimal::read_set_number;
pub use hex::{is_value, read_value};
pub use writer::Writer;
