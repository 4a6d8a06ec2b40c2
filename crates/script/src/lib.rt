// What the programs that run scripts of calls share: the parts of a record, strings from a seed, and
// what a line shows.
//
// No contract can say which bytes a call of C's writes, so what a line shows is held to the programs'
// file stdout.
#![tactic(auto)]

mod lines;
mod records;
mod strings;

pub use lines::{print_bytes, print_flag, print_nothing, print_number, print_output};
pub use records::{Record, next_record};
pub use strings::fill;
