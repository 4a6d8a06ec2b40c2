// The lines of the hub program: their words, and what a line asks for.
#![tactic(auto)]

mod cut;
mod request;

pub use cut::{Words, length_before, six_words};
pub use request::{Act, Asked, BYTES_ROOM, LINE_LIMIT, is_word, read_line, word};
