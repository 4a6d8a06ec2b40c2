// The key schedule of AES, and the words that it and the rounds work on.
#![tactic(auto)]

mod schedule;
mod words;

pub use schedule::{boxed, boxed_word, expand};
pub use words::{Words, byte, join, look_up, read, word_at, words_at, write};
