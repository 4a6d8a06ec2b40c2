// What the hub program answers to a line, and the line of output.
#![tactic(auto)]

mod answer;
mod line;

pub use answer::{Answer, answer_line};
