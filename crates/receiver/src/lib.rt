// A receiver: a key, the number that its nonces begin with, and a window over their counters, above
// plain opening.
#![tactic(auto)]

mod checks;
mod nonce;
mod receiver;
mod window;

pub use receiver::{Outcome, Receiver, make};
pub use window::Window;
