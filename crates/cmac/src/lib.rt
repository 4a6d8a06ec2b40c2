// CMAC of RFC 4493 and SP 800-38B over AES, and the marks of logs made with it.
#![tactic(auto)]

mod chain;
mod marks;
mod subkeys;

pub use chain::code;
pub use marks::{check, make};
pub use subkeys::{Subkeys, generate_subkeys};
