// The byte field of FIPS 197, and the S-box and its inverse as constant tables. The tests that are
// computed over all bytes are slow, so they have a crate to themselves.
#![tactic(auto)]

mod inv_sub;
mod sub;

pub use inv_sub::inverse_s_box;
pub use sub::s_box;
