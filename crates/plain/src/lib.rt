// CBA v1-1 over AES for the ten parameter sets: plain sealing and plain opening by set number, with
// the checks that they share with other calls.
#![tactic(auto)]

mod checks;
mod open;
mod seal;
mod sets;

pub use checks::{
    MOST_DATA, ad_check, ciphertext_check, key_check, message_check, nonce_check, set_key_checks,
    start_check, whole_nonce,
};
pub use open::open_plain;
pub use seal::seal_plain;
pub use sets::lookup;
