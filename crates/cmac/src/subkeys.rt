// The subkeys.
ghost use Rattle.std.specs.Prelude.{◌≡◌};
ghost use Rattle.fips197.specs.Cipher.{cipher};
ghost use Rattle.cmac_rules.specs.Cmac.{double, K1, K2};

use aes::Encryption;
use cba_steps::{Halves, split, whole};

// Twice a block in the field of 2^128, with no branch on its bits.
fn double(x: [u8; 16]) -> [u8; 16]
    ensures { result ≡ double x }
{
    let Halves { a, b } = split(x);
    whole(Halves {
        a: (a << 1) + (b >> 63),
        b: (b << 1) ^ ((a >> 63) * 0x87),
    })
}

#[derive(Clone, Copy)]
pub struct Subkeys {
    pub k1: [u8; 16],
    pub k2: [u8; 16],
}

// From L, the encryption of zeros.
pub fn generate_subkeys(e: &Encryption) -> Subkeys
    ensures { (result.k1 ≡ K1 (cipher e.now)) × (result.k2 ≡ K2 (cipher e.now)) }
{
    let k1 = double(e.encrypt([0; 16]));
    Subkeys { k1, k2: double(k1) }
}
