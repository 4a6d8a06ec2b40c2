// AES of FIPS 197, with keys of 128, 192 and 256 bits, in both directions.
//
// A caller that uses a key for several blocks holds its context, and that for decryption where it
// decrypts. aes_encrypt and aes_decrypt do all of that for one block.
#![tactic(auto)]

mod cipher;
mod context;
mod inverse;
mod inverse_keys;
mod pairs;
mod table;

ghost use Rattle.std.specs.Prelude.{◌≡◌};
ghost use Rattle.fips197.specs.Cipher.{cipher, inv_cipher};
ghost use Rattle.aes.specs.Context.{answer, answered};

pub use context::{
    Context, Decryption, Encryption, Inverse, blank, blank_inverse, fill, fill_inverse, is_key,
};
pub use pairs::{Blocks, Pair};

// Encrypts a block in place and answers 0, or answers 2 and leaves the block where the key has
// not 16, 24 or 32 bytes.
#[unsafe(no_mangle)]
pub extern "C" fn aes_encrypt(key: &[u8], block: &mut [u8; 16]) -> u32
    ensures value { result ≡ answer key.now }
    ensures block_after { block.new ≡ answered cipher key.now block.old }
{
    if is_key(key) {
        let mut ctx = blank();
        let e = Encryption::new(key, &mut ctx);
        *block = e.encrypt(*block);
        return 0;
    }
    2
}

// Decrypts a block in place, and answers as aes_encrypt does.
#[unsafe(no_mangle)]
pub extern "C" fn aes_decrypt(key: &[u8], block: &mut [u8; 16]) -> u32
    ensures value { result ≡ answer key.now }
    ensures block_after { block.new ≡ answered inv_cipher key.now block.old }
{
    if is_key(key) {
        let mut ctx = blank();
        let e = Encryption::new(key, &mut ctx);
        let mut inv = blank_inverse();
        let d = Decryption::new(&e, &mut inv);
        *block = d.decrypt(*block);
        return 0;
    }
    2
}
