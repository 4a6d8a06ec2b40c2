// The exports of libaes.a, which C calls: those of aes, and nothing else.
#![tactic(auto)]

ghost use Rattle.std.specs.Prelude.{◌≡◌};
ghost use Rattle.fips197.specs.Cipher.{cipher, inv_cipher};
ghost use Rattle.aes.specs.Context.{answer, answered};

// Encrypts a block in place and answers 0, or answers 2 and leaves the block where the key has
// not 16, 24 or 32 bytes.
#[unsafe(no_mangle)]
pub extern "C" fn aes_encrypt(key: &[u8], block: &mut [u8; 16]) -> u32
    ensures value { result ≡ answer key.now }
    ensures block_after { block.new ≡ answered cipher key.now block.old }
{
    aes::aes_encrypt(key, block)
}

// Decrypts a block in place, and answers as aes_encrypt does.
#[unsafe(no_mangle)]
pub extern "C" fn aes_decrypt(key: &[u8], block: &mut [u8; 16]) -> u32
    ensures value { result ≡ answer key.now }
    ensures block_after { block.new ≡ answered inv_cipher key.now block.old }
{
    aes::aes_decrypt(key, block)
}
