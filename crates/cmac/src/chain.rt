// The code of a message: the chain over its blocks, and the last one.
ghost use Rattle.std.specs.Prelude.{◌≡◌, ◌-◌, ◌*◌, ◌≤◌, length};
ghost use Rattle.fips197.specs.Cipher.{cipher};
ghost use Rattle.cmac_rules.specs.Cmac.{blocks, chain, last_block, cmac};

use crate::subkeys::{Subkeys, generate_subkeys};
use aes::Encryption;

// X after the first n blocks, each read where it lies.
fn chain(e: &Encryption, message: &[u8], n: usize) -> [u8; 16]
    requires { 16 * n ≤ length message.now }
    ensures { result ≡ chain (cipher e.now) message.now n }
{
    let mut x = [0u8; 16];
    for i in 0..n {
        let m = octets::first_block(&message[16 * i..]);
        x = e.encrypt(octets::xor_block(x, m));
    }
    x
}

// M_last.
fn last_block(e: &Encryption, rest: &[u8]) -> [u8; 16]
    requires { length rest.now ≤ 16 }
    ensures { result ≡ last_block (cipher e.now) rest.now }
{
    let Subkeys { k1, k2 } = generate_subkeys(e);
    if rest.len() == 16 {
        return octets::xor_block(octets::first_block(rest), k1);
    }
    octets::xor_block(cba_steps::pad(rest), k2)
}

// The number of blocks before the last one, which has 1 to 16 bytes, or none.
fn before_last(len: usize) -> usize
    ensures value { result ≡ blocks len - 1 }
    ensures result_bound { (16 * result ≤ len) × (len - 16 * result ≤ 16) }
{
    len.saturating_sub(1) / 16
}

// The code of a message, in one pass.
pub fn code(e: &Encryption, message: &[u8]) -> [u8; 16]
    ensures { result ≡ cmac e.now message.now }
{
    let n = before_last(message.len());
    let x = chain(e, message, n);
    let last = last_block(e, &message[16 * n..]);
    e.encrypt(octets::xor_block(last, x))
}
