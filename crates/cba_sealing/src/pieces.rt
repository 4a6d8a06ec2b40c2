// Pieces that the forms of sealing are made of.
ghost use Rattle.std.specs.Prelude.{◌≡◌, ◌++◌, ◌∷◌, ◌+◌, ◌≤◌, length, drop};
ghost use Rattle.cba_mode.specs.Offsets.{leading};
ghost use Rattle.cba_sealing.specs.Calls.{masked_by};

use aes_schedule::{Words, join, word_at, write};
use cba_steps::Parameters;

// The block that R is the encryption of.
pub fn nonce_block(p: Parameters, nonce: &[u8]) -> [u8; 16]
    requires { length nonce.now ≡ 12 }
    ensures { result ≡ 0 ∷ 0 ∷ p.tau ∷ p.capacity ∷ nonce.now }
{
    write(Words {
        a: join(0, 0, p.tau, p.capacity),
        b: word_at(nonce, 0),
        c: word_at(nonce, 4),
        d: word_at(nonce, 8),
    })
}

// A string plus the bytes of a block from a place on, over the first bytes of out.
pub fn mask(block: [u8; 16], at: usize, s: &[u8], out: &mut [u8])
    requires s_bound { at + length s.now ≤ 16 }
    requires s_in_bounds { length s.now ≤ length out.old }
    ensures { out.new ≡ masked_by at block s.now ++ drop (length s.now) out.old }
{
    for i in 0..s.len() {
        out[i] = s[i] ^ block[at + i];
    }
}

// A string with zeros before it, up to a block.
pub fn right_aligned(s: &[u8]) -> [u8; 16]
    requires { length s.now ≤ 16 }
    ensures { result ≡ leading 16 s.now }
{
    let mut r = [0u8; 16];
    let at = 16 - s.len();
    octets::put(&mut r[at..], s);
    r
}
