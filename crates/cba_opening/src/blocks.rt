// The full blocks of a ciphertext, through D.
ghost use Rattle.std.specs.Prelude.{false, ◌*◌, ◌≤◌, length};
ghost use Rattle.fips197.specs.Cipher.{inv_cipher};
ghost use Rattle.cba_sealing.specs.Calls.{Blocks};

use aes::{Decryption, Encryption};
use aes_schedule::read;
use cba_sealing::{Running, full_blocks};
use cba_steps::Halves;

// The first k blocks of a ciphertext opened over the first bytes of out, from the offset before them.
// The context for decryption is made here, where there is a block for it: a short record has none.
pub fn open_blocks(
    e: &Encryption,
    start: Halves,
    ciphertext: &[u8],
    k: usize,
    out: &mut [u8],
) -> Running
    requires ciphertext_holds_k_blocks { 16 * k ≤ length ciphertext.now }
    requires out_holds_k_blocks { 16 * k ≤ length out.old }
    ensures { Blocks (inv_cipher e.now) false start ciphertext.now out.old k result out.new }
{
    if k == 0 {
        return Running {
            offset: start,
            sum: read([0; 16]),
        };
    }
    let mut inv = aes::blank_inverse();
    let d = Decryption::new(e, &mut inv);
    full_blocks(&d, start, ciphertext, k, out)
}
