// What every form begins with: R, the first offset, T_A, and C_0.
ghost use Rattle.std.specs.Prelude.{◌≡◌, ◌≤◌, length};
ghost use Rattle.octets.specs.Xor.{xors};
ghost use Rattle.cba_mode.specs.Offsets.{leading};
ghost use Rattle.cba_sealing.specs.Calls.{Covered};

use crate::pieces::{mask, nonce_block, right_aligned};
use crate::record::Record;
use aes::Encryption;
use cba_steps::{Halves, start};

// The first offset, and T_A with zeros before it.
#[derive(Clone, Copy)]
pub struct Begun {
    pub offset: Halves,
    pub data: [u8; 16],
}

// C_0 over the first bytes of out, from M_0; or M_0, from C_0.
pub fn cover(e: &Encryption, r: &Record, first: &[u8], out: &mut [u8]) -> Begun
    requires first_len_bound { length first.now ≤ 16 }
    requires first_in_bounds { length first.now ≤ length out.old }
    ensures { Covered e.now r.now.p r.now.nonce.now r.now.sum first.now out.old result out.new }
{
    let block = e.encrypt(nonce_block(r.p, r.nonce));
    mask(block, 16 - first.len(), first, out);
    Begun {
        offset: start(block, r.p.first_bits()),
        data: right_aligned(&r.sum[..r.p.tag_bytes()]),
    }
}

// T = T_A ⊕ C_0, with zeros before each. T is the end of this block, and goes on as a slice of at most 16
// bytes, which each function says: a type of tags is no plainer, since all read it as a slice.
pub fn full_tag(data_tag: [u8; 16], c: &[u8]) -> [u8; 16]
    requires { length c.now ≤ 16 }
    ensures { result ≡ xors data_tag (leading 16 c.now) }
{
    octets::xor_block(data_tag, right_aligned(c))
}
