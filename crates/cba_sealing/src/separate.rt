// The separate form's end: a last block of its own length, and the tag after it.
ghost use Rattle.std.specs.Prelude.{◌≡◌, ◌+◌, ◌≤◌, length};
ghost use Rattle.fips197.specs.Cipher.{cipher};
ghost use Rattle.cba_mode.specs.Seal.{last_offset};
ghost use Rattle.cba_steps.specs.Halves.{halves_of};
ghost use Rattle.cba_sealing.specs.Calls.{LastBlock, tag_block, SeparateEnd};

use crate::blocks::Running;
use crate::pieces::{mask, right_aligned};
use aes::Encryption;
use aes_schedule::write;
use cba_steps::{Halves, pad, step, step_block};

// C_m over the first bytes of out, from M_m; or M_m, from C_m.
pub fn last_block(e: &Encryption, tag: &[u8], offset: Halves, last: &[u8], out: &mut [u8])
    requires tag_len_bound { length tag.now ≤ 16 }
    requires last_len_bound { length last.now ≤ 16 }
    requires last_in_bounds { length last.now ≤ length out.old }
    ensures { LastBlock e.now offset tag.now last.now out.old out.new }
{
    let x = octets::xor_block(right_aligned(tag), step_block(2, 4, offset));
    mask(e.encrypt(x), 0, last, out);
}

// The offset of the tag, after a last block of n bytes.
fn last_offset(offset: Halves, n: usize) -> [u8; 16]
    ensures { result ≡ last_offset (halves_of offset) n }
{
    let d = step(2, 4, offset);
    if n < 16 {
        return step_block(3, 5, d);
    }
    step_block(5, 3, d)
}

// The block whose first t bytes are C_{m+1}.
pub fn tag_block(e: &Encryption, tag: &[u8], offset: Halves, sum: [u8; 16], last: &[u8]) -> [u8; 16]
    requires tag_len_bound { length tag.now ≤ 16 }
    ensures { result ≡ tag_block (cipher e.now) (halves_of offset) tag.now sum last.now }
{
    let s = octets::xor_block(sum, pad(last));
    let x = octets::xor_block(s, right_aligned(tag));
    e.encrypt(octets::xor_block(x, last_offset(offset, last.len())))
}

// C_m C_{m+1} over the first bytes of out, after the full blocks.
pub fn separate_end(e: &Encryption, tag: &[u8], s: Running, last: &[u8], out: &mut [u8])
    requires tag_len_bound { length tag.now ≤ 16 }
    requires last_len_bound { length last.now ≤ 16 }
    requires tag_in_bounds { length last.now + length tag.now ≤ length out.old }
    ensures { SeparateEnd e.now tag.now s last.now out.old out.new }
{
    last_block(e, tag, s.offset, last, out);
    let block = tag_block(e, tag, s.offset, write(s.sum), last);
    octets::put(&mut out[last.len()..], &block[..tag.len()]);
}
