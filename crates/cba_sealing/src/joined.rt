// The joined form's end: the last block and the tag share one block, and the sum follows it.
ghost use Rattle.std.specs.Prelude.{◌≡◌, ◌+◌, ◌≤◌, length};
ghost use Rattle.fips197.specs.Cipher.{cipher};
ghost use Rattle.cba_mode.specs.Seal.{joined_last};
ghost use Rattle.cba_steps.specs.Halves.{halves_of};
ghost use Rattle.cba_sealing.specs.Calls.{JoinedBlock, JoinedEnd};

use crate::blocks::Running;
use crate::pieces::mask;
use aes::Encryption;
use aes_schedule::write;
use cba_steps::{Halves, doubled, pad, step_block, whole};

// C_{m-1} over the first bytes of out, from M_{m-1}, M_m and T.
fn joined_block(
    e: &Encryption,
    tag: &[u8],
    offset: Halves,
    m: [u8; 16],
    last: &[u8],
    out: &mut [u8],
)
    requires tag_len_bound { length last.now + length tag.now ≤ 16 }
    requires tag_in_bounds { length last.now + length tag.now ≤ length out.old }
    ensures { JoinedBlock e.now offset tag.now m last.now out.old out.new }
{
    let block = e.encrypt(octets::xor_block(m, whole(offset)));
    let n = last.len();
    mask(block, 0, last, out);
    mask(block, n, tag, &mut out[n..]);
}

// C_m, from the sum and C_{m-1}.
fn joined_last(e: &Encryption, offset: Halves, sum: [u8; 16], c: &[u8]) -> [u8; 16]
    ensures { result ≡ joined_last (cipher e.now) (halves_of offset) sum c.now }
{
    let x = octets::xor_block(pad(c), step_block(3, 3, offset));
    octets::xor_block(sum, e.encrypt(x))
}

// C_{m-1} C_m over the first bytes of out, from M_{m-1} M_m after the blocks before them.
pub fn joined_end(e: &Encryption, tag: &[u8], s: Running, rest: &[u8], out: &mut [u8])
    requires rest_holds_a_block { 16 ≤ length rest.now }
    requires tag_len_bound { length rest.now + length tag.now ≤ 32 }
    requires tag_in_bounds { length rest.now + length tag.now ≤ length out.old }
    ensures { JoinedEnd e.now tag.now s rest.now out.old out.new }
{
    let offset = doubled(s.offset);
    let m = octets::first_block(rest);
    joined_block(e, tag, offset, m, &rest[16..], out);
    let n = rest.len() - 16 + tag.len();
    let c = joined_last(e, offset, octets::xor_block(write(s.sum), m), &out[..n]);
    octets::put(&mut out[n..], &c);
}
