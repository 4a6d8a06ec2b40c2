// The joined form's end: the last block and the tag come out of one block.
ghost use Rattle.std.specs.Prelude.{◌≡◌, ◌+◌, ◌≤◌, length};
ghost use Rattle.octets.specs.Strings.{eqs};
ghost use Rattle.cba_mode.specs.Offsets.{last_bytes};
ghost use Rattle.cba_sealing.specs.Calls.{masked_by};
ghost use Rattle.cba_opening.specs.Calls.{JoinedPlain, OpenedRest, OpenedJoined};

use aes::Encryption;
use aes_schedule::write;
use cba_sealing::{Running, mask};
use cba_steps::{Halves, pad, step_block};

// M_{m-1}, from C_{m-1} and C_m.
fn joined_plain(e: &Encryption, offset: Halves, sum: [u8; 16], c: &[u8], last: [u8; 16]) -> [u8; 16]
    ensures { JoinedPlain e.now offset sum c.now last result }
{
    let x = octets::xor_block(pad(c), step_block(6, 6, offset));
    octets::xor_block(octets::xor_block(last, sum), e.encrypt(x))
}

// Whether the last bytes of C_{m-1}, masked by the block, are the tag.
fn joined_tag(block: [u8; 16], c: &[u8], tag: &[u8]) -> bool
    requires tag_in_bounds { length tag.now ≤ length c.now }
    requires c_len_bound { length c.now ≤ 16 }
    ensures { result ≡ eqs (last_bytes (length tag.now) (masked_by 0 block c.now)) tag.now }
{
    let n = c.len() - tag.len();
    let mut t = [0u8; 16];
    mask(block, n, &c[n..], &mut t);
    octets::same(&t[..tag.len()], tag)
}

// M_m over the first bytes of out, from C_{m-1} and M_{m-1}, and whether T' is the tag.
fn joined_rest(
    e: &Encryption,
    tag: &[u8],
    offset: Halves,
    m: [u8; 16],
    c: &[u8],
    out: &mut [u8],
) -> bool
    requires tag_in_bounds { length tag.now ≤ length c.now }
    requires c_len_bound { length c.now ≤ 16 }
    requires c_in_bounds { length c.now ≤ length out.old + length tag.now }
    ensures { OpenedRest e.now tag.now offset m c.now out.old result out.new }
{
    let block = e.encrypt(octets::xor_block(m, step_block(2, 2, offset)));
    mask(block, 0, &c[..c.len() - tag.len()], out);
    joined_tag(block, c, tag)
}

// M_{m-1} M_m over the first bytes of out, from C_{m-1} C_m after the blocks before them.
pub fn joined_end(e: &Encryption, tag: &[u8], s: Running, rest: &[u8], out: &mut [u8]) -> bool
    requires tag_in_bounds { 16 + length tag.now ≤ length rest.now }
    requires rest_len_bound { length rest.now ≤ 32 }
    requires rest_in_bounds { length rest.now ≤ length out.old + length tag.now }
    ensures { OpenedJoined e.now tag.now s rest.now out.old result out.new }
{
    let n = rest.len() - 16;
    let last = octets::first_block(&rest[n..]);
    let c = &rest[..n];
    let m = joined_plain(e, s.offset, write(s.sum), c, last);
    octets::put(out, &m);
    joined_rest(e, tag, s.offset, m, c, &mut out[16..])
}
