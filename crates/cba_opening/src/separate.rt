// The separate form's end: a last block of its own length, and the tag after it.
ghost use Rattle.std.specs.Prelude.{◌+◌, ◌≤◌, length};
ghost use Rattle.cba_opening.specs.Calls.{OpenedSeparate};

use aes::Encryption;
use aes_schedule::write;
use cba_sealing::{Running, last_block, tag_block};

// M_m over the first bytes of out, from C_m C_{m+1} after the full blocks.
pub fn separate_end(e: &Encryption, tag: &[u8], s: Running, rest: &[u8], out: &mut [u8]) -> bool
    requires tag_len_bound { length tag.now ≤ 16 }
    requires tag_in_bounds { length tag.now ≤ length rest.now }
    requires rest_len_bound { length rest.now ≤ 16 + length tag.now }
    requires rest_in_bounds { length rest.now ≤ length out.old + length tag.now }
    ensures { OpenedSeparate e.now tag.now s rest.now out.old result out.new }
{
    let n = rest.len() - tag.len();
    last_block(e, tag, s.offset, &rest[..n], out);
    let block = tag_block(e, tag, s.offset, write(s.sum), &out[..n]);
    octets::same(&rest[n..], &block[..tag.len()])
}
