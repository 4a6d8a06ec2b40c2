// The forms of opening, and the choice between them.
ghost use Rattle.std.specs.Prelude.{◌+◌, ◌-◌, ◌≤◌, ◌<◌, length};
ghost use Rattle.cba_mode.specs.Sets.{tag_bytes};
ghost use Rattle.cba_steps.specs.Endings.{Ends};
ghost use Rattle.cba_sealing.specs.Calls.{first_bytes};
ghost use Rattle.cba_opening.specs.Calls.{Opens, Tail, Try, Dec};

use crate::blocks::open_blocks;
use crate::joined::joined_end;
use crate::separate::separate_end;
use aes::Encryption;
use cba_sealing::{Record, cover, full_tag, short_tag};
use cba_steps::{Ending, Halves, Parameters, ending_of};

// At most ℓ + τ bits.
fn open_short(e: &Encryption, r: &Record, ciphertext: &[u8], out: &mut [u8]) -> bool
    requires least { tag_bytes r.now.p.tau ≤ length ciphertext.now }
    requires room { length ciphertext.now ≤ length out.old + tag_bytes r.now.p.tau }
    requires no_longer_than_first { length ciphertext.now ≤ first_bytes r.now.p + tag_bytes r.now.p.tau }
    ensures { Try e.now r.now.p r.now.nonce.now r.now.sum ciphertext.now out.old result out.new }
{
    let t = r.p.tag_bytes();
    let n = ciphertext.len() - t;
    let first = &ciphertext[..n];
    let b = cover(e, r, first, out);
    let block = short_tag(e, b.data, b.offset, first);
    octets::same(&ciphertext[n..], &block[..t])
}

// M_1 M_2 .. over the first bytes of out, from what follows C_0.
// The ends take the tag, what runs from block to block, the rest and the output one by one: a struct
// of them is no plainer, since it would be made for one call and taken apart in it. Sealing has a
// function of this shape: one for both would take both ends as closures, which is no plainer.
fn tail(
    e: &Encryption,
    end: Ending,
    tag: &[u8],
    offset: Halves,
    rest: &[u8],
    out: &mut [u8],
) -> bool
    requires ends { Ends end (length tag.now) (length rest.now - length tag.now) }
    requires tag_len_bound { length tag.now ≤ 16 }
    requires rest_in_bounds { length rest.now ≤ length out.old + length tag.now }
    ensures { Tail e.now end tag.now offset rest.now out.old result out.new }
{
    let k = end.blocks();
    let s = open_blocks(e, offset, rest, k, out);
    let last = &rest[16 * k..];
    match end {
        Ending::Joined { .. } => joined_end(e, tag, s, last, &mut out[16 * k..]),
        Ending::Separate { .. } => separate_end(e, tag, s, last, &mut out[16 * k..]),
    }
}

// More than ℓ + τ bits, in the form that the length takes.
fn open_long(e: &Encryption, r: &Record, ciphertext: &[u8], out: &mut [u8]) -> bool
    requires least { tag_bytes r.now.p.tau ≤ length ciphertext.now }
    requires room { length ciphertext.now ≤ length out.old + tag_bytes r.now.p.tau }
    requires longer_than_first { first_bytes r.now.p + tag_bytes r.now.p.tau < length ciphertext.now }
    ensures { Try e.now r.now.p r.now.nonce.now r.now.sum ciphertext.now out.old result out.new }
{
    let l = r.p.first_bytes();
    let t = r.p.tag_bytes();
    let end = ending_of(l, t, ciphertext.len() - t);
    let first = &ciphertext[..l];
    let b = cover(e, r, first, out);
    let whole = full_tag(b.data, first);
    tail(
        e,
        end,
        &whole[16 - t..],
        b.offset,
        &ciphertext[l..],
        &mut out[l..],
    )
}

// The attempt in the form that the length takes.
fn attempted(e: &Encryption, r: &Record, ciphertext: &[u8], out: &mut [u8]) -> bool
    requires least { tag_bytes r.now.p.tau ≤ length ciphertext.now }
    requires room { length ciphertext.now ≤ length out.old + tag_bytes r.now.p.tau }
    ensures { Try e.now r.now.p r.now.nonce.now r.now.sum ciphertext.now out.old result out.new }
{
    if ciphertext.len() <= r.p.first_bytes() + r.p.tag_bytes() {
        return open_short(e, r, ciphertext, out);
    }
    open_long(e, r, ciphertext, out)
}

// DEC, given T_A, the first t bytes of the sum: the message over the first bytes of out, or zeros
// where the tags differ. It answers a bool, whether there is a message: the message itself is in out.
pub fn dec(
    e: &Encryption,
    p: Parameters,
    nonce: &[u8],
    sum: [u8; 16],
    ciphertext: &[u8],
    out: &mut [u8],
) -> bool
    requires opens { Opens p nonce.now ciphertext.now out.old }
    ensures { Dec e.now p nonce.now sum ciphertext.now out.old result out.new }
{
    let r = Record { p, nonce, sum };
    if attempted(e, &r, ciphertext, out) {
        return true;
    }
    octets::clear(out, ciphertext.len() - p.tag_bytes());
    false
}
