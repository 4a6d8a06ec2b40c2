// The forms of sealing, and the choice between them.
ghost use Rattle.std.specs.Prelude.{◌≡◌, ◌+◌, ◌≤◌, ◌<◌, length};
ghost use Rattle.octets.specs.Xor.{xors};
ghost use Rattle.fips197.specs.Cipher.{cipher};
ghost use Rattle.cba_mode.specs.Sets.{tag_bytes};
ghost use Rattle.cba_mode.specs.Offsets.{F, pad};
ghost use Rattle.cba_steps.specs.Endings.{Ends};
ghost use Rattle.cba_steps.specs.Halves.{halves_of};
ghost use Rattle.cba_sealing.specs.Calls.{Seals, first_bytes, Tail, Enc};

use crate::begin::{cover, full_tag};
use crate::blocks::sealed_blocks;
use crate::joined::joined_end;
use crate::record::Record;
use crate::separate::separate_end;
use aes::Encryption;
use cba_steps::{Ending, Halves, Parameters, ending_of, pad, step_block};

// The block whose first t bytes are C_1 of the short form.
pub fn short_tag(e: &Encryption, data_tag: [u8; 16], offset: Halves, c: &[u8]) -> [u8; 16]
    ensures { result ≡ cipher e.now (xors (xors data_tag (pad c.now)) (F 3 3 (halves_of offset))) }
{
    let x = octets::xor_block(data_tag, pad(c));
    e.encrypt(octets::xor_block(x, step_block(3, 3, offset)))
}

// At most ℓ bits.
fn seal_short(e: &Encryption, r: &Record, message: &[u8], out: &mut [u8])
    requires room { length message.now + tag_bytes r.now.p.tau ≤ length out.old }
    requires no_longer_than_first { length message.now ≤ first_bytes r.now.p }
    ensures { Enc e.now r.now.p r.now.nonce.now r.now.sum message.now out.old out.new }
{
    let b = cover(e, r, message, out);
    let n = message.len();
    let block = short_tag(e, b.data, b.offset, &out[..n]);
    octets::put(&mut out[n..], &block[..r.p.tag_bytes()]);
}

// C_1 C_2 .. over the first bytes of out, of what follows M_0.
// The ends take the tag, what runs from block to block, the rest and the output one by one: a struct
// of them is no plainer, since it would be made for one call and taken apart in it. Opening has a
// function of this shape: one for both would take both ends as closures, which is no plainer.
fn tail(e: &Encryption, end: Ending, tag: &[u8], offset: Halves, message: &[u8], out: &mut [u8])
    requires ends { Ends end (length tag.now) (length message.now) }
    requires tag_len_bound { length tag.now ≤ 16 }
    requires tag_in_bounds { length message.now + length tag.now ≤ length out.old }
    ensures { Tail e.now end tag.now offset message.now out.old out.new }
{
    let k = end.blocks();
    let s = sealed_blocks(e, offset, message, k, out);
    let rest = &message[16 * k..];
    match end {
        Ending::Joined { .. } => joined_end(e, tag, s, rest, &mut out[16 * k..]),
        Ending::Separate { .. } => separate_end(e, tag, s, rest, &mut out[16 * k..]),
    }
}

// More than ℓ bits, in the form that the length takes.
fn seal_long(e: &Encryption, r: &Record, message: &[u8], out: &mut [u8])
    requires room { length message.now + tag_bytes r.now.p.tau ≤ length out.old }
    requires longer_than_first { first_bytes r.now.p < length message.now }
    ensures { Enc e.now r.now.p r.now.nonce.now r.now.sum message.now out.old out.new }
{
    let l = r.p.first_bytes();
    let t = r.p.tag_bytes();
    let end = ending_of(l, t, message.len());
    let b = cover(e, r, &message[..l], out);
    let whole = full_tag(b.data, &out[..l]);
    tail(
        e,
        end,
        &whole[16 - t..],
        b.offset,
        &message[l..],
        &mut out[l..],
    );
}

// ENC over the first bytes of out, given T_A: the first t bytes of the sum.
pub fn enc(
    e: &Encryption,
    p: Parameters,
    nonce: &[u8],
    sum: [u8; 16],
    message: &[u8],
    out: &mut [u8],
)
    requires seals { Seals p nonce.now message.now out.old }
    ensures { Enc e.now p nonce.now sum message.now out.old out.new }
{
    let r = Record { p, nonce, sum };
    if message.len() <= p.first_bytes() {
        seal_short(e, &r, message, out);
        return;
    }
    seal_long(e, &r, message, out);
}
