// The full blocks of a message or a ciphertext, two at a time: the block function of two blocks takes
// less than twice the time of one. They go as words, from the text to the output.
ghost use Rattle.std.specs.Prelude.{◌≡◌, true, ◌++◌, ◌*◌, ◌≤◌, length};
ghost use Rattle.octets.specs.Strings.{over};
ghost use Rattle.fips197.specs.Cipher.{cipher};
ghost use Rattle.aes_schedule.specs.Words.{block_of};
ghost use Rattle.cba_steps.specs.Halves.{halves_of};
ghost use Rattle.cba_sealing.specs.Calls.{through, Through, More, Blocks};

use crate::direction::Direction;
use aes::{Encryption, Pair};
use aes_schedule::{Words, read, words_at, write};
use cba_steps::{Halves, doubled, words};

// What goes from block to block: the offset and the checksum.
#[derive(Clone, Copy)]
pub struct Running {
    pub offset: Halves,
    pub sum: Words,
}

// E(M ⊕ Δ) ⊕ Δ, or D in the place of E.
fn masked<D: Direction>(d: &D, m: Words, h: Halves) -> Words
    ensures { block_of result ≡ through (D.function d.now) (halves_of h) (block_of m) }
{
    let offset = words(h);
    d.block(m ^ offset) ^ offset
}

// The same of two blocks, each with its own offset.
fn masked_pair<D: Direction>(d: &D, m: Pair, a: Halves, b: Halves) -> Pair
    ensures { Through (D.function d.now) (halves_of a) (halves_of b) m result }
{
    let offsets = Pair {
        x: words(a),
        y: words(b),
    };
    d.pair(m ^ offsets) ^ offsets
}

// Writes two blocks over the first bytes of out.
fn put_pair(out: &mut [u8], p: Pair)
    requires { 32 ≤ length out.old }
    ensures { out.new ≡ over (block_of p.x ++ block_of p.y) out.old }
{
    octets::put(out, &write(p.x));
    octets::put(&mut out[16..], &write(p.y));
}

// The first block of a text through the block function, over the first bytes of out.
fn one_block<D: Direction>(d: &D, s: Running, text: &[u8], out: &mut [u8]) -> Running
    requires text_holds_a_block { 16 ≤ length text.now }
    requires out_holds_a_block { 16 ≤ length out.old }
    ensures { More (D.function d.now) D.seals s text.now out.old 1 result out.new }
{
    let offset = doubled(s.offset);
    let before = words_at(text, 0);
    let after = masked(d, before, offset);
    octets::put(out, &write(after));
    Running {
        offset,
        sum: s.sum ^ D::message(before, after),
    }
}

// The first two blocks.
fn two_blocks<D: Direction>(d: &D, s: Running, text: &[u8], out: &mut [u8]) -> Running
    requires text_holds_two_blocks { 32 ≤ length text.now }
    requires out_holds_two_blocks { 32 ≤ length out.old }
    ensures { More (D.function d.now) D.seals s text.now out.old 2 result out.new }
{
    let a = doubled(s.offset);
    let b = doubled(a);
    let before = Pair {
        x: words_at(text, 0),
        y: words_at(text, 16),
    };
    let after = masked_pair(d, before, a, b);
    put_pair(out, after);
    let sum = s.sum ^ D::message(before.x, after.x);
    Running {
        offset: b,
        sum: sum ^ D::message(before.y, after.y),
    }
}

// The first k blocks of a text through the block function, over the first bytes of out, from the
// offset before them.
pub fn full_blocks<D: Direction>(
    d: &D,
    start: Halves,
    text: &[u8],
    k: usize,
    out: &mut [u8],
) -> Running
    requires text_holds_k_blocks { 16 * k ≤ length text.now }
    requires out_holds_k_blocks { 16 * k ≤ length out.old }
    ensures { Blocks (D.function d.now) D.seals start text.now out.old k result out.new }
{
    let mut s = Running {
        offset: start,
        sum: read([0; 16]),
    };
    for i in 0..k / 2 {
        let done = 2 * i;
        s = two_blocks(d, s, &text[16 * done..], &mut out[16 * done..]);
    }
    if k % 2 == 1 {
        let done = k - 1;
        return one_block(d, s, &text[16 * done..], &mut out[16 * done..]);
    }
    s
}

// The same through E. A function of its own in the machine code too: inside a larger one its rounds
// find too few registers. Those of opening do not, so `full_blocks` itself has no such mark.
#[inline(never)]
pub(crate) fn sealed_blocks(
    e: &Encryption,
    start: Halves,
    message: &[u8],
    k: usize,
    out: &mut [u8],
) -> Running
    requires message_holds_k_blocks { 16 * k ≤ length message.now }
    requires out_holds_k_blocks { 16 * k ≤ length out.old }
    ensures { Blocks (cipher e.now) true start message.now out.old k result out.new }
{
    full_blocks(e, start, message, k, out)
}
