// The key schedule, as the bytes of its words, over the number of key words nk = 4, 6, 8.
ghost use Rattle.std.specs.Prelude.{◌≡◌, true, [], ◌∷◌, ◌++◌, ◌/◌, ◌%◌, ◌+◌, ◌*◌, ◌≤◌, ◌<◌, length, take, drop};
ghost use Rattle.octets.specs.Strings.{over};
ghost use Rattle.octets.specs.Xor.{xors};
ghost use Rattle.field.specs.SBox.{s_box};
ghost use Rattle.fips197.specs.Schedule.{is_key, sub_word, rot_word, power, temp, key_expansion};
ghost use Rattle.aes_schedule.specs.Boxes.{Boxes};
ghost use Rattle.aes_schedule.specs.Place.{passed, Paired};
ghost use Rattle.aes_schedule.specs.Words.{bytes_of, word_at};

use crate::words::{byte, join, split, word_at};

// The powers of x in the byte field that the words Rcon begin with.
const POWERS: [u8; 10] = [0x01, 0x02, 0x04, 0x08, 0x10, 0x20, 0x40, 0x80, 0x1b, 0x36];

// Where the loop over the words after the key's stands: nk words q times, and k more. It is counted,
// since a division for each word took a tenth of a short call.
#[derive(Clone, Copy)]
struct Place {
    k: usize,
    q: usize,
}

fn power_of(j: usize) -> u8
    requires { j < 10 }
    ensures { result ≡ power j }
{
    POWERS[j]
}

fn rot_word(x: u32) -> u32
    ensures { bytes_of result ≡ rot_word (bytes_of x) }
{
    x.rotate_right(8)
}

// The S-box of a byte: the second byte of its entry, of eight bytes, in the round table. That is no
// type of its own, since one array holds it and the schedule, and expand reads S there as it writes.
pub fn boxed(t: &[u8], x: u8) -> u8
    requires { Boxes t.now }
    ensures { result ≡ s_box x }
{
    t[8 * x as usize + 1]
}

// The S-box of the bytes of four words in turn.
pub fn boxed_word(t: &[u8], a: u32, b: u32, c: u32, d: u32) -> u32
    requires { Boxes t.now }
    ensures { bytes_of result ≡
        s_box (a % 256) ∷ s_box (b / 256 % 256) ∷ s_box (c / 65536 % 256) ∷ s_box (d / 16777216 % 256) ∷ [] }
{
    join(
        boxed(t, byte(a, 0)),
        boxed(t, byte(b, 1)),
        boxed(t, byte(c, 2)),
        boxed(t, byte(d, 3)),
    )
}

fn sub_word(t: &[u8], x: u32) -> u32
    requires { Boxes t.now }
    ensures { bytes_of result ≡ sub_word (bytes_of x) }
{
    boxed_word(t, x, x, x, x)
}

// What goes into the word at a place beside the word nk before it, from the word before it.
fn step_word(t: &[u8], nk: usize, p: Place, x: u32) -> u32
    requires boxes { Boxes t.now }
    requires k_lt_nk { (p.k < nk) × (p.q < 10) }
    ensures { bytes_of result ≡ temp nk (nk + passed nk p) (bytes_of x) }
{
    match p.k {
        0 => sub_word(t, rot_word(x)) ^ power_of(p.q) as u32,
        4 if nk > 6 => sub_word(t, x),
        _ => x,
    }
}

// The word after the key's words and m more, from the word before it; the schedule stands at a
// place of t.
fn next_word(t: &[u8], at: usize, nk: usize, p: Place, m: usize, x: u32) -> u32
    requires boxes { Boxes t.now }
    requires k_lt_nk { (p.k < nk) × (p.q < 10) }
    requires m_value { m ≡ passed nk p }
    requires m_in_bounds { at + 4 * m + 4 ≤ length t.now }
    ensures { bytes_of result ≡ xors (word_at t.now (at + 4 * m)) (temp nk (nk + m) (bytes_of x)) }
{
    word_at(t, at + 4 * m) ^ step_word(t, nk, p, x)
}

// The place two words on.
fn next_place(nk: usize, p: Place) -> Place
    requires paired { Paired nk p }
    requires q_bound { p.q < 10 }
    ensures { (Paired nk result) × (passed nk result ≡ passed nk p + 2) }
{
    if p.k + 2 == nk {
        return Place { k: 0, q: p.q + 1 };
    }
    Place { k: p.k + 2, q: p.q }
}

// Writes the schedule of a key at a place of a context, behind its round table. S is read from the
// table, since a constant would be stored at every call, and the last word is carried, since a word
// that was just stored is slow to read back.
pub fn expand(key: &[u8], at: usize, ctx: &mut [u8])
    requires key_value { is_key key.now ≡ true }
    requires boxes { Boxes ctx.old }
    requires le_at { 2048 ≤ at }
    requires at_in_bounds { at + 240 ≤ length ctx.old }
    ensures { ctx.new ≡ take at ctx.old ++ over (key_expansion key.now) (drop at ctx.old) }
{
    let nk = key.len() / 4;
    octets::put(&mut ctx[at..], key);
    let mut x = word_at(key, 4 * (nk - 1));
    let mut p = Place { k: 0, q: 0 };
    for i in 0..(3 * nk + 28) / 2 {
        let m = 2 * i;
        let a = next_word(ctx, at, nk, p, m, x);
        octets::put(&mut ctx[at + 4 * (nk + m)..], &split(a));
        // nk is even, so the second word of a turn is never one that S goes into
        let b = word_at(ctx, at + 4 * (m + 1)) ^ a;
        octets::put(&mut ctx[at + 4 * (nk + (m + 1))..], &split(b));
        x = b;
        p = next_place(nk, p);
    }
}
