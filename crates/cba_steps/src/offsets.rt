// Offsets and padding. An offset is two big-endian numbers, and becomes a block by way of words.
ghost use Rattle.std.specs.Prelude.{◌≡◌, ◌++◌, ◌∷◌, ◌+◌, ◌*◌, ◌/◌, ◌%◌, ◌^◌, ◌≤◌, ◌<◌, get_or, replicate};
ghost use Rattle.octets.specs.Numbers.{digits};
ghost use Rattle.aes_schedule.specs.Words.{bytes_of, block_of};
ghost use Rattle.cba_mode.specs.Offsets.{two, three, times, F, rotated, start, pad};
ghost use Rattle.cba_steps.specs.Halves.{halves_of};

use aes_schedule::{Words, read, write};

// An offset as its halves, so that a step turns no bytes into numbers.
#[derive(Clone, Copy)]
pub struct Halves {
    pub a: u64,
    pub b: u64,
}

// 2·A, with no branch.
fn double(x: u64) -> u64
    ensures { digits 8 result ≡ two (digits 8 x) }
{
    ((x >> 63) * 0x1b) ^ (x << 1)
}

// 3·A.
fn triple(x: u64) -> u64
    ensures { digits 8 result ≡ three (digits 8 x) }
{
    x ^ double(x)
}

// typeof.p.A, by the paper's numbers of the multipliers, 2 to 6; any other leaves a half as it is.
fn multiple(p: u8, x: u64) -> u64
    ensures { digits 8 result ≡ times p (digits 8 x) }
{
    match p {
        2 => double(x),
        3 => triple(x),
        4 => double(double(x)),
        5 => triple(triple(x)),
        6 => triple(double(x)),
        _ => x,
    }
}

// F(p, q).
pub fn step(p: u8, q: u8, h: Halves) -> Halves
    ensures { halves_of result ≡ F p q (halves_of h) }
{
    Halves {
        a: multiple(p, h.a),
        b: multiple(q, h.b),
    }
}

// F(2, 2).
pub fn doubled(h: Halves) -> Halves
    ensures { halves_of result ≡ F 2 2 (halves_of h) }
{
    Halves {
        a: double(h.a),
        b: double(h.b),
    }
}

// The word whose bytes are those of x from the highest on.
fn turned(x: u32) -> u32
    ensures { bytes_of result ≡ digits 4 x }
{
    x.swap_bytes()
}

// The upper and the lower 32 bits.

fn upper(x: u64) -> u32
    ensures { result ≡ x / 2 ^ 32 }
{
    (x >> 32) as u32
}

fn lower(x: u64) -> u32
    ensures { result ≡ x % 2 ^ 32 }
{
    (x & 0xffff_ffff) as u32
}

// An offset as a block: its words, and its bytes. By From it is no plainer: each call would have to
// say which of the two it means.

pub fn words(h: Halves) -> Words
    ensures { block_of result ≡ halves_of h }
{
    Words {
        a: turned(upper(h.a)),
        b: turned(lower(h.a)),
        c: turned(upper(h.b)),
        d: turned(lower(h.b)),
    }
}

pub fn whole(h: Halves) -> [u8; 16]
    ensures { result ≡ halves_of h }
{
    write(words(h))
}

// F(p, q), as a block.
pub fn step_block(p: u8, q: u8, h: Halves) -> [u8; 16]
    ensures { result ≡ F p q (halves_of h) }
{
    whole(step(p, q, h))
}

// The half of a block that two of its words are.
fn half(p: u32, q: u32) -> u64
    ensures { digits 8 result ≡ bytes_of p ++ bytes_of q }
{
    (turned(p) as u64) << 32 | turned(q) as u64
}

pub fn split(s: [u8; 16]) -> Halves
    ensures { halves_of result ≡ s }
{
    let k = read(s);
    Halves {
        a: half(k.a, k.b),
        b: half(k.c, k.d),
    }
}

// Two halves turned right by k bits.
fn rotate(a: u64, b: u64, k: u32) -> Halves
    requires { (0 < k) × (k < 64) }
    ensures { halves_of result ≡ digits 16 (rotated k (a * 2 ^ 64 + b)) }
{
    Halves {
        a: (a >> k) | (b << (64 - k)),
        b: (b >> k) | (a << (64 - k)),
    }
}

// The first offset, from R or L, where w is ℓ: 0, 32 or 64. The last w + 2 bits are set, and all are
// turned right by w/2 + 1.
pub fn start(r: [u8; 16], w: u8) -> Halves
    requires { (w ≤ 64) × (w % 32 ≡ 0) }
    ensures { halves_of result ≡ start r w }
{
    let Halves { a, b } = split(r);
    doubled(match w {
        0 => rotate(a, b | 0x3, 1),
        32 => rotate(a, b | 0x3_ffff_ffff, 17),
        _ => rotate(a | 0x3, u64::MAX, 33),
    })
}

// Byte i of a string padded with 80, 00, 00, .. By a match a call of no bytes took 3 percent longer.
fn padded_byte(s: &[u8], i: usize) -> u8
    requires { i < 16 }
    ensures { result ≡ get_or (s.now ++ (128 ∷ replicate 15 0)) i 0 }
{
    if i < s.len() {
        return s[i];
    }
    if i == s.len() {
        return 0x80;
    }
    0
}

// pad.
pub fn pad(s: &[u8]) -> [u8; 16]
    ensures { result ≡ pad s.now }
{
    let mut r = [0u8; 16];
    for i in 0..16 {
        r[i] = padded_byte(s, i);
    }
    r
}
