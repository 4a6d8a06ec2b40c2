// A State as four little-endian words, one for each column.
ghost use Rattle.std.specs.Prelude.{◌≡◌, [], ◌∷◌, ◌+◌, ◌/◌, ◌%◌, ◌≤◌, ◌<◌, get_or, length, take, drop};
ghost use Rattle.octets.specs.Xor.{xors};
ghost use Rattle.aes_schedule.specs.Words.{bytes_of, block_of, word_at, looked_up};

use std::ops::BitXor;

#[derive(Clone, Copy)]
pub struct Words {
    pub a: u32,
    pub b: u32,
    pub c: u32,
    pub d: u32,
}

// The word of four bytes. By u32::from_le_bytes the encryption of two blocks took 4 percent longer.
pub fn join(a: u8, b: u8, c: u8, d: u8) -> u32
    ensures { bytes_of result ≡ a ∷ b ∷ c ∷ d ∷ [] }
{
    (a as u32) + 256 * (b as u32) + 65536 * (c as u32) + 16777216 * (d as u32)
}

// The word at a place of a string.
pub fn word_at(s: &[u8], at: usize) -> u32
    requires { at + 4 ≤ length s.now }
    ensures { bytes_of result ≡ word_at s.now at }
{
    join(s[at], s[at + 1], s[at + 2], s[at + 3])
}

// The four bytes of a word, the lowest first.
pub fn split(x: u32) -> [u8; 4]
    ensures { result ≡ bytes_of x }
{
    x.to_le_bytes()
}

// Byte i of a word, from the lowest on.
pub fn byte(x: u32, i: usize) -> u8
    requires { i < 4 }
    ensures { result ≡ get_or (bytes_of x) i 0 }
{
    let b = split(x);
    b[i]
}

// The bytes of four words in turn, each replaced by its entry in a table.
pub fn look_up(t: &[u8], a: u32, b: u32, c: u32, d: u32) -> u32
    requires { length t.now ≡ 256 }
    ensures { bytes_of result ≡ looked_up t.now (a % 256) (b / 256 % 256) (c / 65536 % 256) (d / 16777216 % 256) }
{
    let p = t[byte(a, 0) as usize];
    let q = t[byte(b, 1) as usize];
    let u = t[byte(c, 2) as usize];
    let v = t[byte(d, 3) as usize];
    join(p, q, u, v)
}

// A block's words. This and `write` are functions and not From, which is no plainer: a block that goes
// into a slice would have its type named at each call.
pub fn read(s: [u8; 16]) -> Words
    ensures { block_of result ≡ s }
{
    Words {
        a: join(s[0], s[1], s[2], s[3]),
        b: join(s[4], s[5], s[6], s[7]),
        c: join(s[8], s[9], s[10], s[11]),
        d: join(s[12], s[13], s[14], s[15]),
    }
}

// The words of the block at a place of a string.
pub fn words_at(s: &[u8], at: usize) -> Words
    requires { at + 16 ≤ length s.now }
    ensures { block_of result ≡ take 16 (drop at s.now) }
{
    Words {
        a: word_at(s, at),
        b: word_at(s, at + 4),
        c: word_at(s, at + 8),
        d: word_at(s, at + 12),
    }
}

// The exclusive or of two blocks.
impl BitXor for Words {
    type Output = Words;

    ghost bitxor_gives = { λ j k r. block_of r ≡ xors (block_of j) (block_of k) };

    fn bitxor(self, k: Words) -> Words {
        Words {
            a: self.a ^ k.a,
            b: self.b ^ k.b,
            c: self.c ^ k.c,
            d: self.d ^ k.d,
        }
    }
}

// The block of four words.
pub fn write(k: Words) -> [u8; 16]
    ensures { result ≡ block_of k }
{
    let a = split(k.a);
    let b = split(k.b);
    let c = split(k.c);
    let d = split(k.d);
    [
        a[0], a[1], a[2], a[3], b[0], b[1], b[2], b[3], c[0], c[1], c[2], c[3], d[0], d[1], d[2],
        d[3],
    ]
}
