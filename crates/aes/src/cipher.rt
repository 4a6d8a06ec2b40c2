// E: encryption of one block or two, and the states on its way.
ghost use Rattle.std.specs.Prelude.{◌≡◌, ◌≤◌, ◌<◌};
ghost use Rattle.octets.specs.Blocks.{block};
ghost use Rattle.fips197.specs.Schedule.{key_expansion};
ghost use Rattle.fips197.specs.Steps.{sub_bytes, shift_rows, mix_columns, add_round_key};
ghost use Rattle.fips197.specs.Cipher.{full_round, rounds, cipher, key_rounds};
ghost use Rattle.aes_schedule.specs.Words.{block_of};
ghost use Rattle.aes.specs.Pairs.{Both};

use crate::context::Encryption;
use crate::pairs::{Blocks, Pair};
use crate::table::{add_key, mixed};
use aes_schedule::{Words, boxed_word, read, words_at, write};

impl<'a> Encryption<'a> {
    // SubBytes, ShiftRows, MixColumns. This and the three like it are written out: one function over the
    // column's as a closure is no plainer, since its contract says four times what the closure gives.
    fn sub_shift_mix(&self, k: Words) -> Words
        ensures { block_of result ≡ mix_columns (shift_rows (sub_bytes (block_of k))) }
    {
        let t = self.table();
        Words {
            a: mixed(t, k.a, k.b, k.c, k.d),
            b: mixed(t, k.b, k.c, k.d, k.a),
            c: mixed(t, k.c, k.d, k.a, k.b),
            d: mixed(t, k.d, k.a, k.b, k.c),
        }
    }

    // SubBytes, ShiftRows.
    fn sub_shift(&self, k: Words) -> Words
        ensures { block_of result ≡ shift_rows (sub_bytes (block_of k)) }
    {
        let t = self.table();
        Words {
            a: boxed_word(t, k.a, k.b, k.c, k.d),
            b: boxed_word(t, k.b, k.c, k.d, k.a),
            c: boxed_word(t, k.c, k.d, k.a, k.b),
            d: boxed_word(t, k.d, k.a, k.b, k.c),
        }
    }

    // AddRoundKey, with round key n.
    fn add_key(&self, n: usize, k: Words) -> Words
        requires { n ≤ key_rounds self.now }
        ensures { block_of result ≡ add_round_key (key_expansion self.now) n (block_of k) }
    {
        add_key(self.keys(), n, k)
    }

    // A full round, with round key n.
    fn full_round(&self, n: usize, k: Words) -> Words
        requires { n ≤ key_rounds self.now }
        ensures { block_of result ≡ full_round (key_expansion self.now) n (block_of k) }
    {
        self.add_key(n, self.sub_shift_mix(k))
    }

    // The first AddRoundKey and n full rounds.
    fn full_rounds<B: Blocks>(&self, n: usize, s: B) -> B
        requires { n ≤ key_rounds self.now }
        ensures { B.Each (rounds (key_expansion self.now) n) s result }
    {
        let mut k = s.each(|b| self.add_key(0, b));
        for i in 0..n {
            k = k.each(|b| self.full_round(i + 1, b));
        }
        k
    }

    // Cipher.
    fn encipher<B: Blocks>(&self, s: B) -> B
        ensures { B.Each (cipher self.now) s result }
    {
        let nr = self.rounds();
        let k = self.full_rounds(nr - 1, s);
        k.each(|b| self.add_key(nr, self.sub_shift(b)))
    }

    // E of a block.
    pub fn encrypt(&self, block: [u8; 16]) -> [u8; 16]
        ensures { result ≡ cipher self.now block }
    {
        write(self.encipher(read(block)))
    }

    // E of two blocks.
    pub fn encrypt_pair(&self, p: Pair) -> Pair
        ensures { Both (cipher self.now) p result }
    {
        self.encipher(p)
    }

    // The State after the first AddRoundKey and n full rounds, for a tracer.
    pub fn state_after(&self, n: usize, block: [u8; 16]) -> [u8; 16]
        requires { n < key_rounds self.now }
        ensures { result ≡ rounds (key_expansion self.now) n block }
    {
        write(self.full_rounds(n, read(block)))
    }

    // Round key n of the key's schedule, for a tracer.
    pub fn round_key(&self, n: usize) -> [u8; 16]
        requires { n ≤ key_rounds self.now }
        ensures { result ≡ block 16 (key_expansion self.now) n }
    {
        write(words_at(self.keys(), 16 * n))
    }
}
