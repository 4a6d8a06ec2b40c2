// D: decryption of one block or two as the equivalent inverse cipher, and the states on its way. It is
// not one generic with E: the table of the last round, the order of the round keys and each law differ.
ghost use Rattle.std.specs.Prelude.{◌≡◌, ◌*◌, ◌≤◌, ◌<◌};
ghost use Rattle.fips197.specs.Steps.{inv_sub_bytes, inv_shift_rows, inv_mix_columns, add_round_key};
ghost use Rattle.fips197.specs.Cipher.{inv_cipher, key_rounds};
ghost use Rattle.fips197.specs.Equivalent.{eq_full_round, eq_rounds, key_expansion_eic, eq_state};
ghost use Rattle.aes_schedule.specs.Words.{block_of};
ghost use Rattle.aes.specs.Pairs.{Both};

use crate::context::Decryption;
use crate::pairs::{Blocks, Pair};
use crate::table::{add_key, mixed};
use aes_schedule::{Words, look_up, read, write};

impl<'a> Decryption<'a> {
    // InvSubBytes, for a tracer.
    fn inv_sub(&self, k: Words) -> Words
        ensures { block_of result ≡ inv_sub_bytes (block_of k) }
    {
        let s = self.s_box();
        Words {
            a: look_up(s, k.a, k.a, k.a, k.a),
            b: look_up(s, k.b, k.b, k.b, k.b),
            c: look_up(s, k.c, k.c, k.c, k.c),
            d: look_up(s, k.d, k.d, k.d, k.d),
        }
    }

    // InvSubBytes, InvShiftRows.
    fn inv_sub_shift(&self, k: Words) -> Words
        ensures { block_of result ≡ inv_shift_rows (inv_sub_bytes (block_of k)) }
    {
        let s = self.s_box();
        Words {
            a: look_up(s, k.a, k.d, k.c, k.b),
            b: look_up(s, k.b, k.a, k.d, k.c),
            c: look_up(s, k.c, k.b, k.a, k.d),
            d: look_up(s, k.d, k.c, k.b, k.a),
        }
    }

    // InvSubBytes, InvShiftRows, InvMixColumns.
    fn inv_sub_shift_mix(&self, k: Words) -> Words
        ensures { block_of result ≡ inv_mix_columns (inv_shift_rows (inv_sub_bytes (block_of k))) }
    {
        let t = self.table();
        Words {
            a: mixed(t, k.a, k.d, k.c, k.b),
            b: mixed(t, k.b, k.a, k.d, k.c),
            c: mixed(t, k.c, k.b, k.a, k.d),
            d: mixed(t, k.d, k.c, k.b, k.a),
        }
    }

    // AddRoundKey, with round key n.
    fn add_key(&self, n: usize, k: Words) -> Words
        requires { n ≤ key_rounds self.now }
        ensures { block_of result ≡ add_round_key (key_expansion_eic self.now) n (block_of k) }
    {
        add_key(self.keys(), n, k)
    }

    // A full round, with round key n.
    fn full_inv_round(&self, n: usize, k: Words) -> Words
        requires { n ≤ key_rounds self.now }
        ensures { block_of result ≡ eq_full_round (key_expansion_eic self.now) n (block_of k) }
    {
        self.add_key(n, self.inv_sub_shift_mix(k))
    }

    // The first AddRoundKey, with the last round key, and n full rounds, with those before it.
    fn full_inv_rounds<B: Blocks>(&self, n: usize, s: B) -> B
        requires { n ≤ key_rounds self.now }
        ensures { B.Each (eq_rounds (key_expansion_eic self.now) (key_rounds self.now) n) s result }
    {
        let nr = self.rounds();
        let mut k = s.each(|b| self.add_key(nr, b));
        for i in 0..n {
            k = k.each(|b| self.full_inv_round(nr - (i + 1), b));
        }
        k
    }

    // EqInvCipher, which is InvCipher.
    fn decipher<B: Blocks>(&self, s: B) -> B
        ensures { B.Each (inv_cipher self.now) s result }
    {
        let nr = self.rounds();
        let k = self.full_inv_rounds(nr - 1, s);
        k.each(|b| self.add_key(0, self.inv_sub_shift(b)))
    }

    // D of a block.
    pub fn decrypt(&self, block: [u8; 16]) -> [u8; 16]
        ensures { result ≡ inv_cipher self.now block }
    {
        write(self.decipher(read(block)))
    }

    // D on words: a caller that has the block as words need not take it apart.
    pub fn decrypt_words(&self, block: Words) -> Words
        ensures { block_of result ≡ inv_cipher self.now (block_of block) }
    {
        self.decipher(block)
    }

    // D of two blocks.
    pub fn decrypt_pair(&self, p: Pair) -> Pair
        ensures { Both (inv_cipher self.now) p result }
    {
        self.decipher(p)
    }

    // The State after step k: the whole rounds before it, and the steps of its own round.
    fn state_at(&self, k: usize, block: Words) -> Words
        requires { k < 4 * key_rounds self.now }
        ensures { block_of result ≡ eq_state (key_expansion_eic self.now) (key_rounds self.now) k (block_of block) }
    {
        let n = k / 4;
        let x = self.full_inv_rounds(n, block);
        match k % 4 {
            0 => x,
            1 => self.inv_sub(x),
            2 => self.inv_sub_shift(x),
            _ if n + 1 == self.rounds() => self.add_key(0, self.inv_sub_shift(x)),
            _ => self.inv_sub_shift_mix(x),
        }
    }

    // The State of decryption after step k, from 0, for a tracer.
    pub fn inverse_state(&self, k: usize, block: [u8; 16]) -> [u8; 16]
        requires { k < 4 * key_rounds self.now }
        ensures { result ≡ eq_state (key_expansion_eic self.now) (key_rounds self.now) k block }
    {
        write(self.state_at(k, read(block)))
    }
}
