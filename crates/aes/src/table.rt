// What the rounds of both directions have in common, on words.
ghost use Rattle.std.specs.Prelude.{◌≡◌, ◌*◌, ◌/◌, ◌%◌, ◌≤◌, suc, length};
ghost use Rattle.fips197.specs.Steps.{add_round_key};
ghost use Rattle.aes_schedule.specs.Words.{bytes_of, block_of};
ghost use Rattle.aes.specs.Tables.{added_up};

use aes_schedule::{Words, byte, word_at, words_at};

// A column under a matrix, by its table: its rows come from four words.
pub fn mixed(t: &[u8], a: u32, b: u32, c: u32, d: u32) -> u32
    requires { length t.now ≡ 2048 }
    ensures { bytes_of result ≡ added_up t.now (a % 256) (b / 256 % 256) (c / 65536 % 256) (d / 16777216 % 256) }
{
    let p = word_at(t, 8 * byte(a, 0) as usize);
    let q = word_at(t, 8 * byte(b, 1) as usize + 3);
    let u = word_at(t, 8 * byte(c, 2) as usize + 2);
    let v = word_at(t, 8 * byte(d, 3) as usize + 1);
    ((p ^ q) ^ u) ^ v
}

// AddRoundKey, with round key n of the schedule w.
pub fn add_key(w: &[u8], n: usize, k: Words) -> Words
    requires { 16 * suc n ≤ length w.now }
    ensures { block_of result ≡ add_round_key w.now n (block_of k) }
{
    k ^ words_at(w, 16 * n)
}
