// What a call that uses a key holds of it, in arrays that the caller owns and lends: a context for
// encryption, and one for decryption. Each has the tables that its rounds read, and the round keys
// after them. A call that only encrypts stores no table of decryption.
ghost use Rattle.std.specs.Prelude.{◌≡◌, true, ◌*◌, ◌≤◌, suc, length, List, ℕ};
ghost use Rattle.octets.specs.Strings.{table, Bytes};
ghost use Rattle.field.specs.SBox.{inv_s_box};
ghost use Rattle.aes_tables.specs.Round.{entry, inverse_entry, forward, inverses};
ghost use Rattle.fips197.specs.Schedule.{is_key, key_expansion};
ghost use Rattle.fips197.specs.Equivalent.{key_expansion_eic};
ghost use Rattle.fips197.specs.Cipher.{key_rounds};
ghost use Rattle.aes_schedule.specs.Boxes.{Boxes};
ghost use Rattle.aes.specs.Context.{blank_of, Encrypts, Decrypts, schedule_at, KeysAt};
ghost use Rattle.aes.specs.Tables.{Entries};

use crate::inverse_keys::inv_mix_key;
use aes_schedule::{expand, write};
use std::marker::Model;

pub type Context = [u8; 2288];

pub type Inverse = [u8; 2544];

// Where the parts after the first begin: the round keys of a context; the inverse S-box and the
// round keys of that for decryption.
const KEYS: usize = 2048;

const INVERSE_BOX: usize = 2048;

const INVERSE_KEYS: usize = 2304;

pub fn is_key(key: &[u8]) -> bool
    ensures { result ≡ is_key key.now }
{
    matches!(key.len(), 16 | 24 | 32)
}

// The two contexts with no key. They are stored here, once for each key, and lent from here on: a
// constant is stored to the stack at every call of a function that names it.

pub fn blank() -> Context
    ensures { result ≡ blank_of forward }
{
    aes_tables::forward()
}

pub fn blank_inverse() -> Inverse
    ensures { result ≡ blank_of inverses }
{
    aes_tables::inverses()
}

// E under a key. Contracts see the key.
#[derive(Drop)]
pub struct Encryption<'a> {
    pub key: &'a [u8],
    pub ctx: &'a Context,
}

impl<'a> Model for Encryption<'a> {
    ghost Value = { List ℕ };

    ghost view = { λ e. e.key.now };

    ghost invariant = { λ e. Encrypts e.key.now e.ctx.now };
}

impl<'a> Encryption<'a> {
    // Fills a blank context for the key. It is put into its callers, so that they know where the tables
    // lie that the rounds read.
    #[inline(always)]
    pub fn new(key: &'a [u8], ctx: &'a mut Context) -> Encryption<'a>
        requires key_value { is_key key.now ≡ true }
        requires ctx_value { ctx.old ≡ blank_of forward }
        ensures { result ≡ key.now }
    {
        fill(key, ctx);
        Encryption { key, ctx }
    }

    // The parts that the rounds read. A field that is a reference is bound before it is sliced: the
    // borrow checker covers no other form.

    pub(crate) fn table(&self) -> &'a [u8]
        ensures entries { Entries entry result.now }
        ensures boxes { Boxes result.now }
    {
        let ctx = self.ctx;
        &ctx[..KEYS]
    }

    pub(crate) fn keys(&self) -> &'a [u8]
        ensures result_value { result.now ≡ key_expansion self.now }
        ensures result_len { length result.now ≡ 16 * suc (key_rounds self.now) }
    {
        let ctx = self.ctx;
        round_keys(self.key, ctx, KEYS)
    }

    pub(crate) fn rounds(&self) -> usize
        ensures rounds { (result ≡ key_rounds self.now) × (10 ≤ result) × (result ≤ 14) }
        ensures key_good { is_key self.now ≡ true }
    {
        rounds_of(self.key)
    }
}

// D under a key. Contracts see the key.
#[derive(Drop)]
pub struct Decryption<'a> {
    pub key: &'a [u8],
    pub ctx: &'a Inverse,
}

impl<'a> Model for Decryption<'a> {
    ghost Value = { List ℕ };

    ghost view = { λ d. d.key.now };

    ghost invariant = { λ d. Decrypts d.key.now d.ctx.now };
}

impl<'a> Decryption<'a> {
    // Fills a blank context for decryption, from E under the key.
    pub fn new<'k: 'a>(e: &Encryption<'k>, inv: &'a mut Inverse) -> Decryption<'a>
        requires { inv.old ≡ blank_of inverses }
        ensures { result ≡ e.now }
    {
        fill_inverse(e, inv);
        Decryption {
            key: e.key,
            ctx: inv,
        }
    }

    // The parts that the rounds read.

    pub(crate) fn table(&self) -> &'a [u8]
        ensures { Entries inverse_entry result.now }
    {
        let ctx = self.ctx;
        &ctx[..INVERSE_BOX]
    }

    pub(crate) fn s_box(&self) -> &'a [u8]
        ensures result_value { result.now ≡ table inv_s_box 256 }
        ensures result_len { length result.now ≡ 256 }
    {
        let ctx = self.ctx;
        &ctx[INVERSE_BOX..INVERSE_KEYS]
    }

    pub(crate) fn keys(&self) -> &'a [u8]
        ensures result_value { result.now ≡ key_expansion_eic self.now }
        ensures result_len { length result.now ≡ 16 * suc (key_rounds self.now) }
    {
        let ctx = self.ctx;
        round_keys(self.key, ctx, INVERSE_KEYS)
    }

    pub(crate) fn rounds(&self) -> usize
        ensures rounds { (result ≡ key_rounds self.now) × (10 ≤ result) × (result ≤ 14) }
        ensures key_bytes { Bytes self.now }
        ensures key_good { is_key self.now ≡ true }
    {
        rounds_of(self.key)
    }
}

// Fills a blank context for a key: the schedule. It stays a call of its own, so that `new` is short.
#[inline(never)]
pub fn fill(key: &[u8], ctx: &mut [u8])
    requires key_value { is_key key.now ≡ true }
    requires ctx_value { ctx.old ≡ blank_of forward }
    ensures { Encrypts key.now ctx.new }
{
    expand(key, KEYS, ctx);
}

// Fills a blank context for decryption: the schedule, with InvMixColumns on the round keys between the
// first and the last.
pub fn fill_inverse(e: &Encryption, inv: &mut [u8])
    requires { inv.old ≡ blank_of inverses }
    ensures { Decrypts e.now inv.new }
{
    let w = e.keys();
    let nr = e.rounds();
    octets::put(&mut inv[INVERSE_KEYS..], &w[..16]);
    for i in 0..nr - 1 {
        let m = write(inv_mix_key(e, &inv[..INVERSE_BOX], w, i + 1));
        octets::put(&mut inv[INVERSE_KEYS + 16 * (i + 1)..], &m);
    }
    octets::put(&mut inv[INVERSE_KEYS + 16 * nr..], &w[16 * nr..]);
}

// The schedule, from its place on.
fn round_keys<'a>(key: &[u8], ctx: &'a [u8], at: usize) -> &'a [u8]
    requires { KeysAt at key.now ctx.now }
    ensures result_value { result.now ≡ schedule_at at key.now }
    ensures result_len { length result.now ≡ 16 * suc (key_rounds key.now) }
{
    let n = 16 * rounds_of(key) + 16;
    &ctx[at..at + n]
}

// The number of rounds that goes with a key.
fn rounds_of(key: &[u8]) -> usize
    requires { is_key key.now ≡ true }
    ensures rounds { (result ≡ key_rounds key.now) × (10 ≤ result) × (result ≤ 14) }
    ensures key_bytes { Bytes key.now }
{
    key.len() / 4 + 6
}
