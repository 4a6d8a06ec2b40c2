// What a ledger keeps under its names, and sealing by name. What is kept is the sum of the data, so
// that a sealing does not walk over them again.
ghost use Rattle.std.specs.Prelude.{◌≡◌, true, [], ◌∷◌, ◌+◌, ◌^◌, ◌≤◌, ◌<◌, length};
ghost use Rattle.answers.specs.Rows.{answer};
ghost use Rattle.answers.specs.Refusals.{number_of};
ghost use Rattle.fips197.specs.Schedule.{is_key};
ghost use Rattle.fips197.specs.Cipher.{cipher};
ghost use Rattle.cba_mode.specs.Data.{data_hash};
ghost use Rattle.cba_sealing.specs.Calls.{Seals, Enc};
ghost use Rattle.ledger_rules.specs.Ledger.{heading_at, is_kept, bad_name, ledger_answer, keep_answer, keeping, kept_ledger};
ghost use Rattle.ledger_rules.specs.Ledger.Source.{named};
ghost use Rattle.ledger.specs.Values.{heading_of, value_of, Tried, TriedKeeping, RanByName, RanKeeping};

use crate::checks::charge;
use crate::known::Known;
use crate::ledger::{Heading, Ledger, Outcome};
use aes::Encryption;
use answers::Refusal;
use cba_sealing::enc;
use cba_steps::{Parameters, data_hash};
use plain::ad_check;

const NAMES: u32 = 8;

// 13, where a name is not as the call asks.
fn name_check(good: bool) -> Result<(), Refusal>
    ensures { number_of result ≡ answer (bad_name good ∷ []) }
{
    if !good {
        return Err(Refusal::Name);
    }
    Ok(())
}

// The sum of data, of which T_A is the first t bytes. E is made here and in `seal_with`, for one call
// each: a function that makes it and takes that call as a closure is no plainer.
fn sum_of(p: Parameters, key: &[u8], ad: &[u8]) -> [u8; 16]
    requires key_value { is_key key.now ≡ true }
    requires ad_len_bound { length ad.now ≤ 4096 }
    ensures { result ≡ data_hash (cipher key.now) p.tau p.capacity ad.now }
{
    let mut ctx = aes::blank();
    let e = Encryption::new(key, &mut ctx);
    data_hash(&e, p, ad)
}

// The sealing with a sum.
fn seal_with(p: Parameters, key: &[u8], nonce: &[u8], sum: [u8; 16], message: &[u8], out: &mut [u8])
    requires key_value { is_key key.now ≡ true }
    requires seals { Seals p nonce.now message.now out.old }
    ensures { Enc key.now p nonce.now sum message.now out.old out.new }
{
    let mut ctx = aes::blank();
    let e = Encryption::new(key, &mut ctx);
    enc(&e, p, nonce, sum, message, out);
}

impl Ledger {
    // What there is under a name.
    fn heading(&self, name: u32) -> Heading
        requires { name < 8 }
        ensures { heading_of result ≡ heading_at (value_of self.now) name }
    {
        self.headings[name as usize]
    }

    // Whether a name has something kept.
    fn is_kept(&self, name: u32) -> bool
        ensures { result ≡ is_kept (value_of self.now) name }
    {
        if name >= NAMES {
            return false;
        }
        self.heading(name).kept
    }

    // The ledger with a sum under a name and a charge added.
    fn with_sum(&self, name: u32, sum: [u8; 16], charge: u64) -> Ledger
        requires { (name < 8) × (self.now.total + charge < 2 ^ 64) }
        ensures { value_of result ≡ keeping (value_of self.now) name sum charge }
    {
        let mut after = *self;
        after.total += charge;
        after.headings[name as usize] = Heading { kept: true, sum };
        after
    }
}

impl Known<'_> {
    // The checks of a keeping after the set's, in their order.
    fn keep_checks(&self, name: u32, ad: usize) -> Result<(), Refusal>
        ensures { number_of result ≡ keep_answer (value_of self.now.ledger.now) name ad }
    {
        name_check(name < NAMES)?;
        ad_check(ad)?;
        self.capacity_check(charge(self.ledger.heartbeats, ad, 0))
    }

    // The next ledger of a keeping, or the refusal.
    fn keep(&self, name: u32, ad: &[u8]) -> Result<Ledger, Refusal>
        ensures { TriedKeeping self.now.ledger.now name ad.now result }
    {
        self.keep_checks(name, ad.len())?;
        Ok(self.kept(name, ad))
    }

    // The keeping of data that no check refuses.
    fn kept(&self, name: u32, ad: &[u8]) -> Ledger
        requires { keep_answer (value_of self.now.ledger.now) name (length ad.now) ≡ 0 }
        ensures { value_of result ≡ kept_ledger (value_of self.now.ledger.now) name ad.now }
    {
        let l = self.ledger;
        let n = self.p.key_bytes();
        let sum = sum_of(self.p, l.key_part(n), ad);
        l.with_sum(name, sum, charge(l.heartbeats, ad.len(), 0))
    }

    // The next ledger of a sealing by name, or the refusal.
    fn seal_by_name(
        &self,
        name: u32,
        nonce: &[u8],
        message: &[u8],
        out: &mut [u8],
    ) -> Result<Ledger, Refusal>
        ensures { Tried self.now.ledger.now nonce.now (named name) message.now out.old result out.new }
    {
        let source = name_check(self.ledger.is_kept(name));
        let whole = self.checked(nonce, source, 0, message.len(), out.len())?;
        Ok(self.seal_named(name, whole, message, out))
    }

    // The sealing by name of an input that no check refuses.
    fn seal_named(&self, name: u32, nonce: &[u8; 12], message: &[u8], out: &mut [u8]) -> Ledger
        requires { ledger_answer (value_of self.now.ledger.now) nonce.now (named name) (length message.now) (length out.old) ≡ 0 }
        ensures { RanByName self.now.ledger.now nonce.now name message.now out.old 0 result out.new }
    {
        let l = self.ledger;
        let n = self.p.key_bytes();
        let sum = l.heading(name).sum;
        seal_with(self.p, l.key_part(n), nonce, sum, message, out);
        l.next(nonce, charge(l.heartbeats, 0, message.len()))
    }
}

impl Ledger {
    fn try_keep(&self, name: u32, ad: &[u8]) -> Result<Ledger, Refusal>
        ensures { TriedKeeping self.now name ad.now result }
    {
        self.known()?.keep(name, ad)
    }

    fn try_seal_by_name(
        &self,
        name: u32,
        nonce: &[u8],
        message: &[u8],
        out: &mut [u8],
    ) -> Result<Ledger, Refusal>
        ensures { Tried self.now nonce.now (named name) message.now out.old result out.new }
    {
        self.known()?.seal_by_name(name, nonce, message, out)
    }

    // Keeps data under a name, in place of what was there, answers 0 and gives back the next ledger; or
    // answers the first that applies of 1, 13, 4 and 10, and the ledger is as it was.
    pub fn keep(self, name: u32, ad: &[u8]) -> Outcome
        ensures { RanKeeping self name ad.now (number_of result.answer) result.ledger }
    {
        self.outcome(self.try_keep(name, ad))
    }

    // Seals as `sealed` does, with the data that are kept under a name; or answers the first that
    // applies of 1, 3, 12, 13, 5, 7, 9 and 10, and ledger and out are as they were.
    pub fn sealed_by_name(self, name: u32, nonce: &[u8], message: &[u8], out: &mut [u8]) -> Outcome
        ensures { RanByName self nonce.now name message.now out.old (number_of result.answer) result.ledger out.new }
    {
        let next = self.try_seal_by_name(name, nonce, message, out);
        self.outcome(next)
    }
}
