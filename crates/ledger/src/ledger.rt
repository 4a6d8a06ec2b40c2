// A ledger is a value: each call returns the next one.
ghost use Rattle.std.specs.Prelude.{◌≡◌, true, ◌+◌, ◌^◌, ◌≤◌, ◌<◌, length, take};
ghost use Rattle.answers.specs.Refusals.{number_of};
ghost use Rattle.ledger_rules.specs.Ledger.{fresh, make_answer, made_ledger, stale, charged};
ghost use Rattle.ledger_rules.specs.Ledger.Source.{given};
ghost use Rattle.ledger.specs.Values.{value_of, after, Tried, Ran};

use crate::checks::is_not_above;
use answers::Refusal;
use plain::set_key_checks;

// What is kept under a name, a heading: whether there is something, and the sum of the data.
//
// No Option of the sum, nor of the last nonce below: a ledger may be any of these values, also a sum
// where nothing is kept, and ledger_script's records of that kind (put, hold) are printed as they are.
#[derive(Clone, Copy, Debug, PartialEq, Eq)]
pub struct Heading {
    pub kept: bool,
    pub sum: [u8; 16],
}

// The set, the key with zeros after it up to 32 bytes, the number of the console that seals, the
// total of blocks charged, whether a sealing or keeping with nothing to count is charged a block, the
// last accepted nonce, where one has begun it, and what is kept under the names 0 to 7.
//
// Several consoles may seal under one key, each with a ledger. That their numbers differ and that
// their totals stay at 2^b together is the hub's to see to: a ledger sees itself alone.
#[derive(Clone, Copy, Debug, PartialEq, Eq)]
pub struct Ledger {
    pub set: u32,
    pub key: [u8; 32],
    pub console: u16,
    pub total: u64,
    pub heartbeats: bool,
    pub begun: bool,
    pub last: [u8; 12],
    pub headings: [Heading; 8],
}

// A call's answer, and the next ledger; a making's, and the ledger that it gives.
#[derive(Clone, Copy, Debug, PartialEq, Eq)]
pub struct Outcome {
    pub answer: Result<(), Refusal>,
    pub ledger: Ledger,
}

// What there is under a name at first.
pub const NOTHING: Heading = Heading {
    kept: false,
    sum: [0; 16],
};

impl Default for Ledger {
    ghost use Rattle.std.specs.Prelude.{◌≡◌};
    ghost use Rattle.ledger_rules.specs.Ledger.{no_ledger};
    ghost use Rattle.ledger.specs.Values.{value_of};

    ghost is_default = { λ l. value_of l ≡ no_ledger };

    // The ledger of a refused making.
    fn default() -> Ledger {
        Ledger {
            set: 0,
            key: [0; 32],
            console: 0,
            total: 0,
            heartbeats: false,
            begun: false,
            last: [0; 12],
            headings: [NOTHING; 8],
        }
    }
}

// A fresh ledger. A receiver is made alike, of another type: a trait for the two is no plainer.
fn begin(set: u32, key: &[u8], console: u16) -> Ledger
    requires { length key.now ≤ 32 }
    ensures { value_of result ≡ fresh true set key.now console }
{
    let mut k = [0u8; 32];
    octets::put(&mut k, key);
    Ledger {
        set,
        key: k,
        console,
        heartbeats: true,
        ..Ledger::default()
    }
}

// Makes the ledger of a key and a console, and answers 0, or answers 1 or 2. A receiver has its like, of
// its own type.
pub fn make(set: u32, key: &[u8], console: u16) -> Outcome
    ensures answer_value { number_of result.answer ≡ make_answer set key.now }
    ensures ledger_value { value_of result.ledger ≡ made_ledger set key.now console }
{
    let answer = set_key_checks(set, key.len());
    let ledger = match answer {
        Ok(()) => begin(set, key, console),
        Err(_) => Ledger::default(),
    };
    Outcome { answer, ledger }
}

impl Ledger {
    // Whether a nonce is not above the last accepted.
    pub(crate) fn is_stale(&self, nonce: &[u8; 12]) -> bool
        ensures { result ≡ stale (value_of self.now) nonce.now }
    {
        if !self.begun {
            return false;
        }
        is_not_above(nonce, &self.last)
    }

    // The first n bytes of the key, which has room for 32.
    pub(crate) fn key_part(&self, n: usize) -> &[u8]
        requires { n ≤ 32 }
        ensures part_value { result.now ≡ take n self.now.key }
        ensures key_len { length self.now.key ≡ 32 }
    {
        &self.key[..n]
    }

    // The ledger after an accepted sealing: the charge added, the nonce kept.
    pub(crate) fn next(&self, nonce: &[u8; 12], charge: u64) -> Ledger
        requires { self.now.total + charge < 2 ^ 64 }
        ensures { value_of result ≡ charged (value_of self.now) nonce.now charge }
    {
        Ledger {
            total: self.total + charge,
            begun: true,
            last: *nonce,
            ..*self
        }
    }

    // The outcome of a call: the next ledger, or a refusal and the ledger as it was.
    pub(crate) fn outcome(self, next: Result<Ledger, Refusal>) -> Outcome
        ensures answer_value { number_of result.answer ≡ number_of next }
        ensures ledger_value { result.ledger ≡ after self next }
    {
        match next {
            Ok(ledger) => Outcome {
                answer: Ok(()),
                ledger,
            },
            Err(refusal) => Outcome {
                answer: Err(refusal),
                ledger: self,
            },
        }
    }

    // The next ledger of a sealing, or the refusal.
    fn try_seal(
        &self,
        nonce: &[u8],
        ad: &[u8],
        message: &[u8],
        out: &mut [u8],
    ) -> Result<Ledger, Refusal>
        ensures { Tried self.now nonce.now (given ad.now) message.now out.old result out.new }
    {
        self.known()?.seal(nonce, ad, message, out)
    }

    // Seals message over the first bytes of out under the ledger's key, answers 0 and gives back the
    // next ledger; or answers the first that applies of 1, 3, 12, 4, 5, 7, 9 and 10, and ledger and
    // out are as they were.
    pub fn sealed(self, nonce: &[u8], ad: &[u8], message: &[u8], out: &mut [u8]) -> Outcome
        ensures { Ran self nonce.now ad.now message.now out.old (number_of result.answer) result.ledger out.new }
    {
        let next = self.try_seal(nonce, ad, message, out);
        self.outcome(next)
    }
}

// The same on a ledger that is lent, which becomes the next one.
pub fn seal_in_place(
    l: &mut Ledger,
    nonce: &[u8],
    ad: &[u8],
    message: &[u8],
    out: &mut [u8],
) -> Result<(), Refusal>
    ensures { Ran l.old nonce.now ad.now message.now out.old (number_of result) l.new out.new }
{
    *l = l.try_seal(nonce, ad, message, out)?;
    Ok(())
}
