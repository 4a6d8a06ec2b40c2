// A receiver is a value: each call returns the next one.
ghost use Rattle.std.specs.Prelude.{◌≡◌, ◌≤◌, length};
ghost use Rattle.answers.specs.Refusals.{number_of};
ghost use Rattle.receiver_rules.specs.Receiver.{begin, make_answer, made_receiver};
ghost use Rattle.receiver.specs.Values.{value_of, Tried, Received};

use crate::checks::checked_counter;
use crate::window::Window;
use answers::Refusal;
use plain::{lookup, open_plain, set_key_checks};

// The set, the key with zeros after it up to 32 bytes, the number that its nonces begin with, four
// bytes of them, and the window over their counters, the other eight.
#[derive(Clone, Copy, Debug, PartialEq, Eq)]
pub struct Receiver {
    pub set: u32,
    pub key: [u8; 32],
    pub prefix: u32,
    pub window: Window,
}

// A call's answer, and the receiver after it.
#[derive(Clone, Copy, Debug, PartialEq, Eq)]
pub struct Outcome {
    pub answer: Result<(), Refusal>,
    pub receiver: Receiver,
}

impl Default for Receiver {
    ghost use Rattle.std.specs.Prelude.{◌≡◌};
    ghost use Rattle.receiver_rules.specs.Receiver.{no_receiver};
    ghost use Rattle.receiver.specs.Values.{value_of};

    ghost is_default = { λ v. value_of v ≡ no_receiver };

    // The receiver of a refused making.
    fn default() -> Receiver {
        Receiver {
            set: 0,
            key: [0; 32],
            prefix: 0,
            window: Window::default(),
        }
    }
}

// A fresh receiver. A ledger is made alike, of another type: a trait for the two is no plainer.
fn begin(set: u32, key: &[u8], prefix: u32) -> Receiver
    requires { length key.now ≤ 32 }
    ensures { value_of result ≡ begin set key.now prefix }
{
    let mut k = [0u8; 32];
    octets::put(&mut k, key);
    Receiver {
        set,
        key: k,
        prefix,
        window: Window::default(),
    }
}

// Makes the receiver of a key and of nonces that begin with prefix, big-endian, and answers 0, or
// answers 1 or 2. A ledger has its like, of its own type.
pub fn make(set: u32, key: &[u8], prefix: u32) -> Outcome
    ensures answer_value { number_of result.answer ≡ make_answer set key.now }
    ensures receiver_value { value_of result.receiver ≡ made_receiver set key.now prefix }
{
    let answer = set_key_checks(set, key.len());
    let receiver = match answer {
        Ok(()) => begin(set, key, prefix),
        Err(_) => Receiver::default(),
    };
    Outcome { answer, receiver }
}

impl Receiver {
    // The receiver after an accepted opening, or the refusal.
    fn try_open(
        &self,
        nonce: &[u8],
        ad: &[u8],
        ciphertext: &[u8],
        out: &mut [u8],
    ) -> Result<Receiver, Refusal>
        ensures { Tried self.now nonce.now ad.now ciphertext.now out.old result out.new }
    {
        let Some(p) = lookup(self.set) else {
            return Err(Refusal::Set);
        };
        let counter = checked_counter(
            self.prefix,
            p,
            nonce,
            ad.len(),
            ciphertext.len(),
            out.len(),
        )?;
        if self.window.is_repeat(counter) {
            return Err(Refusal::Repeat);
        }
        let n = p.key_bytes();
        open_plain(self.set, &self.key[..n], nonce, ad, ciphertext, out)?;
        Ok(Receiver {
            window: self.window.recorded(counter),
            ..*self
        })
    }

    // Opens ciphertext over the first bytes of out, answers 0 and gives back the receiver with the
    // counter recorded; or answers the first that applies of 1, 3, 12, 4, 5, 6, 7, 15 and 8, and the
    // receiver is as it was. out is as it was too, but for 8, which writes zeros where the message
    // would be.
    pub fn opened(self, nonce: &[u8], ad: &[u8], ciphertext: &[u8], out: &mut [u8]) -> Outcome
        ensures { Received self nonce.now ad.now ciphertext.now out.old result out.new }
    {
        match self.try_open(nonce, ad, ciphertext, out) {
            Ok(receiver) => Outcome {
                answer: Ok(()),
                receiver,
            },
            Err(refusal) => Outcome {
                answer: Err(refusal),
                receiver: self,
            },
        }
    }
}
