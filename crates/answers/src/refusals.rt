// The refusals of all calls. C and the programs see a refusal as its number, or as its word.
ghost use Rattle.std.specs.Prelude.{◌≡◌, Some};
ghost use Rattle.answers.specs.Refusals.{number_of_refusal, number_of, word_of};

use std::error::Error;
use std::fmt;

// Why a call did nothing: a variant for each row of the table from 1 on, in its order and by its word.
#[derive(Clone, Copy, Debug, PartialEq, Eq)]
pub enum Refusal {
    Set,
    Key,
    Nonce,
    Data,
    Text,
    Stub,
    Buffer,
    False,
    Stale,
    Spent,
    Line,
    Console,
    Name,
    Mark,
    Repeat,
}

impl From<Refusal> for u32 {
    ghost from_gives = { λ refusal r. r ≡ number_of_refusal refusal };

    fn from(refusal: Refusal) -> u32 {
        match refusal {
            Refusal::Set => 1,
            Refusal::Key => 2,
            Refusal::Nonce => 3,
            Refusal::Data => 4,
            Refusal::Text => 5,
            Refusal::Stub => 6,
            Refusal::Buffer => 7,
            Refusal::False => 8,
            Refusal::Stale => 9,
            Refusal::Spent => 10,
            Refusal::Line => 11,
            Refusal::Console => 12,
            Refusal::Name => 13,
            Refusal::Mark => 14,
            Refusal::Repeat => 15,
        }
    }
}

impl Refusal {
    // The table's word.
    pub fn word(self) -> &'static str
        ensures { result.now ≡ word_of self }
    {
        match self {
            Refusal::Set => "set",
            Refusal::Key => "key",
            Refusal::Nonce => "nonce",
            Refusal::Data => "data",
            Refusal::Text => "text",
            Refusal::Stub => "stub",
            Refusal::Buffer => "buffer",
            Refusal::False => "false",
            Refusal::Stale => "stale",
            Refusal::Spent => "spent",
            Refusal::Line => "line",
            Refusal::Console => "console",
            Refusal::Name => "name",
            Refusal::Mark => "mark",
            Refusal::Repeat => "repeat",
        }
    }
}

impl fmt::Display for Refusal {
    ghost output = { λ refusal. Some (word_of refusal) };

    fn fmt<W: fmt::Write>(&self, f: &mut fmt::Formatter<W>) -> fmt::Result {
        f.write_str(self.word())
    }
}

impl Error for Refusal {}

// The number that C is answered: 0 for an accepted call.
pub fn number_of(r: Result<(), Refusal>) -> u32
    ensures { result ≡ number_of r }
{
    match r {
        Ok(()) => 0,
        Err(refusal) => refusal.into(),
    }
}
