// The two directions of the block function. They differ in it, and in whether what goes in or what
// comes out is the message.
ghost use Rattle.std.specs.Prelude.{◌≡◌, cond, true, false, Bool, List, ℕ};
ghost use Rattle.fips197.specs.Cipher.{cipher, inv_cipher};
ghost use Rattle.aes_schedule.specs.Words.{block_of};
ghost use Rattle.aes.specs.Pairs.{Both};

use aes::{Decryption, Encryption, Pair};
use aes_schedule::{Words, read, write};

pub trait Direction {
    // The block function.
    ghost function: { Self → List ℕ → List ℕ };

    // Whether what goes in is the message.
    ghost seals: { Bool };

    fn block(&self, b: Words) -> Words
        ensures { block_of result ≡ function self.now (block_of b) };

    // Two blocks at once.
    fn pair(&self, p: Pair) -> Pair
        ensures { Both (function self.now) p result };

    // Of what goes in and what comes out, the message.
    fn message(before: Words, after: Words) -> Words
        ensures { result ≡ cond seals before after };
}

impl<'a> Direction for Encryption<'a> {
    ghost function = { cipher };

    ghost seals = { true };

    fn block(&self, b: Words) -> Words {
        read(self.encrypt(write(b)))
    }

    fn pair(&self, p: Pair) -> Pair {
        self.encrypt_pair(p)
    }

    fn message(before: Words, _after: Words) -> Words
        ensures { result ≡ before }
    {
        before
    }
}

impl<'a> Direction for Decryption<'a> {
    ghost function = { inv_cipher };

    ghost seals = { false };

    fn block(&self, b: Words) -> Words {
        self.decrypt_words(b)
    }

    fn pair(&self, p: Pair) -> Pair {
        self.decrypt_pair(p)
    }

    fn message(_before: Words, after: Words) -> Words
        ensures { result ≡ after }
    {
        after
    }
}
