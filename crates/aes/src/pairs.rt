// One block or two under way at once: while the round of one waits for its lookups, that of the other
// goes on.
ghost use Rattle.std.specs.Prelude.{◌≡◌, List, ℕ};
ghost use Rattle.aes_schedule.specs.declared.words.Words.{Words};
ghost use Rattle.aes_schedule.specs.Words.{block_of};
ghost use Rattle.aes.specs.Pairs.{Both, Sums};

use aes_schedule::Words;
use std::ops::BitXor;

#[derive(Clone, Copy)]
pub struct Pair {
    pub x: Words,
    pub y: Words,
}

// Blocks that go through the same steps, each by itself. The rounds are written once over them.
pub trait Blocks: Copy {
    // f of each block
    ghost Each: { (List ℕ → List ℕ) → Self → Self → Type 0 };

    // Calls f with each block. What is said of f is said of the blocks' bytes.
    fn each<F: Fn(Words) -> Words>(self, f: F) -> Self
        requires { F.IsAlwaysCallable f }
        ensures { (g : List ℕ → List ℕ) → ((k r : Words) → F.post f k r → block_of r ≡ g (block_of k)) → Each g self result };

    // f, and then g
    ghost then: { (f g h : List ℕ → List ℕ) → ((s t u : List ℕ) → t ≡ f s → u ≡ g t → u ≡ h s) →
        (p q r : Self) → Each f p q → Each g q r → Each h p r };
}

impl Blocks for Words {
    ghost Each = { λ f p r. block_of r ≡ f (block_of p) };

    fn each<F: Fn(Words) -> Words>(self, f: F) -> Words {
        f(self)
    }

    ghost then = { λ f g h law p q r v z. law _ _ _ v z };
}

impl Blocks for Pair {
    ghost Each = { Both };

    fn each<F: Fn(Words) -> Words>(self, f: F) -> Pair {
        Pair {
            x: f(self.x),
            y: f(self.y),
        }
    }

    ghost then = { λ f g h law p q r v z. record { first = law _ _ _ v.first z.first; second = law _ _ _ v.second z.second } };
}

// The exclusive or of two pairs.
impl BitXor for Pair {
    type Output = Pair;

    ghost bitxor_gives = { Sums };

    fn bitxor(self, q: Pair) -> Pair {
        Pair {
            x: self.x ^ q.x,
            y: self.y ^ q.y,
        }
    }
}
