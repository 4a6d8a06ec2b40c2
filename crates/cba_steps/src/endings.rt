// How what follows the first ℓ bits of a message ends: the form that its length takes.
ghost use Rattle.std.specs.Prelude.{◌≡◌, ◌≤◌, ◌<◌};
ghost use Rattle.cba_steps.specs.Endings.{blocks_of, Decided};

// The form, and the number of full blocks before the last two of the joined form or the last one of
// the separate.
#[derive(Clone, Copy, Debug, PartialEq, Eq)]
pub enum Ending {
    Joined { blocks: usize },
    Separate { blocks: usize },
}

impl Ending {
    pub fn blocks(self) -> usize
        ensures { result ≡ blocks_of self }
    {
        match self {
            Ending::Joined { blocks } | Ending::Separate { blocks } => blocks,
        }
    }
}

// Of a message of n bytes, of which l come first, with a tag of t bytes.
pub fn ending_of(l: usize, t: usize, n: usize) -> Ending
    requires l_lt_n { l < n }
    requires t_bound { t ≤ 16 }
    ensures { Decided l t n result }
{
    let k = (n - l - 1) / 16;
    if k >= 1 && n - l - 16 * k + t <= 16 {
        return Ending::Joined { blocks: k - 1 };
    }
    Ending::Separate { blocks: k }
}
