// The parameter sets.
ghost use Rattle.plain.specs.Lookup.{LooksUp};

use cba_steps::Parameters;

// Key bits, τ and b of each set, from 1 on.
const SETS: [(u16, u8, u8); 10] = [
    (128, 32, 16),
    (128, 32, 32),
    (128, 64, 16),
    (128, 64, 32),
    (128, 64, 48),
    (128, 96, 16),
    (128, 96, 32),
    (128, 96, 48),
    (192, 64, 32),
    (256, 96, 48),
];

// The parameters of a set, or none where its number is not 1 to 10.
pub fn lookup(set: u32) -> Option<Parameters>
    ensures { LooksUp set result }
{
    let (key, tau, capacity) = *SETS.get(set.checked_sub(1)? as usize)?;
    Some(Parameters { key, tau, capacity })
}
