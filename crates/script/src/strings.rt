// Strings from a seed.
ghost use Rattle.std.specs.Prelude.{◌≡◌, ◌≤◌, length};
ghost use Rattle.script.specs.Strings.{filled};

// At most 251 bytes: the seed and the numbers after it.
fn fill_round(s: &mut [u8], seed: u8)
    requires { length s.old ≤ 251 }
    ensures { s.new ≡ filled seed (length s.old) }
{
    for i in 0..s.len() {
        s[i] = seed.wrapping_add(i as u8);
    }
}

// In rounds of 251 bytes: within a round no byte waits for the one before it.
pub fn fill(s: &mut [u8], seed: u8)
    ensures { s.new ≡ filled seed (length s.old) }
{
    for i in 0..s.len().div_ceil(251) {
        let at = 251 * i;
        let end = s.len().min(at + 251);
        fill_round(&mut s[at..end], seed);
    }
}
