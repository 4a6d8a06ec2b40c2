// Strings as pairs of lower-case hex digits, `-` for the empty one, read.
ghost use Rattle.std.specs.Prelude.{◌≡◌, true, ◌++◌, ◌/◌, ◌≤◌, ◌<◌, length, drop};
ghost use Rattle.text.specs.Numerals.{is_hex_digit, hex_value, are_hex_pairs, unhex, is_value, value_of};
ghost use Rattle.text.specs.Writing.{Puts};

#[tactic(auto, unfolding(crate::specs::Numerals::is_digit, crate::specs::Numerals::is_hex_digit))]
fn is_hex_digit(c: u8) -> bool
    ensures { result ≡ is_hex_digit c }
{
    matches!(c, b'0'..=b'9' | b'a'..=b'f')
}

// What a hex digit stands for.
fn hex_value(c: u8) -> u8
    requires { is_hex_digit c ≡ true }
    ensures { (result ≡ hex_value c) × (result < 16) }
{
    match c {
        ..=b'9' => c - b'0',
        _ => c - b'a' + 10,
    }
}

fn are_hex_pairs(w: &[u8]) -> bool
    ensures { result ≡ are_hex_pairs w.now }
{
    w.len() % 2 == 0 && w.iter().all(|c| is_hex_digit(*c))
}

pub fn is_value(w: &[u8]) -> bool
    ensures { result ≡ is_value w.now }
{
    match w {
        [] => false,
        [c] => *c == b'-',
        _ => are_hex_pairs(w),
    }
}

// The bytes of pairs of digits over the first bytes of out.
fn read_hex(w: &[u8], out: &mut [u8])
    requires w_value { are_hex_pairs w.now ≡ true }
    requires w_in_bounds { length w.now / 2 ≤ length out.old }
    ensures { out.new ≡ unhex w.now ++ drop (length w.now / 2) out.old }
{
    for i in 0..w.len() / 2 {
        out[i] = hex_value(w[2 * i]) * 16 + hex_value(w[2 * i + 1]);
    }
}

// What a value stands for, over the first bytes of out, and how many bytes it has.
pub fn read_value(w: &[u8], out: &mut [u8]) -> usize
    requires w_value { is_value w.now ≡ true }
    requires w_in_bounds { length w.now / 2 ≤ length out.old }
    ensures { Puts (value_of w.now) result out.old out.new }
{
    // A value of one character is `-`.
    if w.len() == 1 {
        return 0;
    }
    read_hex(w, out);
    w.len() / 2
}
