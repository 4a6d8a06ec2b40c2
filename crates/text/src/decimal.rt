// The numbers of sets, read.
ghost use Rattle.std.specs.Prelude.{◌≡◌};
ghost use Rattle.text.specs.Numerals.{is_digit, all_digits, is_set_number, read_set_number};

#[tactic(auto, unfolding(crate::specs::Numerals::is_digit))]
fn is_digit(c: u8) -> bool
    ensures { result ≡ is_digit c }
{
    matches!(c, b'0'..=b'9')
}

// 1 to 3 digits without a leading zero, `0` allowed.
fn is_set_number(w: &[u8]) -> bool
    ensures { result ≡ is_set_number w.now }
{
    match w.len() {
        1 => all_digits(w),
        2..=3 => w[0] != b'0' && all_digits(w),
        _ => false,
    }
}

fn all_digits(w: &[u8]) -> bool
    ensures { result ≡ all_digits w.now }
{
    w.iter().all(|c| is_digit(*c))
}

// The number that a word stands for, if it is the number of a set.
pub fn read_set_number(w: &[u8]) -> Option<u32>
    ensures { result ≡ read_set_number w.now }
{
    if !is_set_number(w) {
        return None;
    }
    let mut n = 0;
    for c in w {
        n = n * 10 + u32::from(*c - b'0');
    }
    Some(n)
}
