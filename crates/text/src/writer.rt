// Text written to a lent slice, from its start on.
ghost use Rattle.std.specs.Prelude.{◌≡◌, [], ◌∷◌, ◌+◌, ◌*◌, ◌≤◌, ◌<◌, length};
ghost use Rattle.text.specs.Numerals.{decimal, hex_digit, hex, shown};
ghost use Rattle.text.specs.Writing.{Wrote};

// The first bytes of out are written, at of them.
#[derive(Drop)]
pub struct Writer<'a> {
    out: &'a mut [u8],
    at: usize,
}

impl<'a> Writer<'a> {
    pub fn new(out: &'a mut [u8]) -> Writer<'a>
        ensures same { result.out.ghost_name ≡ out.entry.ghost_name }
        ensures start { (result.at ≡ 0) × (result.out.now ≡ out.old) }
    {
        Writer { out, at: 0 }
    }

    // How many bytes are written.
    pub fn count(&self) -> usize
        ensures { result ≡ self.now.at }
    {
        self.at
    }

    pub fn byte(&mut self, b: u8)
        requires { self.old.at < length self.old.out.now }
        ensures { Wrote (b ∷ []) self.old self.new }
    {
        self.out[self.at] = b;
        self.at += 1;
    }

    pub fn bytes(&mut self, s: &[u8])
        requires { self.old.at + length s.now ≤ length self.old.out.now }
        ensures { Wrote s.now self.old self.new }
    {
        octets::put(&mut self.out[self.at..], s);
        self.at += s.len();
    }

    // A number below 100,000, without leading zeros.
    pub fn decimal(&mut self, n: u32)
        requires { (n < 100000) × (self.old.at + 5 ≤ length self.old.out.now) }
        ensures most { self.new.at ≤ self.old.at + 5 }
        ensures wrote { Wrote (decimal n) self.old self.new }
    {
        let digits = [
            b'0' + (n / 10000 % 10) as u8,
            b'0' + (n / 1000 % 10) as u8,
            b'0' + (n / 100 % 10) as u8,
            b'0' + (n / 10 % 10) as u8,
            b'0' + (n % 10) as u8,
        ];
        let from = leading(n);
        self.bytes(&digits[from..]);
    }

    // A space and a number below 100,000.
    pub fn number(&mut self, n: u32)
        requires { (n < 100000) × (self.old.at + 6 ≤ length self.old.out.now) }
        ensures most { self.new.at ≤ self.old.at + 6 }
        ensures wrote { Wrote (32 ∷ decimal n) self.old self.new }
    {
        self.byte(b' ');
        self.decimal(n);
    }

    // A space and a string.
    pub fn string(&mut self, s: &[u8])
        requires { self.old.at + 2 * length s.now + 2 ≤ length self.old.out.now }
        ensures most { self.new.at ≤ self.old.at + 2 * length s.now + 2 }
        ensures wrote { Wrote (32 ∷ shown s.now) self.old self.new }
    {
        self.byte(b' ');
        self.shown(s);
    }

    // A string: in hex, or `-` where it is empty.
    pub fn shown(&mut self, s: &[u8])
        requires room { self.old.at + 2 * length s.now ≤ length self.old.out.now }
        requires some_room { self.old.at < length self.old.out.now }
        ensures most { self.new.at ≤ self.old.at + 2 * length s.now + 1 }
        ensures wrote { Wrote (shown s.now) self.old self.new }
    {
        if s.is_empty() {
            self.byte(b'-');
        } else {
            self.hex(s);
        }
    }

    fn hex(&mut self, s: &[u8])
        requires { self.old.at + 2 * length s.now ≤ length self.old.out.now }
        ensures { Wrote (hex s.now) self.old self.new }
    {
        for x in s {
            self.byte(hex_digit(*x / 16));
            self.byte(hex_digit(*x % 16));
        }
    }
}

// How many of five digits are zeros before the number.
fn leading(n: u32) -> usize
    requires { n < 100000 }
    ensures { result + length (decimal n) ≡ 5 }
{
    match n {
        0..=9 => 4,
        10..=99 => 3,
        100..=999 => 2,
        1000..=9999 => 1,
        _ => 0,
    }
}

// A digit of a number below 16.
#[tactic(auto, unfolding(crate::specs::Numerals::hex_digit))]
fn hex_digit(v: u8) -> u8
    requires { v < 16 }
    ensures { result ≡ hex_digit v }
{
    match v {
        0..=9 => b'0' + v,
        _ => b'a' + (v - 10),
    }
}
