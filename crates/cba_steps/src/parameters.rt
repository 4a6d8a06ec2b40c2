// The parameters of the mode.
ghost use Rattle.std.specs.Prelude.{◌≡◌, ◌/◌, ◌≤◌};
ghost use Rattle.cba_mode.specs.Sets.{ell, tag_bytes};

// Key bits, tag bits τ, capacity exponent b.
#[derive(Clone, Copy)]
pub struct Parameters {
    pub key: u16,
    pub tau: u8,
    pub capacity: u8,
}

impl Parameters {
    pub fn key_bytes(self) -> usize
        ensures { result ≡ self.key / 8 }
    {
        (self.key / 8) as usize
    }

    pub fn tag_bytes(self) -> usize
        ensures { result ≡ tag_bytes self.tau }
    {
        (self.tau / 8) as usize
    }

    // ℓ, in bits and in bytes.

    pub fn first_bits(self) -> u8
        requires { self.capacity ≤ 48 }
        ensures { result ≡ ell self.tau self.capacity }
    {
        (96 - 2 * self.capacity).min(self.tau)
    }

    pub fn first_bytes(self) -> usize
        requires { self.capacity ≤ 48 }
        ensures { result ≡ ell self.tau self.capacity / 8 }
    {
        (self.first_bits() / 8) as usize
    }
}
