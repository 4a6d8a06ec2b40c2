// A comparison that looks at every byte, and zeros over what must not be seen.
ghost use Rattle.std.specs.Prelude.{◌≡◌, ◌++◌, ◌≤◌, length, drop, replicate};
ghost use Rattle.octets.specs.Strings.{eqs};

// Whether two strings are the same. It does not stop at the first difference, so that its time
// tells nothing about the place of one.
pub fn same(a: &[u8], b: &[u8]) -> bool
    requires { length a.now ≡ length b.now }
    ensures { result ≡ eqs a.now b.now }
{
    let mut differ = 0u8;
    for (x, y) in a.iter().zip(b) {
        differ |= x ^ y;
    }
    differ == 0
}

// Zeros over the first n bytes.
pub fn clear(out: &mut [u8], n: usize)
    requires { n ≤ length out.old }
    ensures { out.new ≡ replicate n 0 ++ drop n out.old }
{
    out[..n].fill(0);
}
