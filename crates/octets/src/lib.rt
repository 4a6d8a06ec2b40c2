// Byte strings: what the cipher and the modes share.
//
// The definitions are in specs/, the laws about them in proofs/.
#![tactic(auto)]

mod compare;

ghost use Rattle.std.specs.Prelude.{◌≡◌, ◌≤◌, length, take};
ghost use Rattle.octets.specs.Strings.{over};
ghost use Rattle.octets.specs.Xor.{xors};

pub use compare::{clear, same};

// The exclusive or of two blocks.
pub fn xor_block(a: [u8; 16], b: [u8; 16]) -> [u8; 16]
    ensures { result ≡ xors a b }
{
    let mut r = [0; 16];
    for i in 0..16 {
        r[i] = a[i] ^ b[i];
    }
    r
}

// Writes the string s over the first bytes of out. To write at a place, a caller lends the part
// of its slice that begins there: put(&mut out[at..], s). The library's copy_from_slice looks whether
// the two overlap: with it a sealing of no bytes took 4 percent longer.
pub fn put(out: &mut [u8], s: &[u8])
    requires { length s.now ≤ length out.old }
    ensures { out.new ≡ over s.now out.old }
{
    for i in 0..s.len() {
        out[i] = s[i];
    }
}

// The first block of a slice. To read one at a place, a caller lends the part that begins there. Its
// bytes are taken one by one for the reason that `put` has.
pub fn first_block(s: &[u8]) -> [u8; 16]
    requires { 16 ≤ length s.now }
    ensures { result ≡ take 16 s.now }
{
    let mut r = [0; 16];
    for i in 0..16 {
        r[i] = s[i];
    }
    r
}
