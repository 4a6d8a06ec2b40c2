// The associated data: H of the paper.
ghost use Rattle.std.specs.Prelude.{◌≡◌, ◌++◌, ◌≤◌, length};
ghost use Rattle.octets.specs.Numbers.{digits};
ghost use Rattle.octets.specs.Xor.{xors};
ghost use Rattle.fips197.specs.Cipher.{cipher};
ghost use Rattle.cba_mode.specs.Data.{with_rest, data_sum, data_hash};
ghost use Rattle.cba_steps.specs.Halves.{halves_of};
ghost use Rattle.cba_steps.specs.Walk.{depth};

use crate::offsets::{Halves, doubled, pad, start, step_block, whole};
use crate::parameters::Parameters;
use aes::Encryption;

// The sum with E(block ⊕ offset) added.
fn added(e: &Encryption, sum: [u8; 16], block: [u8; 16], offset: [u8; 16]) -> [u8; 16]
    ensures { result ≡ xors sum (cipher e.now (xors block offset)) }
{
    octets::xor_block(sum, e.encrypt(octets::xor_block(block, offset)))
}

// The sum after a rest under 16 bytes, which is padded where it is not empty.
fn with_rest(e: &Encryption, sum: [u8; 16], offset: Halves, rest: &[u8]) -> [u8; 16]
    ensures { result ≡ with_rest (cipher e.now) sum (halves_of offset) rest.now }
{
    if rest.is_empty() {
        return sum;
    }
    added(e, sum, pad(rest), step_block(3, 3, offset))
}

// The sum after all of the data, a call for each full block. `depth`, the calls that are still to
// come, falls at each call and is at most 256. The offset goes by its halves as numbers, which stay in
// registers: a level takes less of the stack.
fn walk(e: &Encryption, sum: [u8; 16], a: u64, b: u64, rest: &[u8]) -> [u8; 16]
    requires { depth rest.now ≤ 256 }
    ensures { result ≡ data_sum (cipher e.now) sum (digits 8 a ++ digits 8 b) rest.now }
{
    let h = Halves { a, b };
    if rest.len() < 16 {
        return with_rest(e, sum, h, rest);
    }
    let next = doubled(h);
    let more = added(e, sum, octets::first_block(rest), whole(next));
    walk(e, more, next.a, next.b, &rest[16..])
}

// The sum whose first τ bits are T_A, of at most 4,096 bytes: the walk is a recursion, and its stack
// has to have an end.
pub fn data_hash(e: &Encryption, p: Parameters, ad: &[u8]) -> [u8; 16]
    requires { length ad.now ≤ 4096 }
    ensures { result ≡ data_hash (cipher e.now) p.tau p.capacity ad.now }
{
    let first = [p.tau, p.capacity, 0, 0, 0, 0, 0, 0, 0, 0, 0, 0, 0, 0, 0, 0];
    let l = e.encrypt(first);
    let h = start(l, 0);
    walk(e, [0; 16], h.a, h.b, ad)
}
