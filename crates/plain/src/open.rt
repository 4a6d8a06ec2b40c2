// Plain opening.
ghost use Rattle.std.specs.Prelude.{◌≡◌, ◌-◌, ◌/◌};
ghost use Rattle.answers.specs.Rows.{answer};
ghost use Rattle.answers.specs.Refusals.{number_of};
ghost use Rattle.cba_mode.specs.Sets.{tag_bytes};
ghost use Rattle.cba_rules.specs.Checks.{open_checks};
ghost use Rattle.cba_rules.specs.Refusals.{OpenCall};
ghost use Rattle.plain.specs.Accepted.{Openable, OpenedBy};

use crate::checks::{ad_check, ciphertext_check, key_check, nonce_check};
use crate::sets::lookup;
use aes::Encryption;
use answers::Refusal;
use cba_opening::dec;
use cba_steps::{Parameters, data_hash};

// The checks after the set's, in their order.
#[tactic(auto, using(answers::proofs::RefusalLaws::refusal_not_zero), unfolding(answers::specs::Rows::answer))]
fn open_checks(
    p: Parameters,
    key: usize,
    nonce: usize,
    ad: usize,
    ciphertext: usize,
    room: usize,
) -> Result<(), Refusal>
    ensures { number_of result ≡ answer (open_checks (p.key / 8) (tag_bytes p.tau) key nonce ad ciphertext room) }
{
    key_check(p, key)?;
    nonce_check(nonce)?;
    ad_check(ad)?;
    ciphertext_check(p, ciphertext, room)
}

// The opening of an input that no check before it refuses: the key schedule, once, the
// walk over the data, and DEC. Sealing has its like: one for both would take ENC or DEC as a closure
// over E, which is no plainer, and neither is a struct of what the call for C has one by one.
fn open_accepted(
    p: Parameters,
    key: &[u8],
    nonce: &[u8],
    ad: &[u8],
    ciphertext: &[u8],
    out: &mut [u8],
) -> bool
    requires { Openable p key.now nonce.now ad.now ciphertext.now out.old }
    ensures { OpenedBy p key.now nonce.now ad.now ciphertext.now result out.old out.new }
{
    let mut ctx = aes::blank();
    let e = Encryption::new(key, &mut ctx);
    let sum = data_hash(&e, p, ad);
    dec(&e, p, nonce, sum, ciphertext, out)
}

// Opens ciphertext over the first bytes of out and answers 0, or answers 1 to 7 and leaves out as
// it was, or answers 8 and writes zeros where the message would be.
pub fn open_plain(
    set: u32,
    key: &[u8],
    nonce: &[u8],
    ad: &[u8],
    ciphertext: &[u8],
    out: &mut [u8],
) -> Result<(), Refusal>
    ensures { OpenCall set key.now nonce.now ad.now ciphertext.now out.old (number_of result) out.new }
{
    let Some(p) = lookup(set) else {
        return Err(Refusal::Set);
    };
    open_checks(
        p,
        key.len(),
        nonce.len(),
        ad.len(),
        ciphertext.len(),
        out.len(),
    )?;
    if !open_accepted(p, key, nonce, ad, ciphertext, out) {
        return Err(Refusal::False);
    }
    Ok(())
}
