// Plain sealing.
ghost use Rattle.std.specs.Prelude.{◌≡◌, ◌/◌};
ghost use Rattle.answers.specs.Rows.{answer};
ghost use Rattle.answers.specs.Refusals.{number_of};
ghost use Rattle.cba_mode.specs.Sets.{tag_bytes};
ghost use Rattle.cba_rules.specs.Checks.{seal_checks};
ghost use Rattle.cba_rules.specs.Refusals.{SealCall};
ghost use Rattle.plain.specs.Accepted.{Sealable, SealedBy};

use crate::checks::{ad_check, key_check, message_check, nonce_check};
use crate::sets::lookup;
use aes::Encryption;
use answers::Refusal;
use cba_sealing::enc;
use cba_steps::{Parameters, data_hash};

// The checks after the set's, in their order.
#[tactic(auto, using(answers::proofs::RefusalLaws::refusal_not_zero), unfolding(answers::specs::Rows::answer))]
fn seal_checks(
    p: Parameters,
    key: usize,
    nonce: usize,
    ad: usize,
    message: usize,
    room: usize,
) -> Result<(), Refusal>
    ensures { number_of result ≡ answer (seal_checks (p.key / 8) (tag_bytes p.tau) key nonce ad message room) }
{
    key_check(p, key)?;
    nonce_check(nonce)?;
    ad_check(ad)?;
    message_check(p, message, room)
}

// The sealing of an input that no check refuses: the key schedule, once, the walk over
// the data, and ENC. Opening has its like: one for both would take ENC or DEC as a closure over E,
// which is no plainer, and neither is a struct of what the call for C has one by one.
fn seal_accepted(p: Parameters, key: &[u8], nonce: &[u8], ad: &[u8], message: &[u8], out: &mut [u8])
    requires { Sealable p key.now nonce.now ad.now message.now out.old }
    ensures { SealedBy p key.now nonce.now ad.now message.now out.old out.new }
{
    let mut ctx = aes::blank();
    let e = Encryption::new(key, &mut ctx);
    let sum = data_hash(&e, p, ad);
    enc(&e, p, nonce, sum, message, out);
}

// Seals message over the first bytes of out and answers 0, or answers 1, 2, 3, 4, 5 or 7 and
// leaves out as it was.
pub fn seal_plain(
    set: u32,
    key: &[u8],
    nonce: &[u8],
    ad: &[u8],
    message: &[u8],
    out: &mut [u8],
) -> Result<(), Refusal>
    ensures { SealCall set key.now nonce.now ad.now message.now out.old (number_of result) out.new }
{
    let Some(p) = lookup(set) else {
        return Err(Refusal::Set);
    };
    seal_checks(
        p,
        key.len(),
        nonce.len(),
        ad.len(),
        message.len(),
        out.len(),
    )?;
    seal_accepted(p, key, nonce, ad, message, out);
    Ok(())
}
