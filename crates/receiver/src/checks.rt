// The checks of a receiver's calls, in their groups.
ghost use Rattle.std.specs.Prelude.{◌≡◌, IfOk};
ghost use Rattle.answers.specs.Rows.{answer};
ghost use Rattle.answers.specs.Refusals.{number_of};
ghost use Rattle.cba_mode.specs.Sets.{tag_bytes};
ghost use Rattle.receiver_rules.specs.Receiver.{nonce_rows, counter_of, length_checks};

use crate::nonce::{counter_of, prefix_of};
use answers::Refusal;
use cba_steps::Parameters;
use plain::{ad_check, ciphertext_check, start_check, whole_nonce};

// 3 and 12: the counter of a nonce that begins with the prefix. A ledger's check is alike, and stays one
// of its own: a shared one would take how the start is read as a closure, which is no plainer.
fn counter(prefix: u32, nonce: &[u8]) -> Result<u64, Refusal>
    ensures answer_value { number_of result ≡ answer (nonce_rows prefix nonce.now) }
    ensures counter_value { IfOk result (λ n. n ≡ counter_of nonce.now) }
{
    let whole = whole_nonce(nonce)?;
    start_check(prefix as u64, prefix_of(whole) as u64)?;
    Ok(counter_of(whole))
}

// The checks of an opening after the set's and before 15: the counter of its nonce.
#[tactic(auto, using(answers::proofs::RefusalLaws::refusal_not_zero), unfolding(answers::specs::Rows::answer))]
pub(crate) fn checked_counter(
    prefix: u32,
    p: Parameters,
    nonce: &[u8],
    ad: usize,
    ciphertext: usize,
    room: usize,
) -> Result<u64, Refusal>
    ensures answer_value { number_of result ≡ answer (length_checks (tag_bytes p.tau) prefix nonce.now ad ciphertext room) }
    ensures counter_value { IfOk result (λ n. n ≡ counter_of nonce.now) }
{
    let counter = counter(prefix, nonce)?;
    ad_check(ad)?;
    ciphertext_check(p, ciphertext, room)?;
    Ok(counter)
}
