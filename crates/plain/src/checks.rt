// The checks on lengths, in the groups that several calls share: each answers as its rows do. A
// call puts its groups together by `?`, in the order of its rows.
#![tactic(auto, unfolding(answers::specs::Rows::answer))]

ghost use Rattle.std.specs.Prelude.{◌≡◌, [], ◌∷◌, ◌/◌, IfOk, length};
ghost use Rattle.answers.specs.Rows.{answer};
ghost use Rattle.answers.specs.Refusals.{number_of};
ghost use Rattle.cba_mode.specs.Sets.{tag_bytes};
ghost use Rattle.cba_rules.specs.Checks.{bad_key, bad_nonce, bad_start, long_data, key_rows, message_rows, ciphertext_rows};

use crate::sets::lookup;
use answers::Refusal;
use cba_steps::Parameters;

const NONCE: usize = 12;

pub const MOST_DATA: usize = 4096;

const MOST_MESSAGE: usize = 65536;

// The key of a set that is known.
pub fn key_check(p: Parameters, key: usize) -> Result<(), Refusal>
    ensures { number_of result ≡ answer (bad_key (p.key / 8) key ∷ []) }
{
    if key != p.key_bytes() {
        return Err(Refusal::Key);
    }
    Ok(())
}

// The set and the key of a making: 1 and 2.
pub fn set_key_checks(set: u32, key: usize) -> Result<(), Refusal>
    ensures { number_of result ≡ answer (key_rows set key) }
{
    let Some(p) = lookup(set) else {
        return Err(Refusal::Set);
    };
    key_check(p, key)
}

pub fn nonce_check(nonce: usize) -> Result<(), Refusal>
    ensures { number_of result ≡ answer (bad_nonce nonce ∷ []) }
{
    if nonce != NONCE {
        return Err(Refusal::Nonce);
    }
    Ok(())
}

// The same check of a nonce that is given, which the Ok has. After it there are 12 bytes, and so no
// second refusal.
pub fn whole_nonce(nonce: &[u8]) -> Result<&[u8; 12], Refusal>
    ensures answer_value { number_of result ≡ answer (bad_nonce (length nonce.now) ∷ []) }
    ensures nonce_value { IfOk result (λ n. n.now ≡ nonce.now) }
{
    nonce_check(nonce.len())?;
    nonce.as_array().ok_or(Refusal::Nonce)
}

// The number that a nonce begins with.
pub fn start_check(its: u64, start: u64) -> Result<(), Refusal>
    ensures { number_of result ≡ answer (bad_start its start ∷ []) }
{
    if start != its {
        return Err(Refusal::Console);
    }
    Ok(())
}

pub fn ad_check(ad: usize) -> Result<(), Refusal>
    ensures { number_of result ≡ answer (long_data ad ∷ []) }
{
    if ad > MOST_DATA {
        return Err(Refusal::Data);
    }
    Ok(())
}

// The text and the room of a sealing.
pub fn message_check(p: Parameters, message: usize, room: usize) -> Result<(), Refusal>
    ensures { number_of result ≡ answer (message_rows (tag_bytes p.tau) message room) }
{
    if message > MOST_MESSAGE {
        return Err(Refusal::Text);
    }
    if room < message + p.tag_bytes() {
        return Err(Refusal::Buffer);
    }
    Ok(())
}

// The text and the room of an opening.
pub fn ciphertext_check(p: Parameters, ciphertext: usize, room: usize) -> Result<(), Refusal>
    ensures { number_of result ≡ answer (ciphertext_rows (tag_bytes p.tau) ciphertext room) }
{
    let t = p.tag_bytes();
    if ciphertext > MOST_MESSAGE + t {
        return Err(Refusal::Text);
    }
    if ciphertext < t {
        return Err(Refusal::Stub);
    }
    if room < ciphertext - t {
        return Err(Refusal::Buffer);
    }
    Ok(())
}
