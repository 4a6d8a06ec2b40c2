// What a ledger checks: the nonce's start, the nonces as numbers, and the charge against the capacity.
ghost use Rattle.std.specs.Prelude.{◌≡◌, not, IfOk, ◌+◌, ◌/◌, ◌^◌, ◌≤◌, ltb, leb};
ghost use Rattle.octets.specs.Numbers.{number};
ghost use Rattle.answers.specs.Rows.{answer};
ghost use Rattle.answers.specs.Refusals.{number_of};
ghost use Rattle.ledger_rules.specs.Ledger.{nonce_rows, console_of, charge_by};
ghost use Rattle.ledger.specs.Values.{first_checks};

use answers::Refusal;
use cba_steps::Parameters;
use plain::{message_check, start_check, whole_nonce};

// The console number that a nonce begins with, big-endian.
fn console_of(nonce: &[u8; 12]) -> u16
    ensures { result ≡ console_of nonce.now }
{
    let [high, low, ..] = *nonce;
    u16::from_be_bytes([high, low])
}

// Whether a nonce is not above another: big-endian numbers of one length have the order of their
// bytes.
pub(crate) fn is_not_above(nonce: &[u8; 12], last: &[u8; 12]) -> bool
    ensures { result ≡ leb (number nonce.now) (number last.now) }
{
    nonce <= last
}

// 3 and 12: the nonce, where it has its length and begins with the console's number. A receiver's check
// is alike, and stays one of its own: see there.
fn nonce_checks(console: u16, nonce: &[u8]) -> Result<&[u8; 12], Refusal>
    ensures answer_value { number_of result ≡ answer (nonce_rows console nonce.now) }
    ensures nonce_value { IfOk result (λ n. n.now ≡ nonce.now) }
{
    let whole = whole_nonce(nonce)?;
    start_check(console as u64, console_of(whole) as u64)?;
    Ok(whole)
}

// The checks of a sealing after the set's and before the ledger's own, where source is what its data
// are answered.
#[tactic(auto, using(answers::proofs::RefusalLaws::refusal_not_zero), unfolding(answers::specs::Rows::first_of))]
pub(crate) fn first_checks(
    console: u16,
    p: Parameters,
    nonce: &[u8],
    source: Result<(), Refusal>,
    message: usize,
    room: usize,
) -> Result<&[u8; 12], Refusal>
    ensures answer_value { number_of result ≡ first_checks console p nonce.now (number_of source) message room }
    ensures nonce_value { IfOk result (λ n. n.now ≡ nonce.now) }
{
    let whole = nonce_checks(console, nonce)?;
    source?;
    message_check(p, message, room)?;
    Ok(whole)
}

// The blocks of so many bytes.
fn blocks(n: usize) -> u64
    ensures { result ≡ (n + 15) / 16 }
{
    n.div_ceil(16) as u64
}

// The blocks of data and message; where heartbeats are charged, at least one.
pub(crate) fn charge(heartbeats: bool, ad: usize, message: usize) -> u64
    ensures { result ≡ charge_by heartbeats ad message }
{
    (blocks(ad) + blocks(message)).max(heartbeats as u64)
}

// Whether a charge goes into what is left of the capacity. The sum is not formed: it might not fit.
pub(crate) fn fits(total: u64, charge: u64, capacity: u8) -> bool
    requires { capacity ≤ 48 }
    ensures { result ≡ not (ltb (2 ^ capacity) (total + charge)) }
{
    let Some(left) = (1u64 << capacity).checked_sub(total) else {
        return false;
    };
    charge <= left
}
