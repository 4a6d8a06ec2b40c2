// Making and checking the mark of a log: the first bytes of its code.
ghost use Rattle.std.specs.Prelude.{◌≡◌, true};
ghost use Rattle.answers.specs.Rows.{answer};
ghost use Rattle.answers.specs.Refusals.{number_of};
ghost use Rattle.fips197.specs.Schedule.{is_key};
ghost use Rattle.cmac_rules.specs.Cmac.{cmac};
ghost use Rattle.cmac_rules.specs.Marks.{mark_rows, MakeCall, CheckCall};

use crate::chain::code;
use aes::Encryption;
use answers::Refusal;

const MOST_LOG: usize = 65536;

// What both calls begin with.
#[tactic(auto, unfolding(answers::specs::Rows::answer))]
fn checks(key: &[u8], log: usize, mark: usize) -> Result<(), Refusal>
    ensures { number_of result ≡ answer (mark_rows key.now log mark) }
{
    if !aes::is_key(key) {
        return Err(Refusal::Key);
    }
    if log > MOST_LOG {
        return Err(Refusal::Text);
    }
    if mark < 4 || mark > 16 {
        return Err(Refusal::Mark);
    }
    Ok(())
}

// The code under a key, whose schedule is made once.
fn code_under(key: &[u8], log: &[u8]) -> [u8; 16]
    requires { is_key key.now ≡ true }
    ensures { result ≡ cmac key.now log.now }
{
    let mut ctx = aes::blank();
    code(&Encryption::new(key, &mut ctx), log)
}

// Writes the log's mark of n bytes over the first bytes of out, or answers 2, 5, 14 or 7 and leaves
// out as it was.
pub fn make(key: &[u8], log: &[u8], n: usize, out: &mut [u8]) -> Result<(), Refusal>
    ensures { MakeCall key.now log.now n out.old (number_of result) out.new }
{
    checks(key, log.len(), n)?;
    if out.len() < n {
        return Err(Refusal::Buffer);
    }
    let t = code_under(key, log);
    octets::put(out, &t[..n]);
    Ok(())
}

// Accepts the log's mark, and answers 2, 5, 14 or 8 to anything else. Every byte of the mark is
// compared.
pub fn check(key: &[u8], log: &[u8], mark: &[u8]) -> Result<(), Refusal>
    ensures { CheckCall key.now log.now mark.now (number_of result) }
{
    checks(key, log.len(), mark.len())?;
    let t = code_under(key, log);
    if !octets::same(mark, &t[..mark.len()]) {
        return Err(Refusal::False);
    }
    Ok(())
}
