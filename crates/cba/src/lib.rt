// The calls that C gets, and nothing else: cba_c exports them.
#![tactic(auto)]

ghost use Rattle.cba_rules.specs.Refusals.{SealCall, OpenCall};
ghost use Rattle.cmac_rules.specs.Marks.{MakeCall, CheckCall};

use answers::number_of;

// Seals message over the first bytes of out and answers 0, or answers 1, 2, 3, 4, 5 or 7 and
// leaves out as it was.
#[unsafe(no_mangle)]
pub extern "C" fn cba_seal(
    set: u32,
    key: &[u8],
    nonce: &[u8],
    ad: &[u8],
    message: &[u8],
    out: &mut [u8],
) -> u32
    ensures { SealCall set key.now nonce.now ad.now message.now out.old result out.new }
{
    number_of(plain::seal_plain(set, key, nonce, ad, message, out))
}

// Opens ciphertext over the first bytes of out and answers 0, or answers 1 to 7 and leaves out as
// it was, or answers 8 and writes zeros where the message would be.
#[unsafe(no_mangle)]
pub extern "C" fn cba_open(
    set: u32,
    key: &[u8],
    nonce: &[u8],
    ad: &[u8],
    ciphertext: &[u8],
    out: &mut [u8],
) -> u32
    ensures { OpenCall set key.now nonce.now ad.now ciphertext.now out.old result out.new }
{
    number_of(plain::open_plain(set, key, nonce, ad, ciphertext, out))
}

// Writes the log's mark of n bytes over the first bytes of out and answers 0, or answers 2, 5,
// 14 or 7 and leaves out as it was.
#[unsafe(no_mangle)]
pub extern "C" fn cmac_make(key: &[u8], log: &[u8], n: usize, out: &mut [u8]) -> u32
    ensures { MakeCall key.now log.now n out.old result out.new }
{
    number_of(cmac::make(key, log, n, out))
}

// Answers 0 where the mark is the log's, else 2, 5, 14 or 8.
#[unsafe(no_mangle)]
pub extern "C" fn cmac_check(key: &[u8], log: &[u8], mark: &[u8]) -> u32
    ensures { CheckCall key.now log.now mark.now result }
{
    number_of(cmac::check(key, log, mark))
}
