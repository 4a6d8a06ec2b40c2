// What sealing and opening are given beside a key and a text.
ghost use Rattle.cba_sealing.specs.Calls.{Given};

use cba_steps::Parameters;

// Parameters that fit, a nonce of 12 bytes, and the sum whose first t bytes are T_A.
#[derive(Clone, Copy)]
pub struct Record<'a> {
    pub p: Parameters,
    pub nonce: &'a [u8],
    pub sum: [u8; 16],
    pub ghost given: { Given p nonce.now },
}
