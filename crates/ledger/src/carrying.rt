// Carrying an older ledger over to the new charge.
ghost use Rattle.answers.specs.Refusals.{number_of};
ghost use Rattle.ledger.specs.Values.{RanCarrying};

use crate::ledger::{Ledger, Outcome};
use answers::Refusal;
use plain::lookup;

impl Ledger {
    // Gives back the ledger with the new charge, all else as before, and answers 0; or answers 1, and the
    // ledger is as it was. One that has the new charge already stays as it is.
    pub fn carry_over(self) -> Outcome
        ensures { RanCarrying self (number_of result.answer) result.ledger }
    {
        let Some(_) = lookup(self.set) else {
            return self.outcome(Err(Refusal::Set));
        };
        self.outcome(Ok(Ledger {
            heartbeats: true,
            ..self
        }))
    }
}
