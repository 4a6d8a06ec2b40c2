// A ledger whose set is known: its checks, and its calls after the set's check.
ghost use Rattle.std.specs.Prelude.{◌≡◌, [], ◌∷◌, Some, None, IfOk, IfErr};
ghost use Rattle.answers.specs.Rows.{answer};
ghost use Rattle.answers.specs.Refusals.{number_of, number_of_refusal};
ghost use Rattle.plain.specs.Lookup.{lookup_of};
ghost use Rattle.ledger_rules.specs.Ledger.{stale, spent, has_no_blocks, own_rows};
ghost use Rattle.ledger_rules.specs.Ledger.Source.{given};
ghost use Rattle.ledger.specs.Values.{value_of, all_checks, Tried};

use crate::checks::{charge, first_checks, fits};
use crate::ledger::Ledger;
use answers::Refusal;
use cba_steps::Parameters;
use plain::{ad_check, lookup, seal_plain};

// A ledger with its set's parameters.
#[derive(Clone, Copy)]
pub(crate) struct Known<'a> {
    pub ledger: &'a Ledger,
    pub p: Parameters,
    ghost is_known: { lookup_of ledger.now.set ≡ Some p },
}

impl Ledger {
    // 1.
    pub(crate) fn known(&self) -> Result<Known, Refusal>
        ensures refusal_value { IfErr result (λ r. (number_of_refusal r ≡ 1) × (lookup_of self.now.set ≡ None)) }
        ensures ledger_value { IfOk result (λ k. k.ledger.now ≡ self.now) }
    {
        let Some(p) = lookup(self.set) else {
            return Err(Refusal::Set);
        };
        Ok(Known { ledger: self, p })
    }
}

impl Known<'_> {
    // 10.
    pub(crate) fn capacity_check(&self, charge: u64) -> Result<(), Refusal>
        ensures { number_of result ≡ answer (has_no_blocks (spent (value_of self.now.ledger.now) charge) ∷ []) }
    {
        if !fits(self.ledger.total, charge, self.p.capacity) {
            return Err(Refusal::Spent);
        }
        Ok(())
    }

    // The ledger's own checks.
    #[tactic(auto, using(answers::proofs::RefusalLaws::refusal_not_zero), unfolding(answers::specs::Rows::answer))]
    fn own_check(&self, nonce: &[u8; 12], charge: u64) -> Result<(), Refusal>
        ensures { let l = value_of self.now.ledger.now in number_of result ≡ answer (own_rows (stale l nonce.now) (spent l charge)) }
    {
        if self.ledger.is_stale(nonce) {
            return Err(Refusal::Stale);
        }
        self.capacity_check(charge)
    }

    // The checks of a sealing after the set's, in their order, with the nonce where none refuses. ad
    // is the length that its data are charged for.
    pub(crate) fn checked<'n>(
        &self,
        nonce: &'n [u8],
        source: Result<(), Refusal>,
        ad: usize,
        message: usize,
        room: usize,
    ) -> Result<&'n [u8; 12], Refusal>
        ensures answer_value { number_of result ≡ all_checks self.now.ledger.now self.now.p nonce.now (number_of source) ad message room }
        ensures nonce_value { IfOk result (λ n. n.now ≡ nonce.now) }
    {
        let whole = first_checks(self.ledger.console, self.p, nonce, source, message, room)?;
        self.own_check(whole, charge(self.ledger.heartbeats, ad, message))?;
        Ok(whole)
    }

    // The next ledger of a sealing, or the refusal.
    pub(crate) fn seal(
        &self,
        nonce: &[u8],
        ad: &[u8],
        message: &[u8],
        out: &mut [u8],
    ) -> Result<Ledger, Refusal>
        ensures { Tried self.now.ledger.now nonce.now (given ad.now) message.now out.old result out.new }
    {
        let l = self.ledger;
        let a = ad.len();
        let whole = self.checked(nonce, ad_check(a), a, message.len(), out.len())?;
        let n = self.p.key_bytes();
        seal_plain(l.set, l.key_part(n), nonce, ad, message, out)?;
        Ok(l.next(whole, charge(l.heartbeats, a, message.len())))
    }
}
