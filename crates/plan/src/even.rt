// A slot plan whose grants follow one another evenly.
ghost use Rattle.std.specs.Prelude.{◌≡◌, false, is_some, IfOk};
ghost use Rattle.std.specs.Result.{result_err};
ghost use Rattle.plan.specs.EvenGrants.{even_plan};
ghost use Rattle.plan.specs.Rules.{count_of};
ghost use Rattle.plan.specs.Verdicts.{verdict, OnlyVerdict};

use super::even_grants::EvenGrants;
use super::grant::Grant;
use super::numbers::Numbers;
use super::slot_plan::SlotPlan;
use frame::{Fault, Refusal};

/// A plan that holds no table: its grants follow one another evenly. All rules hold of it.
#[derive(Clone, Copy)]
pub struct EvenPlan {
    numbers: Numbers,
    grants: EvenGrants,
    ghost counted: { count_of (even_plan numbers grants.count grants.width grants.address grants.simple) ≡ grants.count },
    ghost lawful: { is_some (verdict (even_plan numbers grants.count grants.width grants.address grants.simple)) ≡ false },
}

impl EvenPlan {
    ghost use Rattle.plan.specs.EvenPlans.{even_meaning};

    /// The plan of these numbers with grants that follow one another evenly.
    ///
    /// Refused with Plan: at 0 where the numbers break a rule or there are more than 128 grants, else at the number of the
    /// first grant that breaks a rule by itself or with one before it.
    pub fn new(numbers: Numbers, grants: EvenGrants) -> Result<EvenPlan, Fault>
        ensures answer { result_err result ≡ verdict (even_plan numbers grants.count grants.width grants.address grants.simple) }
        ensures kept { IfOk result (λ p. even_meaning p ≡ even_plan numbers grants.count grants.width grants.address grants.simple) }
        ensures only { OnlyVerdict (even_plan numbers grants.count grants.width grants.address grants.simple) (result_err result) }
    {
        if !numbers.keep() || grants.count > 128 {
            return Err(Refusal::Plan.at(0));
        }
        match grants.first_to_break(numbers) {
            Some(i) => Err(Refusal::Plan.at(i)),
            None => Ok(EvenPlan { numbers, grants }),
        }
    }
}

impl SlotPlan for EvenPlan {
    ghost use Rattle.plan.specs.EvenPlans.{even_meaning};
    ghost use Rattle.plan.specs.VerdictsFollowTheRules.{lawful};

    ghost meaning = { even_meaning };

    ghost keeps = { λ p. lawful (even_meaning p) p.lawful };

    fn numbers(&self) -> Numbers {
        self.numbers
    }

    fn count(&self) -> usize {
        self.grants.count
    }

    fn grant(&self, i: usize) -> Option<Grant> {
        if i == 0 || i > self.grants.count {
            return None;
        }
        self.grants.grant(self.numbers, i)
    }

    fn holder(&self, t: u8) -> Option<usize> {
        let behind = t.checked_sub(self.numbers.retransmission)?.checked_sub(1)?;
        let before = usize::from(behind.checked_div(self.grants.width)?);
        (before < self.grants.count).then_some(before + 1)
    }
}
