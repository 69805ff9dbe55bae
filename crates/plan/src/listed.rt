// A slot plan that is a list of grants.
ghost use Rattle.std.specs.Prelude.{◌≡◌, false, is_some, IfOk};
ghost use Rattle.std.specs.Result.{result_err};
ghost use Rattle.plan.specs.Rules.{plan_of};
ghost use Rattle.plan.specs.Verdicts.{verdict, OnlyVerdict};

use super::grant::Grant;
use super::numbers::Numbers;
use super::slot_plan::SlotPlan;
use frame::{Fault, Refusal};

/// A plan with its grants in a list that it owns. All rules hold of it.
#[derive(Drop)]
pub struct ListedPlan {
    numbers: Numbers,
    grants: Vec<Grant>,
    ghost lawful: { is_some (verdict (plan_of numbers grants.items)) ≡ false },
}

impl ListedPlan {
    ghost use Rattle.plan.specs.ListedPlans.{listed_meaning};

    /// The plan of these numbers and grants.
    ///
    /// Refused with Plan: at 0 where the numbers break a rule or there are more than 128 grants, else at the number, from
    /// 1 on, of the first grant that breaks a rule by itself or with one before it.
    pub fn new(numbers: Numbers, grants: Vec<Grant>) -> Result<ListedPlan, Fault>
        ensures answer { result_err result ≡ verdict (plan_of numbers grants.items) }
        ensures kept { IfOk result (λ p. listed_meaning p ≡ plan_of numbers grants.items) }
        ensures only { OnlyVerdict (plan_of numbers grants.items) (result_err result) }
    {
        if !numbers.keep() || grants.len() > 128 {
            return Err(Refusal::Plan.at(0));
        }
        for (i, g) in grants.iter().enumerate() {
            if !g.keeps(numbers) || g.clashes_with_one(&grants[..i]) {
                return Err(Refusal::Plan.at(i + 1));
            }
        }
        Ok(ListedPlan { numbers, grants })
    }
}

impl SlotPlan for ListedPlan {
    ghost use Rattle.plan.specs.ListedPlans.{listed_meaning};
    ghost use Rattle.plan.specs.VerdictsFollowTheRules.{lawful};

    ghost meaning = { listed_meaning };

    ghost keeps = { λ p. lawful (listed_meaning p) p.lawful };

    fn numbers(&self) -> Numbers {
        self.numbers
    }

    fn count(&self) -> usize {
        self.grants.len()
    }

    fn grant(&self, i: usize) -> Option<Grant> {
        self.grants.get(i.checked_sub(1)?).copied()
    }

    fn holder(&self, t: u8) -> Option<usize> {
        self.grants.iter().position(|g| g.holds(t)).map(|i| i + 1)
    }
}
