// The interface of slot plans: what each is asked, whatever it is made of.
ghost use Rattle.std.specs.Prelude.{◌≡◌};
ghost use Rattle.plan.specs.Rules.{PlanMeaning, Rules, count_of, grant_at};
ghost use Rattle.plan.specs.Answers.{holder_of};

use super::grant::Grant;
use super::numbers::Numbers;

/// A slot plan. Its meaning keeps all rules, and fixes every answer.
pub trait SlotPlan {
    // What the plan means.
    ghost meaning: { Self → PlanMeaning };

    /// The plan's numbers.
    fn numbers(&self) -> Numbers
        ensures { result ≡ (meaning self.now).numbers };

    /// How many grants there are, at most 128.
    fn count(&self) -> usize
        ensures { result ≡ count_of (meaning self.now) };

    /// Grant `i`, from 1 on, or none where there is no such grant.
    fn grant(&self, i: usize) -> Option<Grant>
        ensures { result ≡ grant_at (meaning self.now) i };

    /// The number, from 1 on, of the grant that holds base timeslot `t`, or none.
    fn holder(&self, t: u8) -> Option<usize>
        ensures { result ≡ holder_of (meaning self.now) t };

    // All rules hold of every plan.
    ghost keeps: { (p : Self) → Rules (meaning p) };
}
