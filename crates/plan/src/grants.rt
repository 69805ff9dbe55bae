// The grants of a plan one after the other, whatever it is made of.
ghost use Rattle.std.specs.Prelude.{◌≡◌, ◌-◌};
ghost use Rattle.std.specs.Iterator.{at_most};
ghost use Rattle.plan.specs.Rules.{count_of};
ghost use Rattle.plan.specs.StepsThroughGrants.{grants_steps};

use super::grant::Grant;
use super::slot_plan::SlotPlan;

/// The grants of a plan, each behind its number, from grant 1 on.
#[derive(Drop)]
pub struct Grants<'p, P> {
    plan: &'p P,
    // How many were given.
    given: usize,
}

impl<'p, P: SlotPlan> Grants<'p, P> {
    /// All grants of a plan.
    pub fn of(plan: &'p P) -> Grants<'p, P>
        ensures plan { result.plan.now ≡ plan.now }
        ensures given { result.given ≡ 0 }
    {
        Grants { plan, given: 0 }
    }
}

impl<'p, P: SlotPlan> Iterator for Grants<'p, P> {
    type Item = (usize, Grant);

    ghost next_gives = { grants_steps P.SlotPlan.meaning };

    ghost remaining = { λ s. at_most (count_of (P.SlotPlan.meaning s.plan.now) - s.given) };

    fn next(&mut self) -> Option<(usize, Grant)> {
        let i = self.given.checked_add(1)?;
        let grant = self.plan.grant(i)?;
        self.given = i;
        Some((i, grant))
    }
}
