// Looking up a grant of any slot plan, by its interface alone.
ghost use Rattle.std.specs.Prelude.{◌≡◌};
ghost use Rattle.std.specs.Option.{option_map};
ghost use Rattle.plan.specs.Answers.{holder_of, number_with, with_grant};
ghost use Rattle.plan.specs.Laws.{AtMostOneHolder, AddressesDiffer, NamesHolder, NamesAddressed};

use super::grant::Grant;
use super::grants::Grants;
use super::slot_plan::SlotPlan;

/// The number, from 1 on, of the grant with a full address, or none. No two grants share a full or a simple address.
pub fn grant_with_address<P: SlotPlan>(plan: &P, address: u64) -> Option<usize>
    ensures answer { result ≡ number_with (P.SlotPlan.meaning plan.now) address }
    ensures names { NamesAddressed (P.SlotPlan.meaning plan.now) address result }
    ensures differ { AddressesDiffer (P.SlotPlan.meaning plan.now) }
{
    Grants::of(plan)
        .find(|(_, grant)| grant.address == address)
        .map(|(i, _)| i)
}

/// The number, from 1 on, of the grant that holds base timeslot `t`, and the grant, or none. At most one grant holds a
/// timeslot.
pub fn grant_holding<P: SlotPlan>(plan: &P, t: u8) -> Option<(usize, Grant)>
    ensures answer { result ≡ with_grant (P.SlotPlan.meaning plan.now) (holder_of (P.SlotPlan.meaning plan.now) t) }
    ensures names { NamesHolder (P.SlotPlan.meaning plan.now) t (option_map (λ x. x.0) result) }
    ensures one { AtMostOneHolder (P.SlotPlan.meaning plan.now) }
{
    plan.holder(t)
        .and_then(|i| plan.grant(i).map(|grant| (i, grant)))
}
