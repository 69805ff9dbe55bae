// Which grant sends at a base timeslot.
ghost use Rattle.std.specs.Prelude.{◌≡◌};
ghost use Rattle.repeats.specs.Laws.{BitsAlike, NamesRepeater, NamesSender, RepeatsApart, RepeatsWithin, ServedInOrder};
ghost use Rattle.repeats.specs.Starts.{repeater_at, beginner_at, sender_at};

use super::group_acknowledgment::GroupAcknowledgment;
use super::timeslots::is_for_retransmission;
use plan::{Grants, SlotPlan, grant_holding};

/// The number, from 1 on, of the grant whose repeat starts at base timeslot `t`, or none.
///
/// Where each grant's bits are alike, no two repeats share a timeslot, and the earlier grant is served first. All
/// repeats lie in the timeslots for retransmission.
pub fn repeater<P: SlotPlan>(plan: &P, octets: &[u8], t: u8) -> Option<usize>
    ensures answer { result ≡ repeater_at (P.SlotPlan.meaning plan.now) octets.now t }
    ensures names { BitsAlike (P.SlotPlan.meaning plan.now) octets.now → NamesRepeater (P.SlotPlan.meaning plan.now) octets.now t result }
    ensures apart { BitsAlike (P.SlotPlan.meaning plan.now) octets.now → RepeatsApart (P.SlotPlan.meaning plan.now) octets.now }
    ensures within { RepeatsWithin (P.SlotPlan.meaning plan.now) octets.now }
    ensures order { BitsAlike (P.SlotPlan.meaning plan.now) octets.now → ServedInOrder (P.SlotPlan.meaning plan.now) octets.now }
{
    let acknowledgment = GroupAcknowledgment {
        numbers: plan.numbers(),
        octets,
    };
    Grants::of(plan)
        .find(|(_, grant)| acknowledgment.repeat_start(*grant) == Some(t))
        .map(|(i, _)| i)
}

// The number of the grant that begins at timeslot t, or none.
fn beginner<P: SlotPlan>(plan: &P, t: u8) -> Option<usize>
    ensures { result ≡ beginner_at (P.SlotPlan.meaning plan.now) t }
{
    let (i, grant) = grant_holding(plan, t)?;
    (grant.first == t).then_some(i)
}

/// The number, from 1 on, of the grant whose frame starts at base timeslot `t`, or none.
///
/// In a timeslot for retransmission the frame is a repeat, and elsewhere the first frame of the grant that begins
/// there. In timeslot 0, and past the plan's last one, no frame starts.
pub fn sender<P: SlotPlan>(plan: &P, octets: &[u8], t: u8) -> Option<usize>
    ensures answer { result ≡ sender_at (P.SlotPlan.meaning plan.now) octets.now t }
    ensures names { BitsAlike (P.SlotPlan.meaning plan.now) octets.now → NamesSender (P.SlotPlan.meaning plan.now) octets.now t result }
{
    if is_for_retransmission(plan.numbers(), t) {
        repeater(plan, octets, t)
    } else {
        beginner(plan, t)
    }
}
