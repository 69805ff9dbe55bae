// Whether two slot plans answer alike.
ghost use Rattle.std.specs.Prelude.{◌≡◌, true, Decides};
ghost use Rattle.plan.specs.Laws.{Alike};

use super::slot_plan::SlotPlan;

/// Whether two plans answer alike when they are asked for their numbers, their count, grant `i` and the holder of base
/// timeslot `t`. Plans of one meaning do.
pub fn answer_alike<P: SlotPlan, Q: SlotPlan>(p: &P, q: &Q, i: usize, t: u8) -> bool
    ensures answer { Decides result (Alike (P.SlotPlan.meaning p.now) (Q.SlotPlan.meaning q.now) i t) }
    ensures law { P.SlotPlan.meaning p.now ≡ Q.SlotPlan.meaning q.now → result ≡ true }
{
    p.numbers() == q.numbers()
        && p.count() == q.count()
        && p.grant(i) == q.grant(i)
        && p.holder(t) == q.holder(t)
}
