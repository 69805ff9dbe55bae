// Whose data frame is listened to in a timeslot, and what is received of it.
ghost use Rattle.std.specs.Prelude.{◌≡◌, Ok};
ghost use Rattle.coordinator.specs.OpenSuperframes.{number_in};
ghost use Rattle.coordinator.specs.Steps.{sending, listening, HearsFrom};

use crate::coordinator::Coordinator;
use crate::heard::Heard;
use crate::mode::Mode;
use crate::open_superframe::OpenSuperframe;
use cargo::Cargo;
use frame::{Fault, Refusal};
use plan::{Grant, SlotPlan};

impl<P: SlotPlan> Coordinator<P> {
    // The grant whose frame starts at timeslot t, by the bitmap that the open superframe's beacon carried.
    fn sending(&self, t: u8) -> Option<Grant>
        ensures { result ≡ sending (P.meaning self.now.plan) self.now.inner t }
    {
        let i = repeats::sender(&self.plan, &self.inner.sent, t)?;
        self.plan.grant(i)
    }

    // The grant that is listened to at timeslot t.
    pub(crate) fn listening(&self, superframe: &OpenSuperframe, t: u8) -> Result<Grant, Fault>
        ensures { result ≡ listening (P.meaning self.now.plan) self.now.inner (number_in superframe.now) t }
    {
        let place = usize::from(t);
        if !self.inner.is_open(superframe.number) {
            return Err(Refusal::Superframe.at(0));
        }
        if self.inner.mode != Mode::Online {
            return Err(Refusal::Mode.at(0));
        }
        if t == 0 || t > self.plan.numbers().timeslots {
            return Err(Refusal::Timeslot.at(place));
        }
        if t <= self.inner.last {
            return Err(Refusal::Late.at(place));
        }
        self.sending(t).ok_or(Refusal::Nobody.at(place))
    }

    // The cargo in a received data frame of a grant, if the grant carries as much.
    pub(crate) fn receive_from<C: Cargo + Drop>(
        &self,
        grant: Grant,
        octets: &[u8],
    ) -> Result<Heard<C>, Fault>
        ensures { HearsFrom C.image (P.meaning self.now.plan).numbers (Ok grant) octets.now result }
    {
        let cargo: C = cargo::receive(octets)?;
        if cargo.length() > grant.carries(self.plan.numbers().size) {
            return Err(Refusal::Size.at(0));
        }
        Ok(Heard {
            simple: grant.simple,
            cargo,
        })
    }
}
