// The coordinator of a network.
ghost use Rattle.std.specs.Prelude.{◌≡◌};
ghost use Rattle.coordinator.specs.Coordinators.{plan_in, state_in, mode_in};
ghost use Rattle.coordinator.specs.OpenSuperframes.{number_in};
ghost use Rattle.coordinator.specs.Steps.{made, mode_answer, mode_state, record_answer};
ghost use Rattle.coordinator.specs.Steps.{open_answer, open_state, open_memory, close_answer, close_state};
ghost use Rattle.coordinator.specs.Steps.{Hears, hear_state, manage_answer, manage_state, manage_memory};

use crate::heard::Heard;
use crate::mode::Mode;
use crate::open_superframe::{OpenSuperframe, Opened};
use crate::record::Record;
use crate::state::Inner;
use cargo::Cargo;
use frame::{Fault, Refusal};
use plan::SlotPlan;

/// The coordinator of a network, by a slot plan. It allocates nothing.
///
/// A call names its refusals in order, and answers the first that applies; the place is 0 where no other is named.
/// A refused call leaves the coordinator and the lent buffer as they were.
#[derive(Drop)]
pub struct Coordinator<P> {
    pub(crate) plan: P,
    pub(crate) inner: Inner,
}

impl<P: SlotPlan> Coordinator<P> {
    /// A coordinator in Discovery, before superframe 0.
    pub fn new(plan: P) -> Coordinator<P>
        ensures state { state_in result ≡ made }
        ensures plan { plan_in result ≡ plan }
    {
        Coordinator {
            plan,
            inner: Inner::new(),
        }
    }

    /// The mode that was set last.
    pub fn mode(&self) -> Mode
        ensures { result ≡ mode_in self.now }
    {
        self.inner.mode
    }

    /// Sets the mode of the superframes to come. Refused with Superframe while one is open.
    pub fn set_mode(&mut self, mode: Mode) -> Result<(), Fault>
        ensures answer { result ≡ mode_answer (state_in self.old) }
        ensures state { state_in self.new ≡ mode_state (state_in self.old) mode }
        ensures plan { plan_in self.new ≡ plan_in self.old }
    {
        if self.inner.opened {
            return Err(Refusal::Superframe.at(0));
        }
        self.inner.mode = mode;
        Ok(())
    }

    /// Opens the next superframe, and writes its beacon, of at most 38 octets, at the start of the buffer.
    /// Refused with Superframe while one is open, and Space where the buffer is shorter than the beacon.
    pub fn open(&mut self, buffer: &mut [u8]) -> Result<Opened, Fault>
        ensures answer { result
            ≡ open_answer (P.meaning (plan_in self.old)).numbers (state_in self.old) buffer.old }
        ensures state { state_in self.new
            ≡ open_state (P.meaning (plan_in self.old)).numbers (state_in self.old) buffer.old }
        ensures memory { buffer.new
            ≡ open_memory (P.meaning (plan_in self.old)).numbers (state_in self.old) buffer.old }
        ensures plan { plan_in self.new ≡ plan_in self.old }
    {
        if self.inner.opened {
            return Err(Refusal::Superframe.at(0));
        }
        let length = self.write_beacon(buffer)?;
        self.inner.opened = true;
        let number = self.inner.number;
        Ok(Opened {
            length,
            superframe: OpenSuperframe { number },
        })
    }

    /// Hears a data frame that starts at a timeslot of the open superframe, from 1 to N: its cargo, under the
    /// simple address of the sender. Above R that is the grant that starts there, and up to R the grant whose
    /// repeat starts there, by the bitmap of the beacon that opened the superframe.
    ///
    /// Refused with Superframe where this superframe is not open, Mode outside Online, Timeslot for 0 and above N,
    /// Late where the timeslot is not above the last one accepted in this superframe, Nobody where no frame starts
    /// there (these three at the timeslot), the frame's own fault, Unwanted for a frame that is no data, Cargo at 1
    /// where its payload is no image, and Size where the image is larger than the grant carries.
    pub fn hear<C: Cargo + Drop>(
        &mut self,
        superframe: &OpenSuperframe,
        timeslot: u8,
        octets: &[u8],
    ) -> Result<Heard<C>, Fault>
        ensures answer { Hears C.image (P.meaning (plan_in self.old)) (state_in self.old)
            (number_in superframe.now) timeslot octets.now result }
        ensures state { state_in self.new
            ≡ hear_state (P.meaning (plan_in self.old)) (state_in self.old) timeslot result }
        ensures plan { plan_in self.new ≡ plan_in self.old }
    {
        let grant = self.listening(superframe, timeslot)?;
        let heard = self.receive_from(grant, octets)?;
        self.inner.accept(self.plan.numbers(), grant, timeslot);
        Ok(heard)
    }

    /// Hears a management frame in the open superframe, and writes the reply at the start of the buffer. Answers how
    /// many octets the reply has, at most 20, or 0 where there is none.
    ///
    /// Refused with Superframe where this superframe is not open, Mode outside Discovery and Configuration, the
    /// frame's own fault, Unwanted for a frame that is not heard in this mode and for an acknowledgment where no
    /// grant waits for one, Stranger for a full address that no grant has, and Space where the buffer is shorter
    /// than the reply.
    pub fn hear_management(
        &mut self,
        superframe: &OpenSuperframe,
        octets: &[u8],
        buffer: &mut [u8],
    ) -> Result<usize, Fault>
        ensures answer { result
            ≡ manage_answer (P.meaning (plan_in self.old)) (state_in self.old)
            (number_in superframe.now) octets.now buffer.old }
        ensures state { state_in self.new
            ≡ manage_state (P.meaning (plan_in self.old)) (state_in self.old)
            (number_in superframe.now) octets.now buffer.old }
        ensures memory { buffer.new
            ≡ manage_memory (P.meaning (plan_in self.old)) (state_in self.old)
            (number_in superframe.now) octets.now buffer.old }
        ensures plan { plan_in self.new ≡ plan_in self.old }
    {
        if !self.inner.is_open(superframe.number) {
            return Err(Refusal::Superframe.at(0));
        }
        if !matches!(self.inner.mode, Mode::Discovery | Mode::Configuration) {
            return Err(Refusal::Mode.at(0));
        }
        self.hear_frame(frame::read(octets)?, buffer)
    }

    /// Closes the open superframe; the next beacon tells what was heard in it. Refused with Superframe where this
    /// superframe is not open: it is then handed back.
    pub fn close(&mut self, superframe: OpenSuperframe) -> Result<(), (Fault, OpenSuperframe)>
        ensures answer { result ≡ close_answer (state_in self.old) (number_in superframe) }
        ensures state { state_in self.new ≡ close_state (state_in self.old) (number_in superframe) }
        ensures plan { plan_in self.new ≡ plan_in self.old }
    {
        if !self.inner.is_open(superframe.number) {
            return Err((Refusal::Superframe.at(0), superframe));
        }
        let OpenSuperframe { number: _ } = superframe;
        self.inner.end();
        Ok(())
    }

    /// How far the device of grant i, counted from 1, has come, or none where the plan has no such grant.
    pub fn record(&self, i: usize) -> Option<Record>
        ensures { result ≡ record_answer (P.meaning (plan_in self.now)) (state_in self.now) i }
    {
        let place = i.checked_sub(1)?;
        self.inner.records[..self.plan.count()].get(place).copied()
    }
}
