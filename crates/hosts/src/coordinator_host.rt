// A coordinator together with its open superframe.
ghost use Rattle.std.specs.Prelude.{◌≡◌, true};
ghost use Rattle.coordinator.specs.Coordinators.{state_in};
ghost use Rattle.hosts.specs.HeldSuperframes.{holds};

use cargo::Cargo;
use coordinator::{Coordinator, Heard, Mode, OpenSuperframe, Opened, Record};
use frame::{Fault, Refusal};
use network::coordinator_for;
use plan::SlotPlan;

/// A coordinator that keeps the superframe that it has open. It has to be finished, since an open superframe cannot be let go.
// What is held is always the open one (`own`), so that no refusal comes where `unreachable` stands: this is proved.
pub struct CoordinatorHost<P> {
    coordinator: Coordinator<P>,
    held: Option<OpenSuperframe>,
    ghost own: { holds (state_in coordinator) held ≡ true },
}

/// A superframe that was opened.
#[derive(Clone, Copy)]
pub struct Begun {
    /// The superframe's number, from 0 on.
    pub number: u32,
    /// How many octets its beacon has.
    pub length: usize,
}

impl<P: SlotPlan> CoordinatorHost<P> {
    ghost use Rattle.std.specs.Prelude.{◌≡◌, Some, None, Err, is_some, option_map};
    ghost use Rattle.frame.specs.declared.faults.Refusal.TheVariants as refusal;
    ghost use Rattle.frame.specs.Refusals.{fault};
    ghost use Rattle.coordinator.specs.declared.open_superframe.OpenSuperframe.{OpenSuperframe};
    ghost use Rattle.coordinator.specs.OpenSuperframes.{number_in};
    ghost use Rattle.coordinator.specs.Steps.{made, mode_answer, mode_state, open_answer, open_state, open_memory};
    ghost use Rattle.coordinator.specs.Steps.{Hears, hear_state, manage_answer, manage_state, manage_memory, ended, record_answer};
    ghost use Rattle.hosts.specs.CoordinatorHosts.{state_held, plan_held, open_held, begun_as, open_after};

    /// The host of a network that carries one kind of cargo, with a coordinator in Discovery.
    pub fn new<C: Cargo>(plan: P) -> CoordinatorHost<P>
        ensures state { state_held result ≡ made }
        ensures plan { plan_held result ≡ plan }
        ensures open { open_held result ≡ None }
    {
        CoordinatorHost {
            coordinator: coordinator_for::<P, C>(plan),
            held: None,
        }
    }

    /// Whether a superframe is open.
    pub fn is_open(&self) -> bool
        ensures { result ≡ is_some (open_held self.now) }
    {
        self.held.is_some()
    }

    /// The mode that was set last.
    pub fn mode(&self) -> Mode
        ensures { result ≡ (state_held self.now).mode }
    {
        self.coordinator.mode()
    }

    /// What the coordinator has noted of the device of grant i, from 1 on; none for another number.
    pub fn record(&self, i: usize) -> Option<Record>
        ensures { result ≡ record_answer (P.meaning (plan_held self.now)) (state_held self.now) i }
    {
        self.coordinator.record(i)
    }

    /// Sets the mode; refused while a superframe is open.
    pub fn set_mode(&mut self, mode: Mode) -> Result<(), Fault>
        ensures answer { result ≡ mode_answer (state_held self.old) }
        ensures state { state_held self.new ≡ mode_state (state_held self.old) mode }
        ensures plan { plan_held self.new ≡ plan_held self.old }
        ensures open { open_held self.new ≡ open_held self.old }
    {
        self.coordinator.set_mode(mode)
    }

    /// Opens a superframe, keeps it, and writes its beacon at the start of the buffer. Refused while one is open, and where the buffer is too short.
    pub fn open(&mut self, buffer: &mut [u8]) -> Result<Begun, Fault>
        ensures answer { result
            ≡ begun_as (open_answer (P.meaning (plan_held self.old)).numbers (state_held self.old) buffer.old) }
        ensures state { state_held self.new
            ≡ open_state (P.meaning (plan_held self.old)).numbers (state_held self.old) buffer.old }
        ensures memory { buffer.new
            ≡ open_memory (P.meaning (plan_held self.old)).numbers (state_held self.old) buffer.old }
        ensures plan { plan_held self.new ≡ plan_held self.old }
        ensures open { open_held self.new
            ≡ open_after (open_answer (P.meaning (plan_held self.old)).numbers (state_held self.old) buffer.old) (open_held self.old) }
    {
        let Opened { length, superframe } = self.coordinator.open(buffer)?;
        let number = superframe.number();
        // A match with `unreachable`: an open superframe cannot be let go, and `own` says that the other arm is never reached.
        match self.held.replace(superframe) {
            None => Ok(Begun { number, length }),
            Some(_) => unreachable(),
        }
    }

    /// Hears a data frame in a base timeslot of the open superframe; refused at place 0 where none is open, and as the coordinator refuses.
    pub fn hear<C: Cargo + Drop>(&mut self, timeslot: u8, octets: &[u8]) -> Result<Heard<C>, Fault>
        ensures none { open_held self.old ≡ None → result ≡ Err (fault refusal.Superframe 0) }
        ensures answer { (k : OpenSuperframe) → open_held self.old ≡ Some k
            → Hears C.image (P.meaning (plan_held self.old)) (state_held self.old) (number_in k) timeslot octets.now result }
        ensures state { state_held self.new
            ≡ hear_state (P.meaning (plan_held self.old)) (state_held self.old) timeslot result }
        ensures plan { plan_held self.new ≡ plan_held self.old }
        ensures open { open_held self.new ≡ open_held self.old }
    {
        let superframe = self.held.as_ref().ok_or(Refusal::Superframe.at(0))?;
        self.coordinator.hear(superframe, timeslot, octets)
    }

    /// Hears a management frame in the open superframe, and answers the length of the reply that is written at the start of the buffer, 0 for none.
    /// Refused at place 0 where none is open, and as the coordinator refuses.
    pub fn hear_management(&mut self, octets: &[u8], buffer: &mut [u8]) -> Result<usize, Fault>
        ensures none { open_held self.old ≡ None → result ≡ Err (fault refusal.Superframe 0) }
        ensures stays { open_held self.old ≡ None → self.new ≡ self.old }
        ensures untouched { open_held self.old ≡ None → buffer.new ≡ buffer.old }
        ensures answer { (k : OpenSuperframe) → open_held self.old ≡ Some k
            → result
            ≡ manage_answer (P.meaning (plan_held self.old)) (state_held self.old) (number_in k) octets.now buffer.old }
        ensures state { (k : OpenSuperframe) → open_held self.old ≡ Some k
            → state_held self.new
            ≡ manage_state (P.meaning (plan_held self.old)) (state_held self.old) (number_in k) octets.now buffer.old }
        ensures memory { (k : OpenSuperframe) → open_held self.old ≡ Some k
            → buffer.new
            ≡ manage_memory (P.meaning (plan_held self.old)) (state_held self.old) (number_in k) octets.now buffer.old }
        ensures plan { plan_held self.new ≡ plan_held self.old }
        ensures open { open_held self.new ≡ open_held self.old }
    {
        let superframe = self.held.as_ref().ok_or(Refusal::Superframe.at(0))?;
        self.coordinator.hear_management(superframe, octets, buffer)
    }

    /// Closes the open superframe and answers its number, or none where none is open.
    pub fn close(&mut self) -> Option<u32>
        ensures answer { result ≡ option_map number_in (open_held self.old) }
        ensures stays { open_held self.old ≡ None → self.new ≡ self.old }
        ensures state { (k : OpenSuperframe) → open_held self.old ≡ Some k
            → state_held self.new ≡ ended (state_held self.old) }
        ensures plan { plan_held self.new ≡ plan_held self.old }
        ensures open { open_held self.new ≡ None }
    {
        let superframe = self.held.take()?;
        let number = superframe.number();
        // As in `open`: an open superframe cannot be let go, and `own` says that the other arm is never reached.
        match self.coordinator.close(superframe) {
            Ok(()) => Some(number),
            Err(_) => unreachable(),
        }
    }
}

impl<P: SlotPlan + Drop> CoordinatorHost<P> {
    /// Closes what is open, and lets the coordinator go.
    pub fn finish(self) {
        let CoordinatorHost {
            mut coordinator,
            held,
        } = self;
        if let Some(superframe) = held {
            // As in `open`.
            match coordinator.close(superframe) {
                Ok(()) => {}
                Err(_) => unreachable(),
            }
        }
    }
}
