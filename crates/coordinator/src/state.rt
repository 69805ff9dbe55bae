// What a coordinator holds beside its plan, and how that changes.
ghost use Rattle.std.specs.Prelude.{◌≡◌, ℕ, List, Some};
ghost use Rattle.coordinator.specs.Replying.{Replied};
ghost use Rattle.coordinator.specs.Steps.{made, is_open, accepted, ended, thanked};

use crate::mode::Mode;
use crate::record::{Record, note};
use frame::{Fault, Refusal};
use plan::{Grant, Numbers};
use repeats::{Bitmap, is_for_retransmission, no_bits};
use std::mem;

/// The state of a coordinator, beside its plan. It is of fixed size: nothing is allocated.
#[derive(Drop)]
pub struct Inner {
    pub(crate) mode: Mode,
    // Whether a superframe is open.
    pub(crate) opened: bool,
    // The number of the superframe that is open, or else of the next one.
    pub(crate) number: u32,
    // The last timeslot accepted in the open superframe, or 0.
    pub(crate) last: u8,
    // The grants accepted in their own timeslots during the open superframe.
    pub(crate) gathered: Bitmap,
    // The same of the superframe before, which the beacon carries.
    pub(crate) sent: Bitmap,
    // How far each grant's device has come: that of grant i stands at i - 1.
    pub(crate) records: [Record; 128],
    // The grant that was handed out last, until that is acknowledged.
    pub(crate) handed: Option<usize>,
}

impl Inner {
    // The state of a coordinator that is new.
    pub(crate) fn new() -> Inner
        ensures { result ≡ made }
    {
        Inner {
            mode: Mode::Discovery,
            opened: false,
            number: 0,
            last: 0,
            gathered: no_bits(),
            sent: no_bits(),
            records: [Record::default(); 128],
            handed: None,
        }
    }

    // Whether the superframe with a number is open.
    pub(crate) fn is_open(&self, number: u32) -> bool
        ensures { result ≡ is_open self.now number }
    {
        self.opened && number == self.number
    }

    // Takes down that a grant's frame was heard in timeslot t. A repeat sets no bit.
    pub(crate) fn accept(&mut self, numbers: Numbers, grant: Grant, t: u8)
        ensures { self.new ≡ accepted numbers self.old t (Some grant) }
    {
        self.last = t;
        if !is_for_retransmission(numbers, t) {
            self.gathered = repeats::marked(self.gathered, numbers, grant);
        }
    }

    // Takes down that the grant that was handed out last is acknowledged. There is no reply, whatever the buffer.
    pub(crate) fn acknowledge(&mut self) -> Result<usize, Fault>
        ensures { (b : List ℕ) → Replied self.old (thanked self.old self.old.handed) b result self.new b }
    {
        let i = self.handed.take().ok_or(Refusal::Unwanted.at(0))?;
        note(&mut self.records, i, |record| record.configured = true);
        Ok(0)
    }

    // Ends the open superframe: what was gathered in it is what the next beacon tells.
    pub(crate) fn end(&mut self)
        ensures { self.new ≡ ended self.old }
    {
        self.opened = false;
        self.number = self.number.wrapping_add(1);
        self.last = 0;
        self.sent = mem::replace(&mut self.gathered, no_bits());
    }
}
