// Writing the beacon of a superframe.
ghost use Rattle.std.specs.Prelude.{◌≡◌};
ghost use Rattle.frame.specs.Writing.{fitting, left_by};
ghost use Rattle.coordinator.specs.Frames.{header_of};
ghost use Rattle.coordinator.specs.Steps.{beacon_of};

use crate::coordinator::Coordinator;
use crate::mode::Mode;
use frame::{BeaconHeader, Fault, ManagementState, ManagementWidth};
use plan::{Numbers, SlotPlan};

// What every beacon of a plan carries.
fn header(numbers: Numbers) -> BeaconHeader
    ensures { result ≡ header_of numbers }
{
    BeaconHeader {
        coordinator: numbers.coordinator,
        sequence: numbers.sequence,
        size: numbers.size,
    }
}

impl<P: SlotPlan> Coordinator<P> {
    // Writes the beacon of the next superframe.
    pub(crate) fn write_beacon(&self, buffer: &mut [u8]) -> Result<usize, Fault>
        ensures answer { result ≡ fitting (beacon_of (P.meaning self.now.plan).numbers self.now.inner) buffer.old }
        ensures memory { buffer.new
            ≡ left_by result (beacon_of (P.meaning self.now.plan).numbers self.now.inner) buffer.old }
    {
        let numbers = self.plan.numbers();
        let header = header(numbers);
        let state = match self.inner.mode {
            Mode::Discovery => ManagementState::Discovery,
            Mode::Configuration => ManagementState::Configuration,
            Mode::Online => {
                let bitmap = &self.inner.sent[..numbers.bitmap_octets()];
                return frame::write_online_beacon(header, numbers.timeslots, bitmap, buffer);
            }
            Mode::Reset => return frame::write_reset_beacon(header, buffer),
        };
        let management = ManagementWidth::try_from(numbers.management).unwrap();
        frame::write_management_beacon(header, state, management, buffer)
    }
}
