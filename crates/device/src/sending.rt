// The steps of a device that sends in a timeslot.
ghost use Rattle.std.specs.Prelude.{◌≡◌};
ghost use Rattle.frame.specs.Messages.{data_frame, octets_of};
ghost use Rattle.frame.specs.Writing.{fitting, left_by};
ghost use Rattle.device.specs.Steps.{waiting_turn, again_turn, turn_answer, turn_state, turn_memory, no_timeslot};

use crate::device::Device;
use crate::member::Member;
use cargo::Cargo;
use frame::{Configuration, Fault, write_data};

// Whether a device knows that there is no such timeslot.
pub(crate) fn is_no_timeslot(configuration: Option<Configuration>, timeslot: u8) -> bool
    ensures { result ≡ no_timeslot configuration timeslot }
{
    timeslot == 0 || configuration.is_some_and(|told| timeslot > told.timeslots)
}

// Writes a data frame with cargo.
fn write_cargo<C: Cargo>(cargo: &C, buffer: &mut [u8]) -> Result<usize, Fault>
    ensures answer { result ≡ fitting (octets_of (data_frame (C.image cargo.now))) buffer.old }
    ensures memory { buffer.new ≡ left_by result (octets_of (data_frame (C.image cargo.now))) buffer.old }
{
    // The most octets that a frame carries.
    let mut payload = [0; 124];
    let length = cargo.write(&mut payload)?;
    write_data(&payload[..length], buffer)
}

impl<C: Cargo + Drop> Device<C> {
    // Sends the cargo that waits, if none was sent yet and it takes no more octets than there is room for.
    pub(crate) fn send_waiting(&mut self, member: Member, buffer: &mut [u8]) -> Result<usize, Fault>
        ensures answer { result ≡ turn_answer C.image (waiting_turn C.image member.configuration self.old) buffer.old }
        ensures state { self.new ≡ turn_state self.old (waiting_turn C.image member.configuration self.old) result }
        ensures memory { buffer.new ≡ turn_memory C.image (waiting_turn C.image member.configuration self.old) result buffer.old }
    {
        let Some(cargo) = &self.waiting else {
            return Ok(0);
        };
        if self.sent.is_some() || cargo.length() > member.room() {
            return Ok(0);
        }
        let written = write_cargo(cargo, buffer)?;
        self.sent = self.waiting.take();
        Ok(written)
    }

    // Sends the repeat that is due from a timeslot on.
    pub(crate) fn send_repeat(&mut self, timeslot: u8, buffer: &mut [u8]) -> Result<usize, Fault>
        ensures answer { result ≡ turn_answer C.image (again_turn timeslot self.old.repeat) buffer.old }
        ensures state { self.new ≡ turn_state self.old (again_turn timeslot self.old.repeat) result }
        ensures memory { buffer.new ≡ turn_memory C.image (again_turn timeslot self.old.repeat) result buffer.old }
    {
        let Some(repeat) = &self.repeat else {
            return Ok(0);
        };
        if repeat.start != timeslot {
            return Ok(0);
        }
        let written = write_cargo(&repeat.cargo, buffer)?;
        self.repeat = None;
        Ok(written)
    }
}
