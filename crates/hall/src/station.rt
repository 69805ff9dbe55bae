// A device of a hall.
use crate::lossy_radio::LossyRadio;
use cargo::Reading;
use coordinator::Heard;
use frame::{Fault, Wish};
use hosts::{CoordinatorHost, DeviceHost, SPACE, first};
use plan::{Grant, Numbers, SlotPlan};
use std::fmt;

// How many octets of payload a reading takes.
const READING: usize = 5;

/// A device of a hall, with what came of its readings. Its text is `station 3 accepted 1000 Confirmed 700 ..`.
#[derive(Drop)]
pub struct Station {
    simple: u8,
    // How many octets of payload its grant carries.
    room: usize,
    end: DeviceHost<Reading>,
    // How many of its readings the coordinator handed up under its simple address.
    handed_up: u32,
}

impl Station {
    // The device of a grant, which asks for just that.
    pub(crate) fn new(numbers: Numbers, grant: Grant) -> Station {
        let wish = Wish {
            width: grant.width,
            direction: grant.direction(numbers),
        };
        Station {
            simple: grant.simple,
            room: grant.carries(numbers.size),
            end: DeviceHost::new(grant.address, wish),
            handed_up: 0,
        }
    }

    /// Why all its counts stay 0, where its grant does not carry a reading.
    pub fn too_narrow(&self) -> Option<TooNarrow> {
        let Station { simple, room, .. } = *self;
        (room < READING).then_some(TooNarrow { simple, room })
    }

    pub(crate) fn take_beacon(&mut self, beacon: &[u8]) -> Result<(), Fault> {
        self.end.beacon(beacon)?;
        Ok(())
    }

    pub(crate) fn miss_beacon(&mut self) {
        let _ = self.end.missed();
    }

    // Writes a management frame, and takes the coordinator's reply.
    pub(crate) fn ask<P: SlotPlan>(&mut self, host: &mut CoordinatorHost<P>) -> Result<(), Fault> {
        let mut reply = [0; SPACE];
        let length = self.write_management(host, &mut reply)?;
        self.end.take(first(&reply, length))
    }

    // Acknowledges its grant.
    pub(crate) fn thank<P: SlotPlan>(
        &mut self,
        host: &mut CoordinatorHost<P>,
    ) -> Result<(), Fault> {
        self.write_management(host, &mut [0; SPACE])?;
        Ok(())
    }

    // Writes a management frame, which the coordinator hears, and answers how long the reply is.
    fn write_management<P: SlotPlan>(
        &mut self,
        host: &mut CoordinatorHost<P>,
        reply: &mut [u8],
    ) -> Result<usize, Fault> {
        let mut frame = [0; SPACE];
        let written = self.end.write_management(&mut frame)?;
        host.hear_management(first(&frame, written), reply)
    }

    // Is offered a reading, if none waits: how many were accepted before, with quality 0.
    pub(crate) fn offer(&mut self) {
        let value = i32::try_from(self.end.accepted()).ok();
        if let Some(reading) = value.and_then(|value| Reading::new(value, 0))
            && !self.end.is_waiting()
        {
            let _ = self.end.offer(reading);
        }
    }

    // Sends in a timeslot; what the radio does not lose, the coordinator hears and hands up.
    pub(crate) fn send<P: SlotPlan>(
        &mut self,
        host: &mut CoordinatorHost<P>,
        radio: &mut LossyRadio,
        t: u8,
    ) -> Result<(), Fault> {
        let mut frame = [0; SPACE];
        let length = self.end.send(t, &mut frame)?;
        if length == 0 || radio.loses() {
            return Ok(());
        }
        let Heard { simple, cargo: _ } = host.hear::<Reading>(t, first(&frame, length))?;
        if simple == self.simple {
            self.handed_up = self.handed_up.saturating_add(1);
        }
        Ok(())
    }
}

impl fmt::Display for Station {
    fn fmt<W: fmt::Write>(&self, f: &mut fmt::Formatter<W>) -> fmt::Result {
        let simple = self.simple;
        let end = &self.end;
        let handed_up = self.handed_up;
        write!(f, "station {simple} {end} handed-up {handed_up}")
    }
}

/// A station whose grant does not carry a reading: its text says so.
#[derive(Clone, Copy)]
pub struct TooNarrow {
    simple: u8,
    room: usize,
}

impl fmt::Display for TooNarrow {
    fn fmt<W: fmt::Write>(&self, f: &mut fmt::Formatter<W>) -> fmt::Result {
        let TooNarrow { simple, room } = self;
        write!(
            f,
            "station {simple} has all counts 0: its grant carries {room} octets of payload, "
        )?;
        write!(f, "and a reading takes {READING}")
    }
}
