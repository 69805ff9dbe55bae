// A device of the script's network, and what it is ordered.
use crate::answers::Answers;
use crate::obstacle::Stop;
use cargo::Cargo;
use device::Fate;
use frame::Wish;
use hexadecimal::Hex;
use hosts::DeviceHost;
use std::alloc::{AllocError, Global};

// A device with a name.
#[derive(Drop)]
pub(crate) struct NamedDevice<C> {
    pub name: String,
    end: DeviceHost<C>,
    // The frame that it wrote last.
    pub wrote: Option<Vec<u8>>,
}

impl<C: Cargo + Drop> NamedDevice<C> {
    pub(crate) fn new(
        heap: Global,
        name: &str,
        address: u64,
        wish: Wish,
    ) -> Result<Self, AllocError> {
        Ok(NamedDevice {
            name: String::from_str(heap, name)?,
            end: DeviceHost::new(address, wish),
            wrote: None,
        })
    }

    pub(crate) fn has_name(&self, name: &str) -> bool {
        self.name.as_str() == name
    }

    pub(crate) fn has_address(&self, address: u64) -> bool {
        self.end.address() == address
    }

    pub(crate) fn beacon(&mut self, octets: &[u8], answers: &mut Answers<'_>) -> Result<(), Stop> {
        tell_fate(self.end.beacon(octets)?, answers)
    }

    pub(crate) fn missed(&mut self, answers: &mut Answers<'_>) -> Result<(), Stop> {
        tell_fate(self.end.missed(), answers)
    }

    pub(crate) fn offer(&mut self, cargo: C, answers: &mut Answers<'_>) -> Result<(), Stop> {
        self.end.offer(cargo)?;
        answers.line("accepted")
    }

    pub(crate) fn send(
        &mut self,
        timeslot: u8,
        mut buffer: Vec<u8>,
        answers: &mut Answers<'_>,
    ) -> Result<(), Stop> {
        let length = self.end.send(timeslot, buffer.as_mut_slice())?;
        buffer.truncate(length);
        self.tell_frame(buffer, answers)
    }

    pub(crate) fn write(
        &mut self,
        mut buffer: Vec<u8>,
        answers: &mut Answers<'_>,
    ) -> Result<(), Stop> {
        let length = self.end.write_management(buffer.as_mut_slice())?;
        buffer.truncate(length);
        self.tell_frame(buffer, answers)
    }

    // Keeps and tells the frame that was written, if any was.
    fn tell_frame(&mut self, frame: Vec<u8>, answers: &mut Answers<'_>) -> Result<(), Stop> {
        if frame.is_empty() {
            return answers.line("nothing");
        }
        answers.line(format_args!("frame {}", Hex(frame.as_slice())))?;
        self.wrote = Some(frame);
        Ok(())
    }

    pub(crate) fn take(&mut self, octets: &[u8], answers: &mut Answers<'_>) -> Result<(), Stop> {
        self.end.take(octets)?;
        answers.line("taken")
    }

    // Tells how far the device has come, and its grant.
    pub(crate) fn tell_phase(&self, answers: &mut Answers<'_>) -> Result<(), Stop> {
        let phase = self.end.phase();
        let Some(told) = self.end.configuration() else {
            return answers.line(format_args!("phase {phase:?}"));
        };
        let simple = told.simple;
        let first = told.first;
        let width = told.width;
        answers.line(format_args!("phase {phase:?} simple {simple} first {first} slots {width}"))
    }

    // Tells what became of the device's cargo.
    pub(crate) fn tell_tally(&self, answers: &mut Answers<'_>) -> Result<(), Stop> {
        let name = self.name.as_str();
        let end = &self.end;
        answers.line(format_args!("device {name} {end}"))
    }
}

// Tells a fate.
fn tell_fate(fate: Option<Fate>, answers: &mut Answers<'_>) -> Result<(), Stop> {
    match fate {
        Some(fate) => answers.line(format_args!("fate {fate:?}")),
        None => answers.line("no fate"),
    }
}
