// The script's network: a coordinator and devices that carry one kind of cargo.
use crate::answers::Answers;
use crate::any_plan::AnyPlan;
use crate::cargo_commands::Carried;
use crate::named_device::NamedDevice;
use crate::obstacle::{Obstacle, Stop};
use coordinator::{Heard, Mode};
use frame::Wish;
use hexadecimal::Hex;
use hosts::CoordinatorHost;
use script::{CoordinatorOrder, DeviceOrder, FrameWord, GivenCargo, NetworkMode, NetworkOrder};
use std::alloc::{AllocError, Global};

// A network. It has to be finished, for its coordinator.
pub(crate) struct ScriptNetwork<C> {
    heap: Global,
    host: CoordinatorHost<AnyPlan>,
    devices: Vec<NamedDevice<C>>,
    // The beacon that was opened last.
    beacon: Option<Vec<u8>>,
    // The coordinator's last reply to a management frame.
    reply: Option<Vec<u8>>,
}

impl<C: Carried> ScriptNetwork<C> {
    // The heap and the plan meet where something is made over both alone: each goes into a field of its own.
    pub(crate) fn new(heap: Global, plan: AnyPlan) -> ScriptNetwork<C> {
        ScriptNetwork {
            heap,
            host: CoordinatorHost::new::<C>(plan),
            devices: Vec::new(heap),
            beacon: None,
            reply: None,
        }
    }

    pub(crate) fn mode(&self) -> Mode {
        self.host.mode()
    }

    pub(crate) fn finish(self) {
        let ScriptNetwork {
            heap: _,
            host,
            devices: _,
            beacon: _,
            reply: _,
        } = self;
        host.finish();
    }

    // Carries out an order.
    pub(crate) fn run(
        &mut self,
        order: NetworkOrder<'_>,
        answers: &mut Answers<'_>,
    ) -> Result<(), Stop> {
        match order {
            NetworkOrder::Coordinator(order) => self.run_coordinator(order, answers),
            NetworkOrder::Device { name, order } => self.run_device(name, order, answers),
        }
    }

    // Carries out an order to the coordinator, or about all devices.
    fn run_coordinator(
        &mut self,
        order: CoordinatorOrder<'_>,
        answers: &mut Answers<'_>,
    ) -> Result<(), Stop> {
        match order {
            CoordinatorOrder::Add {
                name,
                address,
                wish,
            } => self.add(name, address, wish, answers),
            CoordinatorOrder::Mode(mode) => self.set_mode(mode, answers),
            CoordinatorOrder::Open(space) => self.open(space, answers),
            CoordinatorOrder::Hear { timeslot, frame } => self.hear(timeslot, &frame, answers),
            CoordinatorOrder::HearManagement { frame, space } => {
                self.hear_management(&frame, space, answers)
            }
            CoordinatorOrder::Close => self.close(answers),
            CoordinatorOrder::Record(i) => self.tell_record(i, answers),
            CoordinatorOrder::Summary => self.tell_tallies(answers),
        }
    }

    // Carries out an order to the device that has a name.
    fn run_device(
        &mut self,
        name: &str,
        order: DeviceOrder<'_>,
        answers: &mut Answers<'_>,
    ) -> Result<(), Stop> {
        match order {
            DeviceOrder::Beacon(word) => self.beacon(name, &word, answers),
            DeviceOrder::Missed => self.missed(name, answers),
            DeviceOrder::Offer(cargo) => self.offer(name, cargo, answers),
            DeviceOrder::Send { timeslot, space } => self.send(name, timeslot, space, answers),
            DeviceOrder::Write(space) => self.write(name, space, answers),
            DeviceOrder::Take(word) => self.take(name, &word, answers),
            DeviceOrder::Phase => self.tell_phase(name, answers),
        }
    }

    fn beacon(
        &mut self,
        name: &str,
        word: &FrameWord<'_>,
        answers: &mut Answers<'_>,
    ) -> Result<(), Stop> {
        let place = self.place(name)?;
        let frame = self.frame(word)?.ok_or(Obstacle::NoFrame)?;
        self.device_at(place)?.beacon(frame.as_slice(), answers)
    }

    fn missed(&mut self, name: &str, answers: &mut Answers<'_>) -> Result<(), Stop> {
        self.device(name)?.missed(answers)
    }

    fn offer(
        &mut self,
        name: &str,
        cargo: GivenCargo,
        answers: &mut Answers<'_>,
    ) -> Result<(), Stop> {
        self.device(name)?.offer(C::given(cargo)?, answers)
    }

    fn send(
        &mut self,
        name: &str,
        timeslot: u8,
        space: usize,
        answers: &mut Answers<'_>,
    ) -> Result<(), Stop> {
        let place = self.place(name)?;
        let buffer = self.buffer(space)?;
        self.device_at(place)?.send(timeslot, buffer, answers)
    }

    fn write(&mut self, name: &str, space: usize, answers: &mut Answers<'_>) -> Result<(), Stop> {
        let place = self.place(name)?;
        let buffer = self.buffer(space)?;
        self.device_at(place)?.write(buffer, answers)
    }

    fn take(
        &mut self,
        name: &str,
        word: &FrameWord<'_>,
        answers: &mut Answers<'_>,
    ) -> Result<(), Stop> {
        let place = self.place(name)?;
        let frame = self.frame(word)?.ok_or(Obstacle::NoFrame)?;
        self.device_at(place)?.take(frame.as_slice(), answers)
    }

    fn tell_phase(&mut self, name: &str, answers: &mut Answers<'_>) -> Result<(), Stop> {
        self.device(name)?.tell_phase(answers)
    }

    // The device with a name.
    fn device(&mut self, name: &str) -> Result<&mut NamedDevice<C>, Obstacle> {
        let place = self.place(name)?;
        self.device_at(place)
    }

    // Where the device with a name stands. The calls that need memory for a frame ask for it first.
    fn place(&self, name: &str) -> Result<usize, Obstacle> {
        self.devices
            .iter()
            .position(|device| device.has_name(name))
            .ok_or(Obstacle::NoDevice)
    }

    // The device at a place.
    fn device_at(&mut self, place: usize) -> Result<&mut NamedDevice<C>, Obstacle> {
        self.devices.get_mut(place).ok_or(Obstacle::NoDevice)
    }

    // What a word stands for, or none where nothing was written yet.
    fn frame(&self, word: &FrameWord<'_>) -> Result<Option<Vec<u8>>, Stop> {
        let kept = match word {
            FrameWord::Octets(octets) => Some(octets.as_slice()),
            FrameWord::Beacon => self.beacon.as_deref(),
            FrameWord::Reply => self.reply.as_deref(),
            FrameWord::Device(name) => self.wrote(name)?,
        };
        Ok(kept.map(|octets| octets.to_vec(self.heap)).transpose()?)
    }

    // What the device with a name wrote last.
    fn wrote(&self, name: &str) -> Result<Option<&[u8]>, Obstacle> {
        let device = self.devices.iter().find(|device| device.has_name(name));
        Ok(device.ok_or(Obstacle::NoDevice)?.wrote.as_deref())
    }

    // A buffer of some length.
    fn buffer(&self, space: usize) -> Result<Vec<u8>, AllocError> {
        vec![in self.heap; 0; space]
    }

    // Makes a device, unless one has the name or the address.
    fn add(
        &mut self,
        name: &str,
        address: u64,
        wish: Wish,
        answers: &mut Answers<'_>,
    ) -> Result<(), Stop> {
        let taken = |device: &NamedDevice<C>| device.has_name(name) || device.has_address(address);
        if self.devices.iter().any(taken) {
            return Err(Obstacle::Taken.into());
        }
        self.devices
            .push(NamedDevice::new(self.heap, name, address, wish)?)?;
        answers.line(format_args!("device {name} Idle"))
    }

    fn set_mode(&mut self, mode: NetworkMode, answers: &mut Answers<'_>) -> Result<(), Stop> {
        self.host.set_mode(mode_named(mode))?;
        let mode = self.host.mode();
        answers.line(format_args!("mode {mode:?}"))
    }

    fn open(&mut self, space: usize, answers: &mut Answers<'_>) -> Result<(), Stop> {
        let mut buffer = self.buffer(space)?;
        let begun = self.host.open(buffer.as_mut_slice())?;
        let superframe = begun.number;
        buffer.truncate(begun.length);
        answers.line(format_args!("superframe {superframe} beacon {}", Hex(buffer.as_slice())))?;
        self.beacon = Some(buffer);
        Ok(())
    }

    fn hear(
        &mut self,
        timeslot: u8,
        word: &FrameWord<'_>,
        answers: &mut Answers<'_>,
    ) -> Result<(), Stop> {
        let octets = self.heard(word)?;
        let Heard { simple, cargo } = self.host.hear::<C>(timeslot, octets.as_slice())?;
        answers.line(format_args!("from {simple} {cargo}"))
    }

    // The frame that is to be heard in the open superframe.
    fn heard(&self, word: &FrameWord<'_>) -> Result<Vec<u8>, Stop> {
        let frame = self.frame(word)?;
        if !self.host.is_open() {
            return Err(Obstacle::NoSuperframe.into());
        }
        Ok(frame.ok_or(Obstacle::NoFrame)?)
    }

    fn hear_management(
        &mut self,
        word: &FrameWord<'_>,
        space: usize,
        answers: &mut Answers<'_>,
    ) -> Result<(), Stop> {
        let octets = self.heard(word)?;
        let mut buffer = self.buffer(space)?;
        let length = self
            .host
            .hear_management(octets.as_slice(), buffer.as_mut_slice())?;
        if length == 0 {
            return answers.line("no reply");
        }
        buffer.truncate(length);
        answers.line(format_args!("reply {}", Hex(buffer.as_slice())))?;
        self.reply = Some(buffer);
        Ok(())
    }

    fn close(&mut self, answers: &mut Answers<'_>) -> Result<(), Stop> {
        let superframe = self.host.close().ok_or(Obstacle::NoSuperframe)?;
        answers.line(format_args!("closed {superframe}"))
    }

    fn tell_record(&self, i: usize, answers: &mut Answers<'_>) -> Result<(), Stop> {
        let Some(record) = self.host.record(i) else {
            return answers.line("none");
        };
        let seen = word_for(record.seen);
        let requested = word_for(record.requested);
        let configured = word_for(record.configured);
        answers.line(format_args!("seen {seen} requested {requested} configured {configured}"))
    }

    fn tell_tallies(&self, answers: &mut Answers<'_>) -> Result<(), Stop> {
        for device in self.devices.iter() {
            device.tell_tally(answers)?;
        }
        Ok(())
    }
}

fn word_for(flag: bool) -> &'static str {
    if flag { "yes" } else { "no" }
}

// The coordinator's mode that the script names.
fn mode_named(mode: NetworkMode) -> Mode {
    match mode {
        NetworkMode::Discovery => Mode::Discovery,
        NetworkMode::Configuration => Mode::Configuration,
        NetworkMode::Online => Mode::Online,
        NetworkMode::Reset => Mode::Reset,
    }
}
