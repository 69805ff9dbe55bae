// A whole run of a network that carries readings, over a radio that loses frames.
use crate::lossy_radio::LossyRadio;
use crate::station::Station;
use cargo::Reading;
use coordinator::Mode;
use frame::Fault;
use hosts::{CoordinatorHost, SPACE, first};
use plan::{Grants, SlotPlan};
use std::alloc::{AllocError, Global};

/// A coordinator, a device for each grant of its plan, and the radio between them. It has to be finished, for its coordinator.
pub struct Hall<P> {
    host: CoordinatorHost<P>,
    stations: Vec<Station>,
    radio: LossyRadio,
    timeslots: u8,
}

impl<P: SlotPlan + Drop> Hall<P> {
    /// A hall over a plan. The radio loses a beacon at one device, or a frame, with `loss` chances in 100; its chances start from `seed`.
    pub fn new(heap: Global, plan: P, loss: u32, seed: u32) -> Result<Hall<P>, AllocError> {
        let numbers = plan.numbers();
        let stations = Grants::of(&plan)
            .map(|(_, grant)| Station::new(numbers, grant))
            .collect(heap)?;
        Ok(Hall {
            host: CoordinatorHost::new::<Reading>(plan),
            stations,
            radio: LossyRadio::new(loss, seed),
            timeslots: numbers.timeslots,
        })
    }

    /// Its devices, in the order of the grants.
    pub fn stations(&self) -> &[Station] {
        self.stations.as_slice()
    }

    /// Lets the coordinator go, and hands out the devices.
    pub fn finish(self) -> Vec<Station> {
        let Hall {
            host,
            stations,
            radio: _,
            timeslots: _,
        } = self;
        host.finish();
        stations
    }

    /// A superframe of Discovery and one of Configuration, without loss, in which every device gets its grant; then the network is Online.
    pub fn configure(&mut self) -> Result<(), Fault> {
        self.superframe(|hall, beacon| hall.meet(beacon, |station, host| station.ask(host)))?;
        self.host.set_mode(Mode::Configuration)?;
        self.superframe(|hall, beacon| {
            hall.meet(beacon, |station, host| {
                station.ask(host)?;
                station.thank(host)
            })
        })?;
        self.host.set_mode(Mode::Online)
    }

    /// An Online superframe: each device gets the beacon or misses it and is offered a reading, and then readings are carried in each timeslot.
    pub fn carry(&mut self) -> Result<(), Fault> {
        self.superframe(|hall, beacon| {
            hall.begin(beacon)?;
            for t in 1..=hall.timeslots {
                hall.timeslot(t)?;
            }
            Ok(())
        })
    }

    // A superframe, and what happens in it after its beacon.
    fn superframe<F: Fn(&mut Hall<P>, &[u8]) -> Result<(), Fault>>(
        &mut self,
        happen: F,
    ) -> Result<(), Fault>
        requires { F.IsAlwaysCallable happen }
    {
        let mut beacon = [0; SPACE];
        let begun = self.host.open(&mut beacon)?;
        happen(self, first(&beacon, begun.length))?;
        let _ = self.host.close();
        Ok(())
    }

    // Every device takes the beacon and exchanges management frames.
    fn meet<F: Fn(&mut Station, &mut CoordinatorHost<P>) -> Result<(), Fault>>(
        &mut self,
        beacon: &[u8],
        exchange: F,
    ) -> Result<(), Fault>
        requires { F.IsAlwaysCallable exchange }
    {
        for station in self.stations.iter_mut() {
            station.take_beacon(beacon)?;
            exchange(station, &mut self.host)?;
        }
        Ok(())
    }

    // Each device gets the beacon or misses it, and is offered a reading.
    fn begin(&mut self, beacon: &[u8]) -> Result<(), Fault> {
        for station in self.stations.iter_mut() {
            if self.radio.loses() {
                station.miss_beacon();
            } else {
                station.take_beacon(beacon)?;
            }
            station.offer();
        }
        Ok(())
    }

    // Each device may send in a timeslot.
    fn timeslot(&mut self, t: u8) -> Result<(), Fault> {
        for station in self.stations.iter_mut() {
            station.send(&mut self.host, &mut self.radio, t)?;
        }
        Ok(())
    }
}
