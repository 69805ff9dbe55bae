// A device together with the counts of its cargo's fates.
ghost use Rattle.std.specs.Prelude.{Some};
ghost use Rattle.hosts.specs.DeviceHosts.{host_text};

use crate::fate_counts::FateCounts;
use cargo::Cargo;
use device::{Device, Fate, Phase};
use frame::{Configuration, Fault, Wish};
use std::fmt;

/// A device, and what became of its cargo.
#[derive(Drop)]
pub struct DeviceHost<C> {
    device: Device<C>,
    counts: FateCounts,
}

impl<C: Cargo + Drop> DeviceHost<C> {
    ghost use Rattle.std.specs.Prelude.{◌≡◌, OnOk, OnErr};
    ghost use Rattle.device.specs.Devices.{address_in, phase_in, configuration_in, is_waiting};
    ghost use Rattle.device.specs.Steps.{made, beacon_answer, beacon_state, missed_answer, missed_state, offer_answer, offer_state};
    ghost use Rattle.device.specs.Steps.{send_answer, send_state, send_memory, write_answer, write_state, write_memory, take_answer, take_state};
    ghost use Rattle.hosts.specs.Counts.{no_counts, with_accepted, with_fate, with_told};
    ghost use Rattle.hosts.specs.DeviceHosts.{device_held, counts_held};

    /// An Idle device with a full address and with what it asks for.
    pub fn new(address: u64, wish: Wish) -> Self
        ensures device { device_held result ≡ made address wish }
        ensures counts { counts_held result ≡ no_counts }
    {
        DeviceHost {
            device: Device::new(address, wish),
            counts: FateCounts::default(),
        }
    }

    /// Its full address.
    pub fn address(&self) -> u64
        ensures { result ≡ address_in (device_held self.now) }
    {
        self.device.address()
    }

    /// How far it has come.
    pub fn phase(&self) -> Phase
        ensures { result ≡ phase_in (device_held self.now) }
    {
        self.device.phase()
    }

    /// Its grant, once it is configured.
    pub fn configuration(&self) -> Option<Configuration>
        ensures { result ≡ configuration_in (device_held self.now) }
    {
        self.device.configuration()
    }

    /// Whether cargo waits to be sent.
    pub fn is_waiting(&self) -> bool
        ensures { result ≡ is_waiting (device_held self.now) }
    {
        self.device.is_waiting()
    }

    /// How many cargoes it accepted.
    pub fn accepted(&self) -> u32
        ensures { result ≡ (counts_held self.now).accepted }
    {
        self.counts.accepted
    }

    /// Takes a beacon, and answers the fate that it told.
    pub fn beacon(&mut self, octets: &[u8]) -> Result<Option<Fate>, Fault>
        ensures answer { result ≡ beacon_answer (device_held self.old) octets.now }
        ensures state { device_held self.new ≡ beacon_state (device_held self.old) octets.now }
        ensures counts { counts_held self.new ≡ with_told result (counts_held self.old) }
    {
        let fate = self.device.beacon(octets)?;
        self.counts.count(fate);
        Ok(fate)
    }

    /// Misses a beacon, and answers the fate that this told.
    pub fn missed(&mut self) -> Option<Fate>
        ensures answer { result ≡ missed_answer (device_held self.old) }
        ensures state { device_held self.new ≡ missed_state (device_held self.old) }
        ensures counts { counts_held self.new ≡ with_fate result (counts_held self.old) }
    {
        let fate = self.device.missed();
        self.counts.count(fate);
        fate
    }

    /// Is handed cargo.
    pub fn offer(&mut self, cargo: C) -> Result<(), Fault>
        ensures answer { result ≡ offer_answer C.image (device_held self.old) cargo }
        ensures state { device_held self.new ≡ offer_state C.image (device_held self.old) cargo }
        ensures accepted { OnOk result (counts_held self.new ≡ with_accepted (counts_held self.old)) }
        ensures refused { OnErr result (counts_held self.new ≡ counts_held self.old) }
    {
        self.device.offer(cargo)?;
        self.counts.accept();
        Ok(())
    }

    /// Writes what it sends in a base timeslot at the start of the buffer, and answers its length, 0 for nothing.
    pub fn send(&mut self, timeslot: u8, buffer: &mut [u8]) -> Result<usize, Fault>
        ensures answer { result ≡ send_answer C.image (device_held self.old) timeslot buffer.old }
        ensures state { device_held self.new ≡ send_state C.image (device_held self.old) timeslot buffer.old }
        ensures memory { buffer.new ≡ send_memory C.image (device_held self.old) timeslot buffer.old }
        ensures counts { counts_held self.new ≡ counts_held self.old }
    {
        self.device.send(timeslot, buffer)
    }

    /// Writes a management frame at the start of the buffer, and answers its length, 0 for nothing.
    pub fn write_management(&mut self, buffer: &mut [u8]) -> Result<usize, Fault>
        ensures answer { result ≡ write_answer (device_held self.old) buffer.old }
        ensures state { device_held self.new ≡ write_state (device_held self.old) buffer.old }
        ensures memory { buffer.new ≡ write_memory (device_held self.old) buffer.old }
        ensures counts { counts_held self.new ≡ counts_held self.old }
    {
        self.device.write_management(buffer)
    }

    /// Takes a management frame.
    pub fn take(&mut self, octets: &[u8]) -> Result<(), Fault>
        ensures answer { result ≡ take_answer (device_held self.old) octets.now }
        ensures state { device_held self.new ≡ take_state (device_held self.old) octets.now }
        ensures counts { counts_held self.new ≡ counts_held self.old }
    {
        self.device.take(octets)
    }
}

impl<C: Cargo + Drop> fmt::Display for DeviceHost<C> {
    ghost output = { λ x. Some (host_text x) };

    fn fmt<W: fmt::Write>(&self, f: &mut fmt::Formatter<W>) -> fmt::Result {
        let counts = self.counts;
        let sent = u8::from(self.device.has_sent());
        let waiting = u8::from(self.device.is_waiting());
        write!(f, "{counts} sent {sent} waiting {waiting}")
    }
}
