// A device: what it holds, and its calls. The private steps of a call stand in the file that is named for it.
ghost use Rattle.std.specs.Prelude.{◌≡◌};
ghost use Rattle.device.specs.Beacons.{beacon_taken};
ghost use Rattle.device.specs.Configurations.{member_in};
ghost use Rattle.device.specs.Devices.{address_in, phase_in, configuration_in, is_waiting, has_sent};
ghost use Rattle.device.specs.Fates.{Grounded, Groundless};
ghost use Rattle.device.specs.Steps.{made, beacon_answer, beacon_state, missed_answer, missed_state, offer_answer, offer_state};
ghost use Rattle.device.specs.Steps.{send_answer, send_state, send_memory, take_answer, take_state};
ghost use Rattle.device.specs.Steps.{write_answer, write_state, write_memory};

use crate::beacon::beacon_in;
use crate::fate::Fate;
use crate::member::Member;
use crate::news::News;
use crate::phase::Phase;
use crate::repeat::Repeat;
use crate::sending::is_no_timeslot;
use cargo::Cargo;
use frame::{Configuration, Fault, Refusal, Wish};

/// A device of a network, for any kind of cargo: one cargo may wait, one may have been sent in its own timeslot, and one
/// may be about to be repeated. It allocates nothing. Where several refusals of a call apply, the one that stands first in
/// its page is answered. A refused call leaves the device and the lent buffer as they were.
#[derive(Drop)]
pub struct Device<C> {
    pub(crate) address: u64,
    pub(crate) wish: Wish,
    pub(crate) phase: Phase,
    pub(crate) configuration: Option<Configuration>,
    pub(crate) news: News,
    // Cargo that was accepted and not yet sent.
    pub(crate) waiting: Option<C>,
    // Cargo sent in the device's own timeslot since its last beacon or told absence.
    pub(crate) sent: Option<C>,
    // Cargo whose repeat is due in this superframe.
    pub(crate) repeat: Option<Repeat<C>>,
}

impl<C: Cargo + Drop> Device<C> {
    /// A device with a full address, any of 64 bits, and what it asks for. It is in phase Idle and knows of no network.
    pub fn new(address: u64, wish: Wish) -> Self
        ensures { result ≡ made address wish }
    {
        Device {
            address,
            wish,
            phase: Phase::Idle,
            configuration: None,
            news: News::Missed,
            waiting: None,
            sent: None,
            repeat: None,
        }
    }

    /// The full address.
    pub fn address(&self) -> u64
        ensures { result ≡ address_in self.now }
    {
        self.address
    }

    /// How far the device has come on its way into the network.
    pub fn phase(&self) -> Phase
        ensures { result ≡ phase_in self.now }
    {
        self.phase
    }

    /// The configuration, if the device has one.
    pub fn configuration(&self) -> Option<Configuration>
        ensures { result ≡ configuration_in self.now }
    {
        self.configuration
    }

    /// Whether cargo waits for the device's timeslot.
    pub fn is_waiting(&self) -> bool
        ensures { result ≡ is_waiting self.now }
    {
        self.waiting.is_some()
    }

    /// Whether cargo was sent whose fate is not told yet.
    pub fn has_sent(&self) -> bool
        ensures { result ≡ has_sent self.now }
    {
        self.sent.is_some()
    }

    /// Takes a beacon, and tells the fate of the cargo that was sent since the last one, if any was. To be called once for
    /// each superframe's beacon. A refused beacon is no news: its host then calls `missed`.
    ///
    /// Refused with what `frame::read` answers to the octets; with Unwanted for a sound frame that is no beacon; once
    /// configured, with Stranger for a beacon of another coordinator, and with Misfit for an Online one whose n, N, bitmap
    /// length or padding contradict the configuration.
    pub fn beacon(&mut self, octets: &[u8]) -> Result<Option<Fate>, Fault>
        ensures answer { result ≡ beacon_answer self.old octets.now }
        ensures state { self.new ≡ beacon_state self.old octets.now }
        ensures grounds { Grounded self.old (beacon_taken (configuration_in self.old) octets.now) result }
    {
        let beacon = beacon_in(self.configuration, octets)?;
        let fate = self.told_by(beacon);
        self.follow(beacon);
        Ok(fate)
    }

    /// Tells the device that the beacon of this superframe was missed. Unknown is the fate of what was sent, if anything was,
    /// and a repeat that was due is dropped.
    pub fn missed(&mut self) -> Option<Fate>
        ensures answer { result ≡ missed_answer self.old }
        ensures state { self.new ≡ missed_state self.old }
        ensures grounds { Groundless self.old result }
    {
        self.news = News::Missed;
        self.repeat = None;
        self.sent.take().map(|_| Fate::Unknown)
    }

    /// Hands over cargo, which waits for the device's timeslot.
    ///
    /// Refused with Mode without a configuration; with Waiting where other cargo waits; and with Size where the image has
    /// more octets than the grant carries. The cargo is then let go.
    pub fn offer(&mut self, cargo: C) -> Result<(), Fault>
        ensures answer { result ≡ offer_answer C.image self.old cargo }
        ensures state { self.new ≡ offer_state C.image self.old cargo }
    {
        let member = self.member().ok_or(Refusal::Mode.at(0))?;
        if self.waiting.is_some() {
            return Err(Refusal::Waiting.at(0));
        }
        if cargo.length() > member.room() {
            return Err(Refusal::Size.at(0));
        }
        self.waiting = Some(cargo);
        Ok(())
    }

    /// Writes what the device sends in a base timeslot, 1 to N, into the buffer and answers its length in octets, 0 where it
    /// sends nothing. Only after this superframe's beacon, an Online one, does it send: in its own timeslot, the first of its
    /// grant, the cargo that waits, and elsewhere a repeat.
    ///
    /// Refused with Timeslot, at that timeslot, for 0 and above N of the configuration if there is one; and with Space where
    /// the buffer is shorter than the frame.
    pub fn send(&mut self, timeslot: u8, buffer: &mut [u8]) -> Result<usize, Fault>
        ensures answer { result ≡ send_answer C.image self.old timeslot buffer.old }
        ensures state { self.new ≡ send_state C.image self.old timeslot buffer.old }
        ensures memory { buffer.new ≡ send_memory C.image self.old timeslot buffer.old }
    {
        if is_no_timeslot(self.configuration, timeslot) {
            return Err(Refusal::Timeslot.at(usize::from(timeslot)));
        }
        let Some(member) = self.member() else {
            return Ok(0);
        };
        if self.news != News::Online {
            return Ok(0);
        }
        if timeslot == member.configuration.first {
            self.send_waiting(member, buffer)
        } else {
            self.send_repeat(timeslot, buffer)
        }
    }

    /// Writes the device's frame for the uplink management timeslot into the buffer and answers its length in octets, 0 where
    /// the device has nothing to say, as after a missed beacon. A configuration is acknowledged once.
    ///
    /// Refused with Space where the buffer is shorter than the frame.
    pub fn write_management(&mut self, buffer: &mut [u8]) -> Result<usize, Fault>
        ensures answer { result ≡ write_answer self.old buffer.old }
        ensures state { self.new ≡ write_state self.old buffer.old }
        ensures memory { buffer.new ≡ write_memory self.old buffer.old }
    {
        if self.news == News::Missed {
            return Ok(0);
        }
        let written = self.write_in_phase(buffer)?;
        if self.phase == Phase::Thanking {
            self.phase = Phase::Set;
        }
        Ok(written)
    }

    /// Takes a management frame of the coordinator: in Answering the acknowledgment of the device's answer to a discovery, in
    /// Asking its configuration.
    ///
    /// Refused with Mode in any other phase, whatever the octets; with what `frame::read` answers to them; with Unwanted for
    /// any other sound frame; with Stranger for a configuration of another device, or of another coordinator than the one
    /// before; and with Misfit for one that breaks a rule of slot plans.
    pub fn take(&mut self, octets: &[u8]) -> Result<(), Fault>
        ensures answer { result ≡ take_answer self.old octets.now }
        ensures state { self.new ≡ take_state self.old octets.now }
    {
        match self.taking(octets)? {
            None => self.phase = Phase::Known,
            Some(configuration) => {
                self.configuration = Some(configuration);
                self.phase = Phase::Thanking;
            }
        }
        Ok(())
    }

    // The device as one that is configured, if it is.
    pub(crate) fn member(&self) -> Option<Member>
        ensures { result ≡ member_in self.now.address self.now.configuration }
    {
        self.configuration.map(|configuration| Member {
            address: self.address,
            configuration,
        })
    }
}
