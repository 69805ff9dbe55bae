// A configured device, and its configuration in the words of slot plans and group acknowledgments.
ghost use Rattle.std.specs.Prelude.{◌≡◌};
ghost use Rattle.device.specs.Beacons.{heard, bits_seen, bits_by};
ghost use Rattle.device.specs.Configurations.{numbers_in, grant_in, keeps_rules};
ghost use Rattle.device.specs.Fates.{fate_by, repeat_by};
ghost use Rattle.device.specs.Steps.{room_in};

use crate::beacon::Beacon;
use crate::fate::Fate;
use frame::{BeaconState, Configuration};
use plan::{Grant, Numbers};
use repeats::GroupAcknowledgment;

// A configured device: its full address, and its configuration.
#[derive(Clone, Copy)]
pub(crate) struct Member {
    pub(crate) address: u64,
    pub(crate) configuration: Configuration,
}

impl Member {
    // The grant.
    fn grant(self) -> Grant
        ensures { result ≡ grant_in self.address self.configuration }
    {
        Grant {
            address: self.address,
            simple: self.configuration.simple,
            first: self.configuration.first,
            width: self.configuration.width,
        }
    }

    // How many octets of cargo the grant carries.
    pub(crate) fn room(self) -> usize
        ensures { result ≡ room_in self.configuration }
    {
        self.grant().carries(self.configuration.size)
    }

    // Whether the configuration keeps the rules of slot plans.
    pub(crate) fn keeps_rules(self) -> bool
        ensures { result ≡ keeps_rules self.address self.configuration }
    {
        let numbers = numbers_in(self.configuration);
        numbers.keep() && self.grant().keeps(numbers)
    }

    // The group acknowledgment of a beacon, which only an Online one has.
    fn acknowledgment(self, beacon: Beacon<'_>) -> Option<GroupAcknowledgment<'_>>
        ensures { bits_seen result ≡ bits_by self.configuration (heard beacon.entry) }
    {
        match beacon.state {
            BeaconState::Online { bitmap, .. } => {
                Some(acknowledgment_in(self.configuration, bitmap.octets))
            }
            _ => None,
        }
    }

    // The first timeslot of the repeat that a beacon gives, or none.
    pub(crate) fn repeat_by(self, beacon: Beacon<'_>) -> Option<u8>
        ensures { result ≡ repeat_by self.address self.configuration (heard beacon.entry) }
    {
        self.acknowledgment(beacon)?.repeat_start(self.grant())
    }

    // The fate of cargo that was sent in the superframe before.
    pub(crate) fn fate_by(self, beacon: Beacon<'_>) -> Fate
        ensures { result ≡ fate_by self.address self.configuration (heard beacon.entry) }
    {
        let Some(acknowledgment) = self.acknowledgment(beacon) else {
            return Fate::Unknown;
        };
        if acknowledgment.is_set(self.configuration.first) {
            Fate::Confirmed
        } else {
            Fate::by_room(acknowledgment.repeat_start(self.grant()))
        }
    }
}

// The numbers that a configuration tells; the two that it does not tell are in range.
fn numbers_in(configuration: Configuration) -> Numbers
    ensures { result ≡ numbers_in configuration }
{
    Numbers {
        timeslots: configuration.timeslots,
        uplink: configuration.uplink,
        retransmission: configuration.retransmission,
        size: configuration.size,
        management: 1,
        coordinator: configuration.coordinator,
        channel: configuration.channel,
        sequence: 0,
    }
}

// A beacon's bitmap, by the numbers that a configuration tells.
pub(crate) fn acknowledgment_in(
    configuration: Configuration,
    octets: &[u8],
) -> GroupAcknowledgment<'_>
    ensures numbers { result.numbers ≡ numbers_in configuration }
    ensures octets { result.octets.now ≡ octets.now }
{
    GroupAcknowledgment {
        numbers: numbers_in(configuration),
        octets,
    }
}
