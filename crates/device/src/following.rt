// The steps of a device that takes a beacon.
ghost use Rattle.std.specs.Prelude.{◌≡◌};
ghost use Rattle.device.specs.Beacons.{heard};
ghost use Rattle.device.specs.Steps.{told_by, informed};

use crate::beacon::Beacon;
use crate::device::Device;
use crate::fate::Fate;
use crate::phase::Phase;
use crate::repeat::to_repeat;
use cargo::Cargo;
use frame::BeaconState;

impl<C: Cargo + Drop> Device<C> {
    // What a beacon tells of the cargo that was sent.
    pub(crate) fn told_by(&self, beacon: Beacon<'_>) -> Option<Fate>
        ensures { result ≡ told_by self.now.address self.now.configuration self.now.sent (heard beacon.entry) }
    {
        self.sent.as_ref()?;
        Some(match self.member() {
            Some(member) => member.fate_by(beacon),
            None => Fate::Unknown,
        })
    }

    // Goes on as a beacon says.
    pub(crate) fn follow(&mut self, beacon: Beacon<'_>)
        ensures { self.new ≡ informed self.old (heard beacon.entry) }
    {
        let configured = self.configuration.is_some();
        self.repeat = match (self.member(), self.sent.take()) {
            (Some(member), Some(cargo)) => to_repeat(member.repeat_by(beacon), cargo),
            _ => None,
        };
        self.news = beacon.news();
        self.phase = match (beacon.state, self.phase) {
            (BeaconState::Reset, _) => Phase::Idle,
            (BeaconState::Configuration { .. }, Phase::Thanking) => Phase::Thanking,
            (BeaconState::Configuration { .. }, Phase::Set) => Phase::Set,
            (BeaconState::Configuration { .. }, _) => Phase::Asking,
            (BeaconState::Online { .. } | BeaconState::Discovery { .. }, _) if configured => {
                Phase::Running
            }
            (BeaconState::Online { .. }, _) => Phase::Idle,
            (BeaconState::Discovery { .. }, Phase::Idle | Phase::Asking) => Phase::Answering,
            (BeaconState::Discovery { .. }, other) => other,
        };
        if let BeaconState::Reset = beacon.state {
            self.configuration = None;
        }
    }
}
