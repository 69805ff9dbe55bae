// The beacon that a device takes of octets.
ghost use Rattle.std.specs.Prelude.{◌≡◌};
ghost use Rattle.frame.specs.Views.{told};
ghost use Rattle.device.specs.Beacons.{as_beacon, agrees, admitted, beacon_taken, heard, heard_in};
ghost use Rattle.device.specs.Steps.{news_of};

use crate::member::acknowledgment_in;
use crate::news::News;
use frame::{BeaconHeader, BeaconState, Configuration, Fault, Frame, Refusal};

// A beacon, which borrows from the received octets.
#[derive(Clone, Copy)]
pub(crate) struct Beacon<'a> {
    pub(crate) header: BeaconHeader,
    pub(crate) state: BeaconState<'a>,
}

// The beacon that a device with or without a configuration takes of octets.
pub(crate) fn beacon_in(
    configuration: Option<Configuration>,
    octets: &[u8],
) -> Result<Beacon<'_>, Fault>
    ensures { heard_in result ≡ beacon_taken configuration octets.now }
{
    let frame = frame::read(octets)?;
    admitted(configuration, as_beacon(frame)?)
}

// A frame as a beacon; any other is unwanted.
fn as_beacon(frame: Frame<'_>) -> Result<Beacon<'_>, Fault>
    ensures { heard_in result ≡ as_beacon (told frame.entry).message }
{
    match frame {
        Frame::Beacon { header, state, .. } => Ok(Beacon { header, state }),
        _ => Err(Refusal::Unwanted.at(0)),
    }
}

// The beacon, unless it is of another coordinator or contradicts the configuration.
fn admitted(configuration: Option<Configuration>, beacon: Beacon<'_>) -> Result<Beacon<'_>, Fault>
    ensures { heard_in result ≡ admitted configuration (heard beacon.entry) }
{
    let Some(configuration) = configuration else {
        return Ok(beacon);
    };
    if beacon.header.coordinator != configuration.coordinator {
        return Err(Refusal::Stranger.at(0));
    }
    if !beacon.agrees(configuration) {
        return Err(Refusal::Misfit.at(0));
    }
    Ok(beacon)
}

impl Beacon<'_> {
    // Whether the beacon agrees with a configuration: only an Online one can differ.
    fn agrees(self, configuration: Configuration) -> bool
        ensures { result ≡ agrees configuration (heard self.entry) }
    {
        match self.state {
            BeaconState::Online { timeslots, bitmap } => {
                self.header.size == configuration.size
                    && timeslots == configuration.timeslots
                    && acknowledgment_in(configuration, bitmap.octets).fits()
            }
            _ => true,
        }
    }

    // What the beacon tells of its superframe.
    pub(crate) fn news(self) -> News
        ensures { result ≡ news_of (heard self.entry) }
    {
        match self.state {
            BeaconState::Online { .. } => News::Online,
            _ => News::Other,
        }
    }
}
