// The steps of a device that makes itself known and is configured: the management frames that it writes and takes.
ghost use Rattle.std.specs.Prelude.{◌≡◌};
ghost use Rattle.frame.specs.Writing.{fitting, left_by};
ghost use Rattle.device.specs.Steps.{status, management_in, estranged, configuring, taking, configured_seen, taken_seen};

use crate::device::Device;
use crate::member::Member;
use crate::phase::Phase;
use cargo::Cargo;
use frame::{
    Acknowledged, Command, Configuration, Fault, Frame, Refusal, write_acknowledgment,
    write_command,
};

// Whether a configuration comes from another coordinator than the one before.
fn is_estranged(before: Option<Configuration>, configuration: Configuration) -> bool
    ensures { result ≡ estranged before configuration }
{
    before.is_some_and(|before| configuration.coordinator != before.coordinator)
}

impl<C: Cargo + Drop> Device<C> {
    // The Configuration Status. Without a configuration the simple address is 255, and the grant is empty.
    fn status(&self) -> Command
        ensures { result ≡ status self.now.address self.now.wish self.now.configuration }
    {
        let (simple, first, width) = self
            .configuration
            .map_or((255, 0, 0), |told| (told.simple, told.first, told.width));
        Command::ConfigurationStatus {
            address: self.address,
            simple,
            wish: self.wish,
            first,
            width,
        }
    }

    // Writes the frame that belongs to the device's phase.
    pub(crate) fn write_in_phase(&self, buffer: &mut [u8]) -> Result<usize, Fault>
        ensures answer { result ≡ fitting (management_in self.now self.now.phase) buffer.old }
        ensures memory { buffer.new ≡ left_by result (management_in self.now self.now.phase) buffer.old }
    {
        match self.phase {
            Phase::Answering => {
                let response = Command::DiscoverResponse {
                    address: self.address,
                    wish: self.wish,
                };
                write_command(response, buffer)
            }
            Phase::Asking => write_command(self.status(), buffer),
            Phase::Thanking => write_acknowledgment(Acknowledged::ConfigurationRequest, buffer),
            _ => Ok(0),
        }
    }

    // The configuration that a request to a full address brings.
    fn configured(&self, address: u64, configuration: Configuration) -> Result<Configuration, Fault>
        ensures { configured_seen result ≡ configuring self.now address configuration }
    {
        if address != self.address || is_estranged(self.configuration, configuration) {
            return Err(Refusal::Stranger.at(0));
        }
        let member = Member {
            address,
            configuration,
        };
        if !member.keeps_rules() {
            return Err(Refusal::Misfit.at(0));
        }
        Ok(configuration)
    }

    // What octets bring, by the device's phase: its configuration, or none with the acknowledgment of its answer to a discovery.
    pub(crate) fn taking(&self, octets: &[u8]) -> Result<Option<Configuration>, Fault>
        ensures { taken_seen result ≡ taking self.now octets.now }
    {
        if !matches!(self.phase, Phase::Asking | Phase::Answering) {
            return Err(Refusal::Mode.at(0));
        }
        match (self.phase, frame::read(octets)?) {
            (
                Phase::Asking,
                Frame::Command {
                    command: Command::ConfigurationRequest {
                        address,
                        configuration,
                    },
                    ..
                },
            ) => self.configured(address, configuration).map(Some),
            (
                Phase::Answering,
                Frame::Acknowledgment {
                    acknowledged: Acknowledged::DiscoverResponse,
                    ..
                },
            ) => Ok(None),
            _ => Err(Refusal::Unwanted.at(0)),
        }
    }
}
