// What a management frame leads to, and the reply to it.
ghost use Rattle.std.specs.Prelude.{◌≡◌};
ghost use Rattle.frame.specs.Views.{told};
ghost use Rattle.plan.specs.Answers.{number_with};
ghost use Rattle.coordinator.specs.Frames.{state_of, configuration_for};
ghost use Rattle.coordinator.specs.Replying.{known, Replied};
ghost use Rattle.coordinator.specs.Steps.{is_configuring, discovered, requested, managed_by};

use crate::coordinator::Coordinator;
use crate::mode::Mode;
use crate::record::note;
use frame::{Acknowledged, Command, Configuration, Fault, Frame, Refusal};
use plan::{Grant, Numbers, SlotPlan};

// What a device is told of its grant.
fn configuration(numbers: Numbers, grant: Grant) -> Configuration
    ensures { result ≡ configuration_for numbers grant }
{
    Configuration {
        simple: grant.simple,
        channel: numbers.channel,
        size: numbers.size,
        first: grant.first,
        width: grant.width,
        retransmission: numbers.retransmission,
        uplink: numbers.uplink,
        timeslots: numbers.timeslots,
        coordinator: numbers.coordinator,
    }
}

impl<P: SlotPlan> Coordinator<P> {
    // The number of the grant of the device that has a full address.
    fn known(&self, address: u64) -> Result<usize, Fault>
        ensures { result ≡ known (number_with (P.meaning self.now.plan) address) }
    {
        plan::grant_with_address(&self.plan, address).ok_or(Refusal::Stranger.at(0))
    }

    // Hears a Discover Response, and acknowledges it.
    fn discover(&mut self, address: u64, buffer: &mut [u8]) -> Result<usize, Fault>
        ensures replied { Replied self.old.inner
            (discovered self.old.inner (number_with (P.meaning self.old.plan) address))
            buffer.old result self.new.inner buffer.new }
        ensures plan { self.new.plan ≡ self.old.plan }
    {
        let i = self.known(address)?;
        let length = frame::write_acknowledgment(Acknowledged::DiscoverResponse, buffer)?;
        note(&mut self.inner.records, i, |record| record.seen = true);
        Ok(length)
    }

    // Hears a Configuration Status, and hands out the grant.
    fn request(&mut self, address: u64, buffer: &mut [u8]) -> Result<usize, Fault>
        ensures replied { Replied self.old.inner
            (requested (P.meaning self.old.plan) self.old.inner address
            (number_with (P.meaning self.old.plan) address))
            buffer.old result self.new.inner buffer.new }
        ensures plan { self.new.plan ≡ self.old.plan }
    {
        let i = self.known(address)?;
        let grant = self.plan.grant(i).ok_or(Refusal::Stranger.at(0))?;
        let request = Command::ConfigurationRequest {
            address,
            configuration: configuration(self.plan.numbers(), grant),
        };
        let length = frame::write_command(request, buffer)?;
        note(&mut self.inner.records, i, |record| record.requested = true);
        self.inner.handed = Some(i);
        Ok(length)
    }

    // Hears a frame that was read, if its kind is wanted in the mode.
    pub(crate) fn hear_frame(&mut self, frame: Frame<'_>, buffer: &mut [u8]) -> Result<usize, Fault>
        ensures replied { Replied self.old.inner
            (managed_by (P.meaning self.old.plan) self.old.inner
            (is_configuring (state_of self.old.inner.mode)) (told frame.entry).message)
            buffer.old result self.new.inner buffer.new }
        ensures plan { self.new.plan ≡ self.old.plan }
    {
        let configuring = self.inner.mode == Mode::Configuration;
        match frame {
            Frame::Command {
                command: Command::DiscoverResponse { address, .. },
                ..
            } if !configuring => self.discover(address, buffer),
            Frame::Command {
                command: Command::ConfigurationStatus { address, .. },
                ..
            } if configuring => self.request(address, buffer),
            Frame::Acknowledgment {
                acknowledged: Acknowledged::ConfigurationRequest,
                ..
            } if configuring => self.inner.acknowledge(),
            _ => Err(Refusal::Unwanted.at(0)),
        }
    }
}
