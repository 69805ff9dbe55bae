// What the console answers on networks.
use super::Console;
use crate::answers::Answers;
use crate::any_network::AnyNetwork;
use crate::hall_command::tell_hall;
use crate::obstacle::{Obstacle, Stop};
use script::{CargoKind, HallRun, NetworkOrder};

impl Console {
    // Sets the kind of cargo; the network that was made before is gone.
    pub(crate) fn carry(&mut self, kind: CargoKind, answers: &mut Answers<'_>) -> Result<(), Stop> {
        self.kind = kind;
        end(self.network.take());
        answers.line(format_args!("cargo {kind}"))
    }

    // Makes a network over the plan; the one that was made before is gone.
    pub(crate) fn make_network(&mut self, answers: &mut Answers<'_>) -> Result<(), Stop> {
        let plan = self.accepted()?.plan.again(self.heap)?;
        let network = AnyNetwork::new(self.heap, self.kind, plan);
        let mode = network.mode();
        end(self.network.replace(network));
        answers.line(format_args!("coordinator {mode:?}"))
    }

    // Runs a whole network of its own over the plan.
    pub(crate) fn run_hall(&self, run: HallRun, answers: &mut Answers<'_>) -> Result<(), Stop> {
        let plan = self.accepted()?.plan.again(self.heap)?;
        tell_hall(self.heap, plan, run, answers)
    }

    // Gives an order to the network.
    pub(crate) fn order(
        &mut self,
        order: NetworkOrder<'_>,
        answers: &mut Answers<'_>,
    ) -> Result<(), Stop> {
        if !order.suits(self.kind) {
            let kind = self.kind;
            answers.note(format_args!("the offer is no {kind}, which the network carries"));
            return Err(Obstacle::NotUnderstood.into());
        }
        self.accepted()?;
        let network = self.network.as_mut().ok_or(Obstacle::NoCoordinator)?;
        network.run(order, answers)
    }
}

// Ends a network, if there is one.
pub(crate) fn end(network: Option<AnyNetwork>) {
    if let Some(network) = network {
        network.finish();
    }
}
