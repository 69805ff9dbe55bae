// A network that carries either kind of cargo.
use crate::answers::Answers;
use crate::any_plan::AnyPlan;
use crate::obstacle::Stop;
use crate::script_network::ScriptNetwork;
use cargo::{Panel, Reading};
use coordinator::Mode;
use script::{CargoKind, NetworkOrder};
use std::alloc::Global;

// A network, by the kind of its cargo. It has to be finished, for its coordinator.
// Each call goes by the kind, since no function may hand out a value of a trait's type.
pub(crate) enum AnyNetwork {
    Readings(ScriptNetwork<Reading>),
    Panels(ScriptNetwork<Panel>),
}

impl AnyNetwork {
    pub(crate) fn new(heap: Global, kind: CargoKind, plan: AnyPlan) -> AnyNetwork {
        match kind {
            CargoKind::Reading => AnyNetwork::Readings(ScriptNetwork::new(heap, plan)),
            CargoKind::Panel => AnyNetwork::Panels(ScriptNetwork::new(heap, plan)),
        }
    }

    pub(crate) fn mode(&self) -> Mode {
        match self {
            AnyNetwork::Readings(network) => network.mode(),
            AnyNetwork::Panels(network) => network.mode(),
        }
    }

    pub(crate) fn finish(self) {
        match self {
            AnyNetwork::Readings(network) => network.finish(),
            AnyNetwork::Panels(network) => network.finish(),
        }
    }

    // Carries out an order.
    pub(crate) fn run(
        &mut self,
        order: NetworkOrder<'_>,
        answers: &mut Answers<'_>,
    ) -> Result<(), Stop> {
        match self {
            AnyNetwork::Readings(network) => network.run(order, answers),
            AnyNetwork::Panels(network) => network.run(order, answers),
        }
    }
}
