// The console's state, and what it answers.
mod network_commands;

use crate::answers::Answers;
use crate::any_network::AnyNetwork;
use crate::any_plan::AnyPlan;
use crate::cargo_commands::{image, read};
use crate::obstacle::{Obstacle, Stop};
use plan::{EvenGrants, EvenPlan, Grant, ListedPlan, Numbers, SlotPlan};
use repeats::{GroupAcknowledgment, sender};
use script::{CargoKind, Misread, Request};
use std::alloc::Global;
use std::io;

/// What the console remembers from line to line: the plans, and a network. It has to be finished, for its network.
pub struct Console {
    heap: Global,
    // The listed plan that is being written.
    draft: Option<Draft>,
    // The plan that was accepted last.
    accepted: Option<Accepted>,
    // The kind of cargo that the network carries.
    kind: CargoKind,
    network: Option<AnyNetwork>,
}

// The numbers of a listed plan, and its grants so far.
#[derive(Drop)]
struct Draft {
    numbers: Numbers,
    grants: Vec<Grant>,
}

// A plan, and the last bitmap that fitted it.
#[derive(Drop)]
struct Accepted {
    plan: AnyPlan,
    bitmap: Option<Vec<u8>>,
}

// Notes why a line is not understood. Out of the way of the lines that are, which are most.
#[cold]
#[inline(never)]
fn not_understood(misread: Misread<'_>, answers: &mut Answers<'_>) -> Result<(), Stop> {
    answers.note(misread);
    Err(Obstacle::NotUnderstood.into())
}

impl Console {
    /// A console that has run no line: no plan, no network, and readings for cargo.
    pub fn new(heap: Global) -> Console {
        Console {
            heap,
            draft: None,
            accepted: None,
            kind: CargoKind::Reading,
            network: None,
        }
    }

    /// Ends the network, and lets the rest go.
    pub fn finish(self) {
        let Console {
            heap: _,
            draft: _,
            accepted: _,
            kind: _,
            network,
        } = self;
        network_commands::end(network);
    }

    /// Runs one line of the script: carries it out, or answers what keeps it. Fails only for memory, and where an answer cannot be written.
    pub fn run(&mut self, line: &[u8], answers: &mut Answers<'_>) -> io::Result<()> {
        match self.obey(line, answers) {
            Ok(()) => Ok(()),
            Err(Stop::Obstacle(obstacle)) => answers.write(obstacle),
            Err(Stop::Memory(error)) => Err(error.into()),
            Err(Stop::Failure(error)) => Err(error),
        }
    }

    /// Carries out one line of the script, or hands out what keeps it, unanswered; a note says why a line is not understood.
    pub fn obey(&mut self, line: &[u8], answers: &mut Answers<'_>) -> Result<(), Stop> {
        match Request::of(line) {
            Ok(None) => Ok(()),
            Ok(Some(request)) => self.answer(request, answers),
            Err(misread) => not_understood(misread, answers),
        }
    }

    fn answer(&mut self, request: Request<'_>, answers: &mut Answers<'_>) -> Result<(), Stop> {
        match request {
            Request::Listed(numbers) => self.start(numbers),
            Request::Grant(grant) => self.add(grant),
            Request::Plan => self.make_listed(answers),
            Request::Even { numbers, grants } => self.make_even(numbers, grants, answers),
            Request::Timetable => self.tell_timetable(answers),
            Request::Holder(t) => self.tell_holder(t, answers),
            Request::Repeats(octets) => self.tell_repeats(octets.as_slice(), answers),
            Request::Sender(t) => self.tell_sender(t, answers),
            Request::Image(offer) => image(offer, answers),
            Request::Read {
                kind,
                source,
                octets,
            } => read(kind, source, octets.as_slice(), answers),
            Request::Cargo(kind) => self.carry(kind, answers),
            Request::Coordinator => self.make_network(answers),
            Request::Hall(run) => self.run_hall(run, answers),
            Request::Network(order) => self.order(order, answers),
        }
    }

    // The plan that was accepted last.
    fn accepted(&self) -> Result<&Accepted, Obstacle> {
        self.accepted.as_ref().ok_or(Obstacle::NoPlan)
    }

    // Starts a listed plan.
    fn start(&mut self, numbers: Numbers) -> Result<(), Stop> {
        let grants = Vec::new(self.heap);
        self.draft = Some(Draft { numbers, grants });
        Ok(())
    }

    // Adds a grant to the plan that was started.
    fn add(&mut self, grant: Grant) -> Result<(), Stop> {
        let draft = self.draft.as_mut().ok_or(Obstacle::NoPlan)?;
        draft.grants.push(grant)?;
        Ok(())
    }

    // Makes the listed plan that was started; its numbers and grants stay, for more to be added.
    fn make_listed(&mut self, answers: &mut Answers<'_>) -> Result<(), Stop> {
        let draft = self.draft.as_ref().ok_or(Obstacle::NoPlan)?;
        let plan = ListedPlan::new(draft.numbers, draft.grants.clone()?)?;
        self.accept(AnyPlan::Listed(plan), answers)
    }

    // Makes an even plan.
    fn make_even(
        &mut self,
        numbers: Numbers,
        grants: EvenGrants,
        answers: &mut Answers<'_>,
    ) -> Result<(), Stop> {
        let plan = EvenPlan::new(numbers, grants)?;
        self.accept(AnyPlan::Even(plan), answers)
    }

    // Tells the timetable of the plan.
    fn tell_timetable(&self, answers: &mut Answers<'_>) -> Result<(), Stop> {
        self.accepted()?.plan.tell_timetable(answers)
    }

    // Tells who holds a timeslot.
    fn tell_holder(&self, t: u8, answers: &mut Answers<'_>) -> Result<(), Stop> {
        let holder = self.accepted()?.plan.holder(t);
        answers.grant_or(holder, "none")
    }

    // Takes a plan for the one that is asked from now on.
    fn accept(&mut self, plan: AnyPlan, answers: &mut Answers<'_>) -> Result<(), Stop> {
        let count = plan.count();
        self.accepted = Some(Accepted { plan, bitmap: None });
        answers.line(format_args!("accepted with {count} grants"))
    }

    // Tells who repeats where by a bitmap, and keeps it if it fits.
    fn tell_repeats(&mut self, octets: &[u8], answers: &mut Answers<'_>) -> Result<(), Stop> {
        let accepted = self.accepted.as_mut().ok_or(Obstacle::NoPlan)?;
        let numbers = accepted.plan.numbers();
        let bitmap = GroupAcknowledgment { numbers, octets };
        if !bitmap.fits() {
            return Err(Obstacle::Misfit.into());
        }
        accepted.bitmap = Some(octets.to_vec(self.heap)?);
        accepted.plan.tell_repeats(bitmap, answers)
    }

    // Tells whose frame starts at a timeslot by the bitmap that was kept.
    fn tell_sender(&self, t: u8, answers: &mut Answers<'_>) -> Result<(), Stop> {
        let accepted = self.accepted()?;
        let bitmap = accepted.bitmap.as_ref().ok_or(Obstacle::NoBitmap)?;
        answers.grant_or(sender(&accepted.plan, bitmap.as_slice(), t), "nobody")
    }
}
