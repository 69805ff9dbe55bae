// How much memory a coordinator takes, and a known case with two coordinators.
use cargo::Reading;
use coordinator::{Coordinator, Heard, Mode, OpenSuperframe, Opened};
use frame::{Fault, Layer, Refusal};
use plan::{EvenGrants, EvenPlan, ListedPlan, Numbers};
use std::mem::size_of;
use std::process::Abort;
use std::test::Fail;

#[test]
fn a_coordinator_takes_480_octets_beside_its_plan(rt: HostRuntime) {
    assert_eq!(rt; size_of::<EvenPlan>(), 40);
    assert_eq!(rt; size_of::<ListedPlan>(), 32);
    assert_eq!(rt; size_of::<Coordinator<EvenPlan>>(), 480 + 40);
    assert_eq!(rt; size_of::<Coordinator<ListedPlan>>(), 480 + 32);
    assert_eq!(rt; size_of::<OpenSuperframe>(), 4);
}

// A coordinator in Online, over three devices whose frames start at timeslots 1 to 3.
fn online() -> Result<Coordinator<EvenPlan>, Fault> {
    let numbers = Numbers {
        timeslots: 3,
        uplink: 3,
        retransmission: 0,
        size: 5,
        management: 1,
        coordinator: 0,
        channel: 11,
        sequence: 1,
    };
    let grants = EvenGrants {
        count: 3,
        width: 1,
        address: 100,
        simple: 1,
    };
    let mut coordinator = Coordinator::new(EvenPlan::new(numbers, grants)?);
    coordinator.set_mode(Mode::Online)?;
    Ok(coordinator)
}

// Opens the next superframe.
fn open(rt: &impl Abort, coordinator: &mut Coordinator<EvenPlan>) -> OpenSuperframe {
    let Opened {
        length: _,
        superframe,
    } = coordinator.open(&mut [0; 38]).expect(rt, "not opened");
    superframe
}

// Closes the open superframe.
fn close(rt: &impl Abort, coordinator: &mut Coordinator<EvenPlan>, superframe: OpenSuperframe) {
    match coordinator.close(superframe) {
        Ok(()) => {}
        Err(_) => panic!(rt; "not closed"),
    }
}

// Hears the reading -1 in timeslot 1: the simple address of its sender.
fn hear(coordinator: &mut Coordinator<EvenPlan>, superframe: &OpenSuperframe) -> Result<u8, Fault> {
    let octets = [0x44, 0xff, 0xff, 0xff, 0xff, 0x00];
    let Heard { simple, cargo: _ } = coordinator.hear::<Reading>(superframe, 1, &octets)?;
    Ok(simple)
}

// No `?` while a superframe is open: the answers are looked at when both are closed.
#[test]
fn a_superframe_of_another_number_is_refused_by_each_call(rt: HostRuntime) -> Result<(), Fail> {
    let mut here = online()?;
    let mut there = online()?;
    let earlier = open(&rt, &mut there);
    close(&rt, &mut there, earlier);
    let own = open(&rt, &mut here);
    let other = open(&rt, &mut there);
    let heard = hear(&mut here, &other);
    let managed = here.hear_management(&other, &[], &mut []);
    let (closing, other) = here.close(other).expect_err(&rt, "closed");
    let numbers = [own.number(), other.number()];
    let accepted = hear(&mut here, &own);
    close(&rt, &mut here, own);
    close(&rt, &mut there, other);
    let refused = Fault {
        refusal: Refusal::Superframe,
        place: 0,
        layer: Layer::End,
    };
    assert_eq!(rt; heard, Err(refused));
    assert_eq!(rt; managed, Err(refused));
    assert_eq!(rt; closing, refused);
    assert_eq!(rt; numbers, [0, 1]);
    assert_eq!(rt; accepted, Ok(1));
    Ok(())
}
