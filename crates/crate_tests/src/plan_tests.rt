// Slot plans by list and by even grants.
use frame::Refusal;
use plan::{
    EvenGrants, EvenPlan, Grant, Grants, ListedPlan, Numbers, SlotPlan, answer_alike,
    grant_with_address,
};
use std::test::Fail;

// N = U = 8 and R = 2: timeslots 3 to 8 are for the grants.
const NUMBERS: Numbers = Numbers {
    timeslots: 8,
    uplink: 8,
    retransmission: 2,
    size: 5,
    management: 1,
    coordinator: 0,
    channel: 11,
    sequence: 7,
};

const fn grant(address: u64, simple: u8, first: u8) -> Grant {
    Grant {
        address,
        simple,
        first,
        width: 1,
    }
}

// Six grants of one timeslot each.
fn six() -> [Grant; 6] {
    [
        grant(16, 1, 3),
        grant(17, 2, 4),
        grant(18, 3, 5),
        grant(19, 4, 6),
        grant(20, 5, 7),
        grant(21, 6, 8),
    ]
}

// As many grants of one timeslot each, by the addresses that count up from 16 and 1.
const fn from_sixteen(count: usize) -> EvenGrants {
    EvenGrants {
        count,
        width: 1,
        address: 16,
        simple: 1,
    }
}

// The place at which a list is refused.
fn refused_at(rt: HostRuntime, numbers: Numbers, grants: [Grant; 6]) -> Result<usize, Fail> {
    ListedPlan::new(numbers, grants.to_vec(rt.alloc())?)
        .err()
        .map(|fault| fault.place)
        .ok_or_else(|| Fail::new("not refused"))
}

#[test]
fn a_listed_plan_answers(rt: HostRuntime) -> Result<(), Fail> {
    let plan = ListedPlan::new(NUMBERS, six().to_vec(rt.alloc())?)?;
    assert_eq!(rt; plan.count(), 6);
    assert_eq!(rt; plan.grant(0), None);
    assert_eq!(rt; plan.grant(6), Some(grant(21, 6, 8)));
    assert_eq!(rt; plan.grant(7), None);
    for (t, holder) in [(2, None), (3, Some(1)), (8, Some(6)), (9, None)] {
        assert_eq!(rt; plan.holder(t), holder);
    }
    assert_eq!(rt; grant_with_address(&plan, 18), Some(3));
    assert_eq!(rt; Grants::of(&plan).nth(2), Some((3, grant(18, 3, 5))));
    assert_eq!(rt; Grants::of(&plan).nth(6), None);
    Ok(())
}

#[test]
fn broken_rules_are_refused(rt: HostRuntime) -> Result<(), Fail> {
    let odd = Numbers {
        retransmission: 5,
        ..NUMBERS
    };
    assert_eq!(rt; refused_at(rt, odd, six())?, 0);
    // Among the retransmission timeslots, a simple address that is taken, and past the last timeslot.
    for (place, bad) in [
        (1, grant(16, 1, 2)),
        (4, grant(19, 2, 6)),
        (6, grant(21, 6, 9)),
    ] {
        let mut grants = six();
        grants[place - 1] = bad;
        assert_eq!(rt; refused_at(rt, NUMBERS, grants)?, place);
    }
    Ok(())
}

#[test]
fn an_even_plan_is_like_the_list(rt: HostRuntime) -> Result<(), Fail> {
    let listed = ListedPlan::new(NUMBERS, six().to_vec(rt.alloc())?)?;
    let even = EvenPlan::new(NUMBERS, from_sixteen(6))?;
    for k in 0..10 {
        assert!(rt; answer_alike(&listed, &even, usize::from(k), k));
    }
    assert_eq!(rt;
        EvenPlan::new(NUMBERS, from_sixteen(7)).err(),
        Some(Refusal::Plan.at(7))
    );
    assert_eq!(rt;
        EvenPlan::new(NUMBERS, from_sixteen(129)).err(),
        Some(Refusal::Plan.at(0))
    );
    Ok(())
}
