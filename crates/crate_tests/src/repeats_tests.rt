// Who repeats where, by one bitmap at both ends.
use plan::{EvenGrants, EvenPlan, Grant, Numbers};
use repeats::{GroupAcknowledgment, is_for_retransmission, marked, no_bits, repeater, sender};
use std::test::Fail;

// Eight base timeslots, all uplink, of which the first few are for retransmission.
fn eight(retransmission: u8) -> Numbers {
    Numbers {
        timeslots: 8,
        uplink: 8,
        retransmission,
        size: 10,
        management: 2,
        coordinator: 0,
        channel: 11,
        sequence: 1,
    }
}

fn grant(first: u8, width: u8) -> Grant {
    Grant {
        address: 100 + u64::from(first),
        simple: first,
        first,
        width,
    }
}

#[test]
fn zeros_are_served_until_the_timeslots_run_out(rt: HostRuntime) {
    let acknowledgment = GroupAcknowledgment {
        numbers: eight(2),
        octets: &[0x25],
    };
    assert!(rt; acknowledgment.fits());
    assert!(rt; acknowledgment.is_set(3) && !acknowledgment.is_set(4) && !acknowledgment.is_set(2));
    assert_eq!(rt; acknowledgment.repeat_start(grant(3, 1)), None);
    assert_eq!(rt; acknowledgment.repeat_start(grant(4, 1)), Some(1));
    assert_eq!(rt; acknowledgment.repeat_start(grant(6, 1)), Some(2));
    assert_eq!(rt; acknowledgment.repeat_start(grant(7, 1)), None);
}

#[test]
fn wide_grants_repeat_whole(rt: HostRuntime) {
    let acknowledgment = GroupAcknowledgment {
        numbers: eight(3),
        octets: &no_bits(),
    };
    assert_eq!(rt; acknowledgment.repeat_start(grant(4, 2)), Some(1));
    assert_eq!(rt; acknowledgment.repeat_start(grant(6, 1)), Some(3));
    assert_eq!(rt; acknowledgment.repeat_start(grant(7, 2)), None);
}

#[test]
fn both_ends_agree(rt: HostRuntime) -> Result<(), Fail> {
    let numbers = eight(2);
    let grants = EvenGrants {
        count: 6,
        width: 1,
        address: 100,
        simple: 1,
    };
    let plan = EvenPlan::new(numbers, grants)?;
    let three = marked(no_bits(), numbers, grant(3, 1));
    let five = marked(three, numbers, grant(5, 1));
    let bitmap = marked(five, numbers, grant(8, 1));
    assert_eq!(rt; bitmap[0], 0x25);
    assert_eq!(rt; repeater(&plan, &bitmap, 1), Some(2));
    assert_eq!(rt; repeater(&plan, &bitmap, 2), Some(4));
    assert_eq!(rt; sender(&plan, &bitmap, 0), None);
    assert_eq!(rt; sender(&plan, &bitmap, 2), Some(4));
    assert_eq!(rt; sender(&plan, &bitmap, 7), Some(5));
    assert!(rt; is_for_retransmission(numbers, 2) && !is_for_retransmission(numbers, 3));
    Ok(())
}
