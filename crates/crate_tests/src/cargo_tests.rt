// Images and texts of readings and panels.
use cargo::{Cargo, Panel, Reading, receive};
use frame::{Fault, Refusal};
use std::process::Abort;
use std::test::Fail;

// A buffer into which cargo was written.
fn written<C: Cargo + Drop>(rt: &impl Abort, cargo: Option<C>) -> Result<[u8; 10], Fail> {
    let cargo = cargo.ok_or_else(|| Fail::new("no cargo"))?;
    let mut buffer = [0xee; 10];
    let length = cargo.write(&mut buffer)?;
    assert!(rt; length == cargo.length());
    Ok(buffer)
}

#[test]
fn readings(rt: HostRuntime) -> Result<(), Fail> {
    let minus = written(&rt, Reading::new(-1, 0))?;
    assert!(rt; minus == [0xff, 0xff, 0xff, 0xff, 0x00, 0xee, 0xee, 0xee, 0xee, 0xee]);
    let most = written(&rt, Reading::new(i32::MAX, 3))?;
    assert!(rt; most == [0xff, 0xff, 0xff, 0x7f, 0x03, 0xee, 0xee, 0xee, 0xee, 0xee]);
    let least = written(&rt, Reading::new(i32::MIN, 3))?;
    assert!(rt; least == [0x00, 0x00, 0x00, 0x80, 0x03, 0xee, 0xee, 0xee, 0xee, 0xee]);
    let reading: Reading = <Reading as Cargo>::read(&[0x00, 0x00, 0x00, 0x80, 0x03])?;
    assert!(rt; reading.value() == i32::MIN && reading.quality() == 3);
    assert!(rt; Reading::new(0, 4).is_none());
    Ok(())
}

// What octets are refused with as cargo of a kind.
fn refusal<C: Cargo + Drop>(octets: &[u8]) -> Option<Fault> {
    C::read(octets).err()
}

#[test]
fn refused(rt: HostRuntime) {
    let cargo = Some(Refusal::Cargo.at(1));
    assert!(rt; refusal::<Reading>(&[0, 0, 0, 0, 4]) == cargo);
    assert!(rt; refusal::<Reading>(&[0, 0, 0, 0, 3, 0]) == cargo);
    assert!(rt; refusal::<Panel>(&[9, 1, 3]) == cargo);
    assert!(rt; refusal::<Panel>(&[0]) == cargo);
    assert!(rt; refusal::<Panel>(&[65, 0, 0, 0, 0, 0, 0, 0, 0, 1]) == cargo);
    assert!(rt; refusal::<Panel>(&[8, 1, 0]) == cargo);
    assert!(rt; refusal::<Panel>(&[9, 1]) == cargo);
}

#[test]
fn texts(rt: HostRuntime) -> Result<(), Fail> {
    let reading: Reading = receive(&[0x44, 0x00, 0x00, 0x00, 0x80, 0x03])?;
    let value = format!(in rt.alloc(); "{reading}")?;
    assert_eq!(rt; value.as_str(), "reading -2147483648 3");
    let panel: Panel = <Panel as Cargo>::read(&[0x09, 0x05, 0x01])?;
    let inputs = format!(in rt.alloc(); "{panel}")?;
    assert_eq!(rt; inputs.as_str(), "panel 101000001");
    Ok(())
}

// A panel of that many inputs, of which the last one is on.
fn last_on(count: usize) -> Option<Panel> {
    let panel = Panel::new([false; 64].get(..count)?)?;
    panel.switched(panel.count() - 1, true)
}

#[test]
fn panels(rt: HostRuntime) -> Result<(), Fail> {
    let panel: Panel = <Panel as Cargo>::read(&[0x09, 0x01, 0x01])?;
    assert!(rt; panel.count() == 9 && panel.input(0) == Some(true) && panel.input(8) == Some(true));
    assert!(rt; panel.input(7) == Some(false) && panel.input(9).is_none());
    let nine = written(&rt, Some(panel))?;
    assert!(rt; nine == [9, 1, 1, 0xee, 0xee, 0xee, 0xee, 0xee, 0xee, 0xee]);
    let one = written(&rt, last_on(1))?;
    assert!(rt; one == [1, 1, 0xee, 0xee, 0xee, 0xee, 0xee, 0xee, 0xee, 0xee]);
    let eight = written(&rt, last_on(8))?;
    assert!(rt; eight == [8, 0x80, 0xee, 0xee, 0xee, 0xee, 0xee, 0xee, 0xee, 0xee]);
    let all = written(&rt, last_on(64))?;
    assert!(rt; all == [64, 0, 0, 0, 0, 0, 0, 0, 0x80, 0xee]);
    Ok(())
}

#[test]
fn received(rt: HostRuntime) -> Result<(), Fail> {
    let reading: Reading = receive(&[0x44, 0xff, 0xff, 0xff, 0xff, 0x00])?;
    assert!(rt; reading.value() == -1 && reading.quality() == 0);
    let unwanted: Result<Reading, Fault> = receive(&[0x84, 0x01]);
    assert!(rt; unwanted.err() == Some(Refusal::Unwanted.at(0)));
    Ok(())
}
