// How much memory a device takes.
use cargo::{Panel, Reading};
use device::Device;
use std::mem::size_of;

#[test]
fn a_device_takes_64_octets_with_readings_and_104_with_panels(rt: HostRuntime) {
    assert_eq!(rt; size_of::<Device<Reading>>(), 64);
    assert_eq!(rt; size_of::<Device<Panel>>(), 104);
}
