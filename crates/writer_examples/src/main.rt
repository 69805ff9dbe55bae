// Prints worked frames: what each writer writes, and how it reads back.
#![tactic(auto)]

use capture::Report;
use frame::{
    Acknowledged, BeaconHeader, Command, Configuration, Direction, Fault, ManagementState,
    ManagementWidth, Wish, read, write_acknowledgment, write_command, write_data,
    write_management_beacon, write_online_beacon, write_reset_beacon,
};
use hexadecimal::Hex;
use std::io;

const HEADER: BeaconHeader = BeaconHeader {
    coordinator: 1,
    sequence: 7,
    size: 5,
};

// A buffer into which frames are written, one after another.
#[derive(Drop)]
struct Page<'r, 'b> {
    rt: &'r HostRuntime,
    buffer: &'b mut [u8],
}

impl<'r, 'b> Page<'r, 'b> {
    fn new(rt: &'r HostRuntime, buffer: &'b mut [u8]) -> Page<'r, 'b> {
        Page { rt, buffer }
    }

    // Writes a frame, and prints the writer's answer, the whole buffer, and how the frame in it reads.
    fn show<W: FnOnce(&mut [u8]) -> Result<usize, Fault>>(&mut self, write: W) -> io::Result<()>
        requires { W.IsAlwaysCallable write }
    {
        let rt = self.rt;
        let answer = write(self.buffer);
        let buffer = &*self.buffer;
        let held = Hex(buffer);
        match answer {
            Ok(length) => {
                let report = Report::from(read(buffer.get(..length).unwrap_or(buffer)));
                println!(rt; "{length} octets: {held}: {report}")
            }
            Err(fault) => println!(rt; "refused {fault}: {held}"),
        }
    }
}

fn beacons(page: &mut Page<'_, '_>) -> io::Result<()> {
    page.show(|buffer| write_online_beacon(HEADER, 8, &[0x25], buffer))?;
    for timeslots in [1u8, 7] {
        if let Ok(width) = ManagementWidth::try_from(timeslots) {
            for state in [ManagementState::Discovery, ManagementState::Configuration] {
                page.show(|buffer| write_management_beacon(HEADER, state, width, buffer))?;
            }
        }
    }
    page.show(|buffer| write_reset_beacon(HEADER, buffer))
}

fn commands(page: &mut Page<'_, '_>) -> io::Result<()> {
    let wish = Wish {
        width: 1,
        direction: Direction::Bidirectional,
    };
    let configuration = Configuration {
        simple: 3,
        channel: 11,
        size: 5,
        first: 4,
        width: 2,
        retransmission: 6,
        uplink: 13,
        timeslots: 14,
        coordinator: 1,
    };
    let address = 0x0807_0605_0403_0201;
    let response = Command::DiscoverResponse { address, wish };
    let status = Command::ConfigurationStatus {
        address,
        simple: 255,
        wish,
        first: 9,
        width: 8,
    };
    let request = Command::ConfigurationRequest {
        address,
        configuration,
    };
    for command in [response, status, request] {
        page.show(|buffer| write_command(command, buffer))?;
    }
    Ok(())
}

fn data_and_acknowledgments(page: &mut Page<'_, '_>) -> io::Result<()> {
    page.show(|buffer| write_data(&[0xff, 0xff, 0xff, 0xff, 0], buffer))?;
    page.show(|buffer| write_data(&[], buffer))?;
    for acknowledged in [
        Acknowledged::Data,
        Acknowledged::DiscoverResponse,
        Acknowledged::ConfigurationRequest,
    ] {
        page.show(|buffer| write_acknowledgment(acknowledged, buffer))?;
    }
    Ok(())
}

// A buffer that is one octet too short, a bitmap of 33 octets and a payload of 125.
fn refusals(page: &mut Page<'_, '_>) -> io::Result<()> {
    page.show(|buffer| write_reset_beacon(HEADER, buffer))?;
    page.show(|buffer| write_data(&[1, 2, 3], buffer))?;
    page.show(|buffer| write_data(&[1, 2, 3, 4], buffer))?;
    page.show(|buffer| write_online_beacon(HEADER, 8, &[0; 33], buffer))?;
    page.show(|buffer| write_data(&[0; 125], buffer))
}

// Each page is as long as its longest frame and an octet more; the last one is too short.
fn main(rt: HostRuntime) -> io::Result<()> {
    beacons(&mut Page::new(&rt, &mut [0xee; 8]))?;
    data_and_acknowledgments(&mut Page::new(&rt, &mut [0xee; 7]))?;
    commands(&mut Page::new(&rt, &mut [0xee; 21]))?;
    refusals(&mut Page::new(&rt, &mut [0xee; 4]))
}
