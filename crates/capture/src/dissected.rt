// A frame taken apart, as text.
ghost use Rattle.std.specs.Prelude.{Some};
ghost use Rattle.capture.specs.FrameTexts.{part_text, address_text, start_text, header_text, addressed_text, grant_text, plan_text, beacon_text, command_text, frame_text};

use frame::{BeaconHeader, BeaconState, Command, Configuration, Frame, Part, Wish};
use hexadecimal::Hex;
use std::fmt;

// A part of a frame, behind its name.
#[derive(Clone, Copy)]
struct Named<'a>(&'static str, Part<'a>);

impl fmt::Display for Named<'_> {
    ghost output = { λ x. Some (part_text x.0.now x.1) };

    fn fmt<W: fmt::Write>(&self, f: &mut fmt::Formatter<W>) -> fmt::Result {
        let Named(name, Part { place, octets }) = *self;
        write!(f, "{name}@{place}={}", Hex(octets))
    }
}

// A full address as sixteen digits, by its octets: no lemma says which zeros `{:016x}` writes.
#[derive(Clone, Copy)]
struct Address(u64);

impl fmt::Display for Address {
    ghost output = { λ x. Some (address_text x.0) };

    fn fmt<W: fmt::Write>(&self, f: &mut fmt::Formatter<W>) -> fmt::Result {
        write!(f, "{}", Hex(&self.0.to_be_bytes()))
    }
}

// The numbers that every beacon carries.
#[derive(Clone, Copy)]
struct Header(BeaconHeader);

impl fmt::Display for Header {
    ghost output = { λ x. Some (header_text x.0) };

    fn fmt<W: fmt::Write>(&self, f: &mut fmt::Formatter<W>) -> fmt::Result {
        let BeaconHeader {
            coordinator,
            sequence,
            size,
        } = self.0;
        write!(
            f,
            "coordinator@2={coordinator} sequence@3={sequence} n@4={size}"
        )
    }
}

// The numbers of a configuration up to its grant, with the management octet that stands third.
#[derive(Clone, Copy)]
struct Granted(Configuration, u8);

impl fmt::Display for Granted {
    ghost output = { λ x. Some (grant_text x.0 x.1) };

    fn fmt<W: fmt::Write>(&self, f: &mut fmt::Formatter<W>) -> fmt::Result {
        let Granted(configuration, management) = *self;
        let Configuration {
            simple,
            channel,
            size,
            first,
            width,
            ..
        } = configuration;
        write!(
            f,
            "simple@10={simple} channel@11={channel} management@12={management} n@13={size} first@14={first} slots@15={width}"
        )
    }
}

// The numbers of the slot plan in a configuration.
#[derive(Clone, Copy)]
struct Planned(Configuration);

impl fmt::Display for Planned {
    ghost output = { λ x. Some (plan_text x.0) };

    fn fmt<W: fmt::Write>(&self, f: &mut fmt::Formatter<W>) -> fmt::Result {
        let Configuration {
            retransmission,
            uplink,
            timeslots,
            coordinator,
            ..
        } = self.0;
        write!(
            f,
            "R@16={retransmission} U@17={uplink} N@18={timeslots} coordinator@19={coordinator}"
        )
    }
}

// The control octet and the flags of a beacon.
#[derive(Clone, Copy)]
struct Start<'a>(Part<'a>, Part<'a>);

impl fmt::Display for Start<'_> {
    ghost output = { λ x. Some (start_text x.0 x.1) };

    fn fmt<W: fmt::Write>(&self, f: &mut fmt::Formatter<W>) -> fmt::Result {
        let Start(control, flags) = *self;
        let control = Named("control", control);
        let flags = Named("flags", flags);
        write!(f, "{control} {flags}")
    }
}

// A beacon.
#[derive(Clone, Copy)]
struct Beacon<'a>(Start<'a>, Header, BeaconState<'a>);

impl fmt::Display for Beacon<'_> {
    ghost output = { λ x. Some (beacon_text x.0.0 x.0.1 x.1.0 x.2) };

    fn fmt<W: fmt::Write>(&self, f: &mut fmt::Formatter<W>) -> fmt::Result {
        let Beacon(start, header, state) = *self;
        match state {
            BeaconState::Online { timeslots, bitmap } => {
                let bitmap = Named("bitmap", bitmap);
                write!(f, "beacon Online {start} {header} N@5={timeslots} {bitmap}")
            }
            BeaconState::Discovery { management } => write!(
                f,
                "beacon Discovery {start} g@1={management} {header}"
            ),
            BeaconState::Configuration { management } => write!(
                f,
                "beacon Configuration {start} g@1={management} {header}"
            ),
            BeaconState::Reset => write!(f, "beacon Reset {start} {header}"),
        }
    }
}

// The control octet of a command, and the full address in it.
#[derive(Clone, Copy)]
struct Addressed<'a>(Part<'a>, u64);

impl fmt::Display for Addressed<'_> {
    ghost output = { λ x. Some (addressed_text x.0 x.1) };

    fn fmt<W: fmt::Write>(&self, f: &mut fmt::Formatter<W>) -> fmt::Result {
        let Addressed(control, address) = *self;
        let control = Named("control", control);
        let address = Address(address);
        write!(f, "{control} address@2={address}")
    }
}

// The control octet and the parameters of a command, and the command.
#[derive(Clone, Copy)]
struct Commanded<'a>(Part<'a>, Part<'a>, Command);

impl fmt::Display for Commanded<'_> {
    ghost output = { λ x. Some (command_text x.0 x.1 x.2) };

    fn fmt<W: fmt::Write>(&self, f: &mut fmt::Formatter<W>) -> fmt::Result {
        let Commanded(control, parameters, command) = *self;
        match command {
            Command::DiscoverResponse { address, wish } => {
                let start = Addressed(control, address);
                let Wish { width, direction } = wish;
                write!(
                    f,
                    "command Discover-Response {start} width@10={width} direction@11={direction}"
                )
            }
            Command::ConfigurationStatus {
                address,
                simple,
                wish,
                first,
                width,
            } => {
                let start = Addressed(control, address);
                write!(
                    f,
                    "command Configuration-Status {start} simple@10={simple} width@11={} direction@12={} first@13={first} slots@14={width}",
                    wish.width, wish.direction
                )
            }
            Command::ConfigurationRequest {
                address,
                configuration,
            } => {
                let start = Addressed(control, address);
                let management = parameters.octets.get(10).copied().unwrap_or(0);
                let grant = Granted(configuration, management);
                let plan = Planned(configuration);
                write!(f, "command Configuration-Request {start} {grant} {plan}")
            }
        }
    }
}

/// A frame, taken apart: it reads as the kind of frame and `name@place=value` for each part and each number of it.
#[derive(Clone, Copy)]
pub struct Dissected<'a>(pub Frame<'a>);

impl fmt::Display for Dissected<'_> {
    ghost output = { λ x. Some (frame_text x.0) };

    fn fmt<W: fmt::Write>(&self, f: &mut fmt::Formatter<W>) -> fmt::Result {
        match self.0 {
            Frame::Beacon {
                control,
                flags,
                header,
                state,
            } => {
                let beacon = Beacon(Start(control, flags), Header(header), state);
                write!(f, "{beacon}")
            }
            Frame::Data { control, payload } => {
                let control = Named("control", control);
                let payload = Named("payload", payload);
                write!(f, "data {control} {payload}")
            }
            Frame::Acknowledgment {
                control,
                acknowledged,
            } => {
                let control = Named("control", control);
                let code = u8::from(acknowledged);
                write!(f, "acknowledgment {control} type@1={code:02x}")
            }
            Frame::Command {
                control,
                parameters,
                command,
            } => {
                let command = Commanded(control, parameters, command);
                write!(f, "{command}")
            }
        }
    }
}
