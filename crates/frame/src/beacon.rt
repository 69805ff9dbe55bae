// Beacons.
ghost use Rattle.std.specs.Prelude.{◌≡◌, ◌≤◌, ◌^◌, None, MatchResult, [], ◌∷◌, length, Ok};
ghost use Rattle.frame.specs.declared.faults.Refusal.TheVariants.{Kind};
ghost use Rattle.frame.specs.Formats.{beacon, beacon_format, beacon_said, reading_as, state_of, unless_surplus};
ghost use Rattle.frame.specs.KindsInCode.{state_for};
ghost use Rattle.frame.specs.ManagementWidths.{width_of};
ghost use Rattle.frame.specs.Messages.{online, state_code, management_state, online_beacon, management_beacon, reset_beacon, beacon_octets};
ghost use Rattle.frame.specs.Octets.{bits, octet};
ghost use Rattle.frame.specs.Views.{seen, announced};
ghost use Rattle.frame.specs.Writing.{Written};

use crate::buffer::put;
use crate::control::{Subtype, bits_of};
use crate::extent::{at_least, at_most};
use crate::faults::{Fault, Refusal};
use crate::frames::Frame;
use crate::management_width::ManagementWidth;
use crate::part::Part;

// Where the flags and the numbers of a beacon stand; the header ends where N stands in an Online beacon.
const FLAGS: usize = 1;

const COORDINATOR: usize = 2;

const SEQUENCE: usize = 3;

const SIZE: usize = 4;

const HEAD: usize = 5;

const TIMESLOTS: usize = HEAD;

// Where the bitmap of an Online beacon begins, and the most octets of one.
const BITMAP: usize = TIMESLOTS + 1;

const MOST: usize = BITMAP + 32;

/// The numbers that every beacon carries.
#[derive(Clone, Copy)]
pub struct BeaconHeader {
    /// The coordinator's simple address.
    pub coordinator: u8,
    /// The configuration sequence number.
    pub sequence: u8,
    /// n, the most octets of payload that fit one base timeslot (Max LLDN Data Size).
    pub size: u8,
}

/// The state of the network that a beacon announces, with what it adds to the header.
/// `timeslots` is N, the number of base timeslots; `management` is g, how many of them a management timeslot takes, from 0 to 7.
#[derive(Clone, Copy)]
pub enum BeaconState<'a> {
    /// Data is exchanged. The bitmap is the group acknowledgment of the superframe before, of 0 to 32 octets.
    Online { timeslots: u8, bitmap: Part<'a> },
    /// The coordinator looks for devices.
    Discovery { management: u8 },
    /// The coordinator hands out grants.
    Configuration { management: u8 },
    /// Every device forgets its configuration.
    Reset,
}

/// The two states in which a superframe has management timeslots.
#[derive(Clone, Copy, Debug, PartialEq, Eq)]
pub enum ManagementState {
    /// The coordinator looks for devices.
    Discovery,
    /// The coordinator hands out grants.
    Configuration,
}

// The state that a beacon announces, in bits 0 to 2 of its flags.
#[derive(Clone, Copy, PartialEq, Eq)]
pub(crate) enum State {
    Online = 0,
    Discovery = 4,
    Configuration = 6,
    Reset = 7,
}

impl TryFrom<u8> for State {
    type Error = Refusal;

    ghost try_from_gives = { λ code r. MatchResult r (λ state. code ≡ state_code (state_for state)) (λ e. (e ≡ Kind) × (state_of code ≡ None)) };

    fn try_from(code: u8) -> Result<State, Refusal> {
        const ONLINE: u8 = State::Online as u8;
        const DISCOVERY: u8 = State::Discovery as u8;
        const CONFIGURATION: u8 = State::Configuration as u8;
        const RESET: u8 = State::Reset as u8;
        match code {
            ONLINE => Ok(State::Online),
            DISCOVERY => Ok(State::Discovery),
            CONFIGURATION => Ok(State::Configuration),
            RESET => Ok(State::Reset),
            _ => Err(Refusal::Kind),
        }
    }
}

impl From<ManagementState> for State {
    ghost from_gives = { λ management state. state_for state ≡ management_state management };

    fn from(management: ManagementState) -> State {
        match management {
            ManagementState::Discovery => State::Discovery,
            ManagementState::Configuration => State::Configuration,
        }
    }
}

pub(crate) fn read_beacon(octets: &[u8]) -> Result<Frame<'_>, Fault>
    ensures { seen result ≡ reading_as (beacon_format (state_of (bits 0 3 (octet octets.now 1)))) octets.now }
{
    at_least(octets, HEAD)?;
    let state = read_state(octets)?;
    Ok(Frame::Beacon {
        control: Part::between(octets, 0, 1),
        flags: Part::between(octets, FLAGS, FLAGS + 1),
        header: BeaconHeader {
            coordinator: octets[COORDINATOR],
            sequence: octets[SEQUENCE],
            size: octets[SIZE],
        },
        state,
    })
}

// The state that a beacon announces, with what it adds to the header.
fn read_state(octets: &[u8]) -> Result<BeaconState<'_>, Fault>
    requires { 5 ≤ length octets.now }
    ensures { announced octets.now result ≡ reading_as (beacon_format (state_of (bits 0 3 (octet octets.now 1)))) octets.now }
{
    let flags = octets[FLAGS];
    let state = State::try_from(bits_of(flags, 0, 3)).map_err(|refusal| refusal.at(FLAGS))?;
    if state == State::Online {
        at_least(octets, BITMAP)?;
    }
    if bits_of(flags, 4, 1) != 0 {
        return Err(Refusal::Kind.at(FLAGS));
    }
    let management = bits_of(flags, 5, 3);
    let announced = match state {
        State::Online => return read_online(octets),
        State::Discovery => BeaconState::Discovery { management },
        State::Configuration => BeaconState::Configuration { management },
        State::Reset => BeaconState::Reset,
    };
    at_most(octets.len(), HEAD)?;
    Ok(announced)
}

// The Online state: N and the bitmap.
fn read_online(octets: &[u8]) -> Result<BeaconState<'_>, Fault>
    requires { 6 ≤ length octets.now }
    ensures { announced octets.now result ≡ unless_surplus (beacon online) octets.now (Ok (beacon_said online octets.now)) }
{
    at_most(octets.len(), MOST)?;
    Ok(BeaconState::Online {
        timeslots: octets[TIMESLOTS],
        bitmap: Part::onwards(octets, BITMAP),
    })
}

/// Writes an Online beacon at the buffer's start, and answers how many octets it has. `timeslots` is N.
/// A bitmap of more than 32 octets is refused with Surplus at 38, and a buffer that is shorter than the frame
/// with Space at 0; it then stays as it was.
pub fn write_online_beacon(
    header: BeaconHeader,
    timeslots: u8,
    bitmap: &[u8],
    buffer: &mut [u8],
) -> Result<usize, Fault>
    ensures { Written (online_beacon header timeslots bitmap.now) buffer.old result buffer.new }
{
    at_most(BITMAP + bitmap.len(), MOST)?;
    put(
        &[&beacon_head(header, State::Online, 0), &[timeslots], bitmap],
        buffer,
    )
}

/// Writes a beacon of a state that has management timeslots at the buffer's start, and answers how many octets it has, 5.
/// A shorter buffer is refused with Space at 0, and stays as it was.
pub fn write_management_beacon(
    header: BeaconHeader,
    state: ManagementState,
    management: ManagementWidth,
    buffer: &mut [u8],
) -> Result<usize, Fault>
    ensures { Written (management_beacon state header (width_of management)) buffer.old result buffer.new }
{
    put(
        &[&beacon_head(header, state.into(), management.into())],
        buffer,
    )
}

/// Writes a Reset beacon at the buffer's start, and answers how many octets it has, 5.
/// A shorter buffer is refused with Space at 0, and stays as it was.
pub fn write_reset_beacon(header: BeaconHeader, buffer: &mut [u8]) -> Result<usize, Fault>
    ensures { Written (reset_beacon header) buffer.old result buffer.new }
{
    put(&[&beacon_head(header, State::Reset, 0)], buffer)
}

// The octets that every beacon starts with.
fn beacon_head(header: BeaconHeader, state: State, management: u8) -> [u8; HEAD]
    requires { management ≤ 7 }
    ensures { result ≡ beacon_octets (state_for state) management header [] }
{
    [
        Subtype::Beacon.control(),
        state as u8 + 32 * management,
        header.coordinator,
        header.sequence,
        header.size,
    ]
}
