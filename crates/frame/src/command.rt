// Commands.
ghost use Rattle.std.specs.Prelude.{◌≡◌, ◌+◌, ◌<◌, ◌≤◌, ◌^◌, None, MatchResult, [], ◌∷◌, length, if◌then◌else◌, nat_lt, Ok, Err};
ghost use Rattle.frame.specs.declared.faults.Refusal.TheVariants.{Kind, Short};
ghost use Rattle.frame.specs.CommandParts.{address_in, numbers_from, octets_with};
ghost use Rattle.frame.specs.Fields.{direction_from};
ghost use Rattle.frame.specs.Formats.{command, command_format, order_of, reading_as};
ghost use Rattle.frame.specs.KindsInCode.{order_for};
ghost use Rattle.frame.specs.Messages.{discover_response, configuration_status, configuration_request, identifier, command_frame};
ghost use Rattle.frame.specs.Octets.{octet, between};
ghost use Rattle.frame.specs.Refusals.{fault};
ghost use Rattle.frame.specs.Views.{told, seen, told_command};
ghost use Rattle.frame.specs.Writing.{Written, fitting, left_by};

use crate::buffer::put;
use crate::control::Subtype;
use crate::direction::Direction;
use crate::extent::{at_least, at_most};
use crate::faults::{Fault, Refusal};
use crate::frames::Frame;
use crate::part::Part;

// Where the identifier, the full address and the numbers of a command stand.
const IDENTIFIER: usize = 1;

const ADDRESS: usize = 2;

const NUMBERS: usize = ADDRESS + 8;

/// What a device asks for.
#[derive(Clone, Copy)]
pub struct Wish {
    /// How many base timeslots.
    pub width: u8,
    /// In which direction.
    pub direction: Direction,
}

/// What a device needs to know to take part: its grant, and the numbers of the slot plan.
#[derive(Clone, Copy)]
pub struct Configuration {
    /// The device's simple address.
    pub simple: u8,
    /// The radio channel.
    pub channel: u8,
    /// n, the most octets of payload that fit one base timeslot.
    pub size: u8,
    /// The grant's first base timeslot.
    pub first: u8,
    /// How many base timeslots the grant has.
    pub width: u8,
    /// R, the base timeslots for retransmission.
    pub retransmission: u8,
    /// U, the uplink base timeslots, those for retransmission among them.
    pub uplink: u8,
    /// N, all base timeslots.
    pub timeslots: u8,
    /// The coordinator's simple address.
    pub coordinator: u8,
}

/// A command. The address is the device's full one.
#[derive(Clone, Copy)]
pub enum Command {
    /// A device tells that it is there, and what it wants.
    DiscoverResponse {
        address: u64,
        wish: Wish,
    },
    /// A device tells which grant it has, and what it wants. Without a configuration the simple address is 255, and `first` and
    /// `width`, the grant's first base timeslot and how many it has, are 0.
    ConfigurationStatus {
        address: u64,
        simple: u8,
        wish: Wish,
        first: u8,
        width: u8,
    },
    /// The coordinator configures a device.
    ConfigurationRequest {
        address: u64,
        configuration: Configuration,
    },
}

// The identifier of a command.
#[derive(Clone, Copy)]
pub(crate) enum Identifier {
    DiscoverResponse = 0x0d,
    ConfigurationStatus = 0x0e,
    ConfigurationRequest = 0x0f,
}

impl From<Identifier> for u8 {
    ghost from_gives = { λ command code. code ≡ identifier (order_for command) };

    fn from(command: Identifier) -> u8 {
        command as u8
    }
}

impl TryFrom<u8> for Identifier {
    type Error = Refusal;

    ghost try_from_gives = { λ code r. MatchResult r (λ command. code ≡ identifier (order_for command)) (λ e. (e ≡ Kind) × (order_of code ≡ None)) };

    fn try_from(code: u8) -> Result<Identifier, Refusal> {
        const DISCOVER_RESPONSE: u8 = Identifier::DiscoverResponse as u8;
        const CONFIGURATION_STATUS: u8 = Identifier::ConfigurationStatus as u8;
        const CONFIGURATION_REQUEST: u8 = Identifier::ConfigurationRequest as u8;
        match code {
            DISCOVER_RESPONSE => Ok(Identifier::DiscoverResponse),
            CONFIGURATION_STATUS => Ok(Identifier::ConfigurationStatus),
            CONFIGURATION_REQUEST => Ok(Identifier::ConfigurationRequest),
            _ => Err(Refusal::Kind),
        }
    }
}

pub(crate) fn read_command(octets: &[u8]) -> Result<Frame<'_>, Fault>
    ensures { seen result ≡ reading_as (command_format (order_of (octet octets.now 1))) octets.now }
{
    at_least(octets, ADDRESS)?;
    let identifier = octets[IDENTIFIER];
    match Identifier::try_from(identifier).map_err(|refusal| refusal.at(IDENTIFIER))? {
        Identifier::DiscoverResponse => read_discover_response(octets),
        Identifier::ConfigurationStatus => read_configuration_status(octets),
        Identifier::ConfigurationRequest => read_configuration_request(octets),
    }
}

fn read_discover_response(octets: &[u8]) -> Result<Frame<'_>, Fault>
    ensures { seen result ≡ reading_as (command discover_response) octets.now }
{
    let numbers: [u8; 2] = numbers(octets)?;
    let [width, direction] = numbers;
    let direction = direction_from(direction, NUMBERS + 1)?;
    at_most(octets.len(), NUMBERS + numbers.len())?;
    let response = Command::DiscoverResponse {
        address: address(octets),
        wish: Wish { width, direction },
    };
    Ok(command_frame(octets, response))
}

fn read_configuration_status(octets: &[u8]) -> Result<Frame<'_>, Fault>
    ensures { seen result ≡ reading_as (command configuration_status) octets.now }
{
    let numbers: [u8; 5] = numbers(octets)?;
    let [simple, width, direction, first, slots] = numbers;
    let direction = direction_from(direction, NUMBERS + 2)?;
    at_most(octets.len(), NUMBERS + numbers.len())?;
    let status = Command::ConfigurationStatus {
        address: address(octets),
        simple,
        wish: Wish { width, direction },
        first,
        width: slots,
    };
    Ok(command_frame(octets, status))
}

fn read_configuration_request(octets: &[u8]) -> Result<Frame<'_>, Fault>
    ensures { seen result ≡ reading_as (command configuration_request) octets.now }
{
    let numbers: [u8; 10] = numbers(octets)?;
    at_most(octets.len(), NUMBERS + numbers.len())?;
    let [
        simple,
        channel,
        _management,
        size,
        first,
        width,
        retransmission,
        uplink,
        timeslots,
        coordinator,
    ] = numbers;
    let configuration = Configuration {
        simple,
        channel,
        size,
        first,
        width,
        retransmission,
        uplink,
        timeslots,
        coordinator,
    };
    let address = address(octets);
    Ok(command_frame(
        octets,
        Command::ConfigurationRequest {
            address,
            configuration,
        },
    ))
}

// The full address.
fn address(octets: &[u8]) -> u64
    requires { numbers_from ≤ length octets.now }
    ensures { result ≡ address_in octets.now }
{
    let mut eight = [0; NUMBERS - ADDRESS];
    eight.copy_from_slice(&octets[ADDRESS..NUMBERS]);
    u64::from_le_bytes(eight)
}

// So many octets behind the full address.
fn numbers<const N: usize>(octets: &[u8]) -> Result<[u8; N], Fault>
    requires { N ≤ 10 }
    ensures { result ≡ (if nat_lt (length octets.now) (numbers_from + N) then Err (fault Short (length octets.now)) else Ok (between numbers_from (numbers_from + N) octets.now)) }
{
    at_least(octets, NUMBERS + N)?;
    let mut numbers = [0; N];
    numbers.copy_from_slice(&octets[NUMBERS..NUMBERS + N]);
    Ok(numbers)
}

// The direction that an octet at a place stands for.
fn direction_from(octet: u8, place: usize) -> Result<Direction, Fault>
    ensures { result ≡ direction_from octet place }
{
    Direction::try_from(octet).map_err(|refusal| refusal.at(place))
}

// A command with the parts that it lends.
fn command_frame(octets: &[u8], command: Command) -> Frame<'_>
    requires { 2 ≤ length octets.now }
    ensures { told result ≡ told_command octets.now command }
{
    Frame::Command {
        control: Part::between(octets, 0, 1),
        parameters: Part::onwards(octets, ADDRESS),
        command,
    }
}

/// Writes a command at the buffer's start, and answers how many octets it has: 12, 15 or 20.
/// A shorter buffer is refused with Space at 0, and stays as it was.
#[tactic(auto, using(crate::proofs::WrittenReadsBack::written))]
pub fn write_command(command: Command, buffer: &mut [u8]) -> Result<usize, Fault>
    ensures { Written (command_frame command) buffer.old result buffer.new }
{
    match command {
        Command::DiscoverResponse { address, wish } => {
            let numbers = [wish.width, wish.direction.into()];
            put_command(Identifier::DiscoverResponse, address, &numbers, buffer)
        }
        Command::ConfigurationStatus {
            address,
            simple,
            wish,
            first,
            width,
        } => {
            let numbers = [simple, wish.width, wish.direction.into(), first, width];
            put_command(Identifier::ConfigurationStatus, address, &numbers, buffer)
        }
        Command::ConfigurationRequest {
            address,
            configuration,
        } => {
            let numbers = configuration_octets(configuration);
            put_command(Identifier::ConfigurationRequest, address, &numbers, buffer)
        }
    }
}

// Writes a command: control, identifier, the full address and the numbers behind it.
fn put_command(
    identifier: Identifier,
    address: u64,
    numbers: &[u8],
    buffer: &mut [u8],
) -> Result<usize, Fault>
    requires { length numbers.now ≤ 10 }
    ensures answer { result ≡ fitting (octets_with (order_for identifier) address numbers.now) buffer.old }
    ensures memory { buffer.new ≡ left_by result (octets_with (order_for identifier) address numbers.now) buffer.old }
    ensures fits { address < 2 ^ 64 }
{
    put(
        &[
            &[Subtype::Command.control(), identifier.into()],
            &address.to_le_bytes(),
            numbers,
        ],
        buffer,
    )
}

// A configuration as a request carries it; the third octet is not used.
fn configuration_octets(c: Configuration) -> [u8; 10]
    ensures { result ≡ c.simple ∷ c.channel ∷ 0 ∷ c.size ∷ c.first ∷ c.width ∷ c.retransmission ∷ c.uplink ∷ c.timeslots ∷ c.coordinator ∷ [] }
{
    [
        c.simple,
        c.channel,
        0,
        c.size,
        c.first,
        c.width,
        c.retransmission,
        c.uplink,
        c.timeslots,
        c.coordinator,
    ]
}
