// Orders to a network, and the words that they are made of.
ghost use Rattle.std.specs.Prelude.{◌≡◌};
ghost use Rattle.script.specs.Orders.{understood};

use crate::cargo_kind::CargoKind;
use crate::given_cargo::GivenCargo;
use crate::given_octets::GivenOctets;
use crate::line_words::{LineWords, named, number_in, octets_in, wrong};
use crate::misread::{Misread, WrongWord};
use frame::{Direction, Wish};

/// An order to the script's network.
#[derive(Drop)]
pub enum NetworkOrder<'a> {
    /// To the coordinator, or about all devices.
    Coordinator(CoordinatorOrder<'a>),
    /// To the device that has a name.
    Device {
        name: &'a str,
        order: DeviceOrder<'a>,
    },
}

impl NetworkOrder<'_> {
    /// Whether a network that carries a kind of cargo understands it: an offer has to be of that kind.
    pub fn suits(&self, kind: CargoKind) -> bool
        ensures { result ≡ understood self.now kind }
    {
        match self {
            NetworkOrder::Device {
                order: DeviceOrder::Offer(offer),
                ..
            } => offer.kind() == kind,
            _ => true,
        }
    }
}

/// An order to the coordinator, or about all devices.
#[derive(Drop)]
pub enum CoordinatorOrder<'a> {
    /// Makes a device.
    Add {
        name: &'a str,
        address: u64,
        wish: Wish,
    },
    /// Sets the coordinator's mode.
    Mode(NetworkMode),
    /// Opens a superframe, with a lent buffer of this length: at most 65535 octets.
    Open(usize),
    /// Hears a data frame at a timeslot.
    Hear {
        timeslot: u8,
        frame: FrameWord<'a>,
    },
    /// Hears a management frame, with a lent buffer of this length: at most 65535 octets.
    HearManagement {
        frame: FrameWord<'a>,
        space: usize,
    },
    /// Closes the open superframe.
    Close,
    /// Tells how far the device of a grant has come; grants count from 1.
    Record(usize),
    /// Tells what became of each device's cargo.
    Summary,
}

/// An order to a device.
#[derive(Drop)]
pub enum DeviceOrder<'a> {
    /// Takes a beacon.
    Beacon(FrameWord<'a>),
    /// Misses a beacon.
    Missed,
    /// Is handed cargo.
    Offer(GivenCargo),
    /// Sends in a timeslot, with a lent buffer of this length: at most 65535 octets.
    Send { timeslot: u8, space: usize },
    /// Writes a management frame, with a lent buffer of this length: at most 65535 octets.
    Write(usize),
    /// Takes a management frame.
    Take(FrameWord<'a>),
    /// Tells how far it has come.
    Phase,
}

/// What stands for a frame.
#[derive(Drop)]
pub enum FrameWord<'a> {
    /// These octets.
    Octets(GivenOctets),
    /// The beacon that was opened last.
    Beacon,
    /// The coordinator's last reply.
    Reply,
    /// What the device with this name wrote last.
    Device(&'a str),
}

/// A mode that the script names.
#[derive(Clone, Copy)]
pub enum NetworkMode {
    Discovery,
    Configuration,
    Online,
    Reset,
}

// How many octets are lent where no length is given: as many as the longest frame takes.
const LENT: usize = 127;

// An order and the parameters that it takes from the words behind the command.
pub(crate) fn order_in<'a>(
    words: &mut LineWords<'a>,
    command: &'a str,
) -> Result<NetworkOrder<'a>, Misread<'a>> {
    match command {
        "beacon" => Ok(to(words.name()?, DeviceOrder::Beacon(frame(words)?))),
        "missed" => Ok(to(words.name()?, DeviceOrder::Missed)),
        "offer" => Ok(to(
            words.name()?,
            DeviceOrder::Offer(GivenCargo::by_count(words)?),
        )),
        "send" => Ok(to(words.name()?, send(words)?)),
        "write" => Ok(to(words.name()?, DeviceOrder::Write(space(words)?))),
        "take" => Ok(to(words.name()?, DeviceOrder::Take(frame(words)?))),
        "phase" => Ok(to(words.name()?, DeviceOrder::Phase)),
        _ => Ok(NetworkOrder::Coordinator(coordinator_order(words, command)?)),
    }
}

fn to<'a>(name: &'a str, order: DeviceOrder<'a>) -> NetworkOrder<'a> {
    NetworkOrder::Device { name, order }
}

fn send<'a>(words: &mut LineWords<'a>) -> Result<DeviceOrder<'a>, Misread<'a>> {
    Ok(DeviceOrder::Send {
        timeslot: words.number("T")?,
        space: space(words)?,
    })
}

fn coordinator_order<'a>(
    words: &mut LineWords<'a>,
    command: &'a str,
) -> Result<CoordinatorOrder<'a>, Misread<'a>> {
    match command {
        "device" => Ok(CoordinatorOrder::Add {
            name: words.name()?,
            address: words.address()?,
            wish: wish(words)?,
        }),
        "mode" => Ok(CoordinatorOrder::Mode(mode(words)?)),
        "open" => Ok(CoordinatorOrder::Open(space(words)?)),
        "hear" => Ok(CoordinatorOrder::Hear {
            timeslot: words.number("T")?,
            frame: frame(words)?,
        }),
        "hear-management" => Ok(CoordinatorOrder::HearManagement {
            frame: frame(words)?,
            space: space(words)?,
        }),
        "close" => Ok(CoordinatorOrder::Close),
        "record" => Ok(CoordinatorOrder::Record(words.number("I")?)),
        "summary" => Ok(CoordinatorOrder::Summary),
        _ => Err(Misread::Unknown { command }),
    }
}

// The length of a lent buffer.
fn space<'a>(words: &mut LineWords<'a>) -> Result<usize, Misread<'a>> {
    let Some(word) = words.next() else {
        return Ok(LENT);
    };
    let Some(length) = word.strip_prefix("space=") else {
        return Err(Misread::Surplus { word });
    };
    let length: u16 = number_in("K", length)?;
    Ok(usize::from(length))
}

// A frame: octets in one word, or whose last frame it is.
fn frame<'a>(words: &mut LineWords<'a>) -> Result<FrameWord<'a>, Misread<'a>> {
    let word = words.word("FRAME")?;
    match word.strip_prefix('@') {
        None => Ok(FrameWord::Octets(octets_in("FRAME", word)?)),
        Some("open") => Ok(FrameWord::Beacon),
        Some("coordinator") => Ok(FrameWord::Reply),
        Some(name) => Ok(FrameWord::Device(named(word, name)?)),
    }
}

// What a device asks for.
fn wish<'a>(words: &mut LineWords<'a>) -> Result<Wish, Misread<'a>> {
    Ok(Wish {
        width: words.number("WIDTH")?,
        direction: direction(words)?,
    })
}

// A direction or a mode, by a match: `Direction` is of another crate, which cannot be read from words here.
fn direction<'a>(words: &mut LineWords<'a>) -> Result<Direction, Misread<'a>> {
    let word = words.word("a direction")?;
    match word {
        "uplink" => Ok(Direction::Uplink),
        "bidirectional" => Ok(Direction::Bidirectional),
        _ => {
            let reason = WrongWord::NoneOf("uplink or bidirectional");
            Err(wrong("a direction", word, reason))
        }
    }
}

fn mode<'a>(words: &mut LineWords<'a>) -> Result<NetworkMode, Misread<'a>> {
    let word = words.word("STATE")?;
    match word {
        "Discovery" => Ok(NetworkMode::Discovery),
        "Configuration" => Ok(NetworkMode::Configuration),
        "Online" => Ok(NetworkMode::Online),
        "Reset" => Ok(NetworkMode::Reset),
        _ => {
            let reason = WrongWord::NoneOf("Discovery, Configuration, Online or Reset");
            Err(wrong("STATE", word, reason))
        }
    }
}
