// The command that a line of the script is.
ghost use Rattle.std.specs.Prelude.{IsUtf8, IfOk};

use crate::cargo_kind::CargoKind;
use crate::given_cargo::GivenCargo;
use crate::given_octets::GivenOctets;
use crate::line_words::{LineWords, number_in, wrong};
use crate::misread::{Misread, WrongWord};
use crate::network_order::{NetworkOrder, order_in};
use plan::{EvenGrants, Grant, Numbers};
use std::str::from_utf8;

/// A command of the script.
#[derive(Drop)]
pub enum Request<'a> {
    /// Starts a listed plan with these numbers.
    Listed(Numbers),
    /// Adds a grant to it.
    Grant(Grant),
    /// Makes the listed plan.
    Plan,
    /// Makes an even plan.
    Even {
        numbers: Numbers,
        grants: EvenGrants,
    },
    /// Prints the timetable of the plan.
    Timetable,
    /// Asks who holds a timeslot.
    Holder(u8),
    /// Tells who repeats where by a beacon's bitmap.
    Repeats(GivenOctets),
    /// Asks whose frame starts at a timeslot.
    Sender(u8),
    /// Prints the image of cargo.
    Image(GivenCargo),
    /// Reads octets as cargo of a kind.
    Read {
        kind: CargoKind,
        source: CargoSource,
        octets: GivenOctets,
    },
    /// Sets the kind of cargo that the network carries.
    Cargo(CargoKind),
    /// Makes a network with a coordinator and no devices.
    Coordinator,
    /// Runs a whole network of its own.
    Hall(HallRun),
    /// An order to the network.
    Network(NetworkOrder<'a>),
}

/// What octets are read as cargo from.
#[derive(Clone, Copy)]
pub enum CargoSource {
    /// The image of cargo.
    Image,
    /// A whole data frame.
    Frame,
}

/// How a whole network is run.
#[derive(Clone, Copy)]
pub struct HallRun {
    /// How many Online superframes there are: at most 1000000.
    pub superframes: u32,
    /// The chances in 100 that a frame is lost: at most 100.
    pub loss: u32,
    /// Where the generator of chances starts.
    pub seed: u32,
}

impl<'a> Request<'a> {
    /// The command in a line, or none in an empty line or a comment. The line may end with its line feed.
    /// All of a line that is understood is text, its comment too.
    pub fn of(line: &'a [u8]) -> Result<Option<Request<'a>>, Misread<'a>>
        ensures { IfOk result (λ _. IsUtf8 line.now) }
    {
        let text = from_utf8(line).map_err(|_| Misread::NoText)?;
        let mut words = LineWords::of(text);
        let Some(command) = words.next() else {
            return Ok(None);
        };
        let request = request_in(&mut words, command)?;
        match words.next() {
            None => Ok(Some(request)),
            Some(word) => Err(Misread::Surplus { word }),
        }
    }
}

// A command and the parameters that it takes from the words behind it: here those about plans.
fn request_in<'a>(words: &mut LineWords<'a>, command: &'a str) -> Result<Request<'a>, Misread<'a>> {
    match command {
        "listed" => Ok(Request::Listed(numbers(words)?)),
        "grant" => Ok(Request::Grant(grant(words)?)),
        "plan" => Ok(Request::Plan),
        "even" => Ok(Request::Even {
            numbers: numbers(words)?,
            grants: even_grants(words)?,
        }),
        "timetable" => Ok(Request::Timetable),
        "holder" => Ok(Request::Holder(words.number("T")?)),
        _ => octets_request(words, command),
    }
}

// Those about bitmaps and cargo.
fn octets_request<'a>(
    words: &mut LineWords<'a>,
    command: &'a str,
) -> Result<Request<'a>, Misread<'a>> {
    match command {
        "repeats" => Ok(Request::Repeats(words.octets()?)),
        "sender" => Ok(Request::Sender(words.number("T")?)),
        "image" => Ok(Request::Image(GivenCargo::after_kind(words)?)),
        "read" => read(words, CargoSource::Image),
        "receive" => read(words, CargoSource::Frame),
        _ => network_request(words, command),
    }
}

// Those about networks.
fn network_request<'a>(
    words: &mut LineWords<'a>,
    command: &'a str,
) -> Result<Request<'a>, Misread<'a>> {
    match command {
        "cargo" => Ok(Request::Cargo(words.kind()?)),
        "coordinator" => Ok(Request::Coordinator),
        "hall" => Ok(Request::Hall(hall_run(words)?)),
        _ => Ok(Request::Network(order_in(words, command)?)),
    }
}

// The eight numbers of a plan.
fn numbers<'a>(words: &mut LineWords<'a>) -> Result<Numbers, Misread<'a>> {
    Ok(Numbers {
        timeslots: words.number("N")?,
        uplink: words.number("U")?,
        retransmission: words.number("R")?,
        size: words.number("n")?,
        management: words.number("g")?,
        coordinator: words.number("COORDINATOR")?,
        channel: words.number("CHANNEL")?,
        sequence: words.number("SEQUENCE")?,
    })
}

// A grant.
fn grant<'a>(words: &mut LineWords<'a>) -> Result<Grant, Misread<'a>> {
    Ok(Grant {
        address: words.address()?,
        simple: words.number("SIMPLE")?,
        first: words.number("FIRST")?,
        width: words.number("WIDTH")?,
    })
}

// The grants of an even plan.
fn even_grants<'a>(words: &mut LineWords<'a>) -> Result<EvenGrants, Misread<'a>> {
    Ok(EvenGrants {
        count: words.number("G")?,
        width: words.number("WIDTH")?,
        address: words.address()?,
        simple: words.number("SIMPLE")?,
    })
}

// What is to be read.
fn read<'a>(words: &mut LineWords<'a>, source: CargoSource) -> Result<Request<'a>, Misread<'a>> {
    Ok(Request::Read {
        kind: words.kind()?,
        source,
        octets: words.octets()?,
    })
}

// How a whole network is run.
fn hall_run<'a>(words: &mut LineWords<'a>) -> Result<HallRun, Misread<'a>> {
    Ok(HallRun {
        superframes: number_up_to(1_000_000, words, "SUPERFRAMES")?,
        loss: number_up_to(100, words, "LOSS")?,
        seed: words.number("SEED")?,
    })
}

// A decimal number without a sign, up to the greatest that is allowed.
fn number_up_to<'a>(
    greatest: u32,
    words: &mut LineWords<'a>,
    parameter: &'static str,
) -> Result<u32, Misread<'a>> {
    let word = words.word(parameter)?;
    let number = number_in(parameter, word)?;
    if number > greatest {
        return Err(wrong(parameter, word, WrongWord::Above(greatest)));
    }
    Ok(number)
}
