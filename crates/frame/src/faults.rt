// Refusals: what a call answers in place of a result.
ghost use Rattle.std.specs.Prelude.{◌≡◌, Some};
ghost use Rattle.frame.specs.Refusals.{listed, fault, layer_name, fault_text};

use std::error::Error;
use std::fmt;

/// What a call answers in place of a result. A refusal reads as its name, and its number is from 1 to 19.
#[derive(Clone, Copy, Debug, PartialEq, Eq)]
pub enum Refusal {
    /// A rule of slot plans is broken.
    Plan = 1,
    /// The superframe is open already, or is not the one that is open.
    Superframe = 2,
    /// The call does not belong to the present mode or phase.
    Mode = 3,
    /// No timeslot has this number.
    Timeslot = 4,
    /// The timeslot is not above the last one accepted in this superframe.
    Late = 5,
    /// The timeslot has no sender.
    Nobody = 6,
    /// There is no octet.
    Empty = 7,
    /// The frame type is not LLDN.
    Foreign = 8,
    /// A control bit that has to be zero is set.
    Reserved = 9,
    /// There are fewer octets than the frame has.
    Short = 10,
    /// A state, identifier, type or direction that is not listed, or a flag that has to be zero.
    Kind = 11,
    /// There are more octets than the frame has.
    Surplus = 12,
    /// A sound frame that the call does not take now.
    Unwanted = 13,
    /// An address that is not in the plan, not the device's, or of another coordinator.
    Stranger = 14,
    /// A frame that contradicts the configuration or the rules of slot plans.
    Misfit = 15,
    /// The payload is no image of this kind of cargo.
    Cargo = 16,
    /// The device's waiting place is taken.
    Waiting = 17,
    /// The image is larger than the grant carries.
    Size = 18,
    /// The buffer is shorter than the frame.
    Space = 19,
}

/// The part of the engine in which a refusal arises. It reads as its name.
#[derive(Clone, Copy, Debug, PartialEq, Eq)]
pub enum Layer {
    /// The rules of slot plans.
    Plan,
    /// The formats of frames.
    Frame,
    /// The images of cargo.
    Cargo,
    /// The calls of a coordinator, a device or a writer.
    End,
}

/// A refusal with its place and its layer. It reads as `10 Short at 2 in frame`.
#[derive(Clone, Copy, Debug, PartialEq, Eq)]
pub struct Fault {
    pub refusal: Refusal,
    /// A grant's number, a timeslot or the index of an octet, as the refusal says, or 0.
    pub place: usize,
    pub layer: Layer,
}

impl Refusal {
    /// The layer in which the refusal arises.
    pub fn layer(self) -> Layer
        ensures { result ≡ (listed self).layer }
    {
        match self {
            Refusal::Plan => Layer::Plan,
            Refusal::Empty
            | Refusal::Foreign
            | Refusal::Reserved
            | Refusal::Short
            | Refusal::Kind
            | Refusal::Surplus => Layer::Frame,
            Refusal::Cargo => Layer::Cargo,
            _ => Layer::End,
        }
    }

    /// The fault that this refusal is at a place.
    pub fn at(self, place: usize) -> Fault
        ensures { result ≡ fault self place }
    {
        Fault {
            refusal: self,
            place,
            layer: self.layer(),
        }
    }

    /// The refusal's name, as `Short`.
    pub fn name(self) -> &'static str
        ensures { result.now ≡ (listed self).name }
    {
        match self {
            Refusal::Plan => "Plan",
            Refusal::Superframe => "Superframe",
            Refusal::Mode => "Mode",
            Refusal::Timeslot => "Timeslot",
            Refusal::Late => "Late",
            Refusal::Nobody => "Nobody",
            Refusal::Empty => "Empty",
            Refusal::Foreign => "Foreign",
            Refusal::Reserved => "Reserved",
            Refusal::Short => "Short",
            Refusal::Kind => "Kind",
            Refusal::Surplus => "Surplus",
            Refusal::Unwanted => "Unwanted",
            Refusal::Stranger => "Stranger",
            Refusal::Misfit => "Misfit",
            Refusal::Cargo => "Cargo",
            Refusal::Waiting => "Waiting",
            Refusal::Size => "Size",
            Refusal::Space => "Space",
        }
    }
}

impl Layer {
    /// The layer's name, in small letters.
    pub fn name(self) -> &'static str
        ensures { result.now ≡ layer_name self }
    {
        match self {
            Layer::Plan => "plan",
            Layer::Frame => "frame",
            Layer::Cargo => "cargo",
            Layer::End => "end",
        }
    }
}

/// The number under which a refusal is answered, from 1 to 19.
impl From<Refusal> for u8 {
    ghost from_gives = { λ refusal number. number ≡ (listed refusal).number };

    fn from(refusal: Refusal) -> u8 {
        refusal as u8
    }
}

impl fmt::Display for Refusal {
    ghost output = { λ x. Some (listed x).name };

    fn fmt<W: fmt::Write>(&self, f: &mut fmt::Formatter<W>) -> fmt::Result {
        f.write_str(self.name())
    }
}

impl fmt::Display for Layer {
    ghost output = { λ x. Some (layer_name x) };

    fn fmt<W: fmt::Write>(&self, f: &mut fmt::Formatter<W>) -> fmt::Result {
        f.write_str(self.name())
    }
}

impl fmt::Display for Fault {
    ghost output = { λ x. Some (fault_text x) };

    fn fmt<W: fmt::Write>(&self, f: &mut fmt::Formatter<W>) -> fmt::Result {
        let number = u8::from(self.refusal);
        let Fault {
            refusal,
            place,
            layer,
        } = *self;
        write!(f, "{number} {refusal} at {place} in {layer}")
    }
}

impl Error for Refusal {}

impl Error for Fault {}
