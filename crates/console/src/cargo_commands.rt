// Cargo of either kind: its image, and read back.
use crate::answers::Answers;
use crate::obstacle::{Obstacle, Stop};
use cargo::{Cargo, Panel, Reading, receive};
use frame::Fault;
use hexadecimal::Hex;
use hosts::SPACE;
use script::{CargoKind, CargoSource, GivenCargo};
use std::fmt;

// Cargo that a network of the console carries.
pub(crate) trait Carried: Cargo + fmt::Display + Drop {
    // The cargo that a line gives, if it is of this kind.
    fn given(cargo: GivenCargo) -> Result<Self, Obstacle>;
}

impl Carried for Reading {
    fn given(cargo: GivenCargo) -> Result<Reading, Obstacle> {
        match cargo {
            GivenCargo::Reading(reading) => reading.ok_or(Obstacle::NoCargo(CargoKind::Reading)),
            GivenCargo::Panel(_) => Err(Obstacle::NotUnderstood),
        }
    }
}

impl Carried for Panel {
    fn given(cargo: GivenCargo) -> Result<Panel, Obstacle> {
        match cargo {
            GivenCargo::Reading(_) => Err(Obstacle::NotUnderstood),
            GivenCargo::Panel(panel) => panel.ok_or(Obstacle::NoCargo(CargoKind::Panel)),
        }
    }
}

// Answers the image of the cargo that a line gives.
pub(crate) fn image(cargo: GivenCargo, answers: &mut Answers<'_>) -> Result<(), Stop> {
    match cargo.kind() {
        CargoKind::Reading => image_of(&Reading::given(cargo)?, answers),
        CargoKind::Panel => image_of(&Panel::given(cargo)?, answers),
    }
}

fn image_of<C: Cargo>(cargo: &C, answers: &mut Answers<'_>) -> Result<(), Stop> {
    let mut buffer = [0; SPACE];
    let length = cargo.write(&mut buffer)?;
    answers.line(format_args!("image {}", Hex(&buffer[..length])))
}

// Reads octets as cargo of a kind.
pub(crate) fn read(
    kind: CargoKind,
    source: CargoSource,
    octets: &[u8],
    answers: &mut Answers<'_>,
) -> Result<(), Stop> {
    match kind {
        CargoKind::Reading => answers.line(read_from::<Reading>(source, octets)?),
        CargoKind::Panel => answers.line(read_from::<Panel>(source, octets)?),
    }
}

fn read_from<C: Cargo>(source: CargoSource, octets: &[u8]) -> Result<C, Fault> {
    match source {
        CargoSource::Image => C::read(octets),
        CargoSource::Frame => receive(octets),
    }
}
