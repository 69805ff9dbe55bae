// A panel of inputs that are on or off, its image in octets and its text.
ghost use Rattle.std.specs.Prelude.{◌≡◌, ◌+◌, ◌^◌, ◌<◌, ◌≤◌, false, ◌&&◌, length, if◌then◌else◌, Some, None, MatchOption, nat_le, nat_lt, slice_index_or, slice_set};
ghost use Rattle.std.specs.Option.{option_map};
ghost use Rattle.frame.specs.Octets.{value};
ghost use Rattle.cargo.specs.Inputs.{inputs_in, octets_for};

use super::kind_of_cargo::Cargo;
use frame::{Fault, Refusal, put};
use std::fmt;

/// From 1 to 64 inputs that are on or off. It is a count and a number, in which bit k is input k and no other bit is set, so
/// that it is copied and uses no heap.
#[derive(Clone, Copy)]
pub struct Panel {
    count: u8,
    inputs: u64,
    ghost some: { 1 ≤ count },
    ghost few: { count ≤ 64 },
    ghost unused: { inputs < 2 ^ count },
    ghost counted: { length (inputs_in count inputs) ≡ count },
}

impl Panel {
    ghost use Rattle.cargo.specs.Panels.{inputs_of, image_of, ImagesNone};

    /// A panel with these inputs, input 0 first, or none where there is no input or more than 64.
    pub fn new(inputs: &[bool]) -> Option<Panel>
        ensures { option_map inputs_of result ≡ (if nat_le 1 (length inputs.now) && nat_le (length inputs.now) 64 then Some inputs.now else None) }
    {
        // Not `then`: a closure that makes a panel needs a contract of its own.
        if !(1..=64).contains(&inputs.len()) {
            return None;
        }
        Some(Panel {
            count: inputs.len() as u8,
            inputs: number_of(inputs),
        })
    }

    /// How many inputs there are, from 1 to 64.
    pub fn count(self) -> u8
        ensures { result ≡ length (inputs_of self) }
    {
        self.count
    }

    /// Whether input `k`, from 0 on, is on, or none where there is no such input.
    pub fn input(self, k: u8) -> Option<bool>
        ensures { result ≡ (if nat_lt k (length (inputs_of self)) then Some (slice_index_or (inputs_of self) k false) else None) }
    {
        (k < self.count).then(|| self.is_on(k))
    }

    /// The panel with input `k`, from 0 on, on or off, or none where there is no such input.
    pub fn switched(self, k: u8, on: bool) -> Option<Panel>
        ensures { option_map inputs_of result ≡ (if nat_lt k (length (inputs_of self)) then Some (slice_set (inputs_of self) k on) else None) }
    {
        (k < self.count).then(|| self.with_input(k, on))
    }

    // Whether an input is on.
    fn is_on(self, k: u8) -> bool
        requires { k < self.count }
        ensures { result ≡ slice_index_or (inputs_of self) k false }
    {
        (self.inputs >> k) % 2 == 1
    }

    // The panel with one input on or off.
    fn with_input(self, k: u8, on: bool) -> Panel
        requires { k < self.count }
        ensures { inputs_of result ≡ slice_set (inputs_of self) k on }
    {
        if self.is_on(k) == on {
            return self;
        }
        Panel {
            count: self.count,
            inputs: self.inputs ^ (1u64 << k),
        }
    }

    // The panel whose image the octets are, if there is one.
    fn in_image(image: &[u8]) -> Option<Panel>
        ensures { MatchOption result (ImagesNone image.now) (λ p. image_of p ≡ image.now) }
    {
        let &[count @ 1..=64, ref octets @ ..] = image else {
            return None;
        };
        if octets.len() != octets_for(count) {
            return None;
        }
        let inputs = number_in(octets);
        if !has_bits(inputs, count) {
            return None;
        }
        Some(Panel { count, inputs })
    }
}

/// The image is the count, and as many octets as the count needs: input k is bit k mod 8 of octet k / 8 of these.
impl Cargo for Panel {
    ghost use Rattle.frame.specs.Writing.{fitting, left_by};
    ghost use Rattle.cargo.specs.Inputs.{LaidOut};
    ghost use Rattle.cargo.specs.Panels.{inputs_of, image_of};
    ghost use Rattle.cargo.specs.EachPanelHasItsOwnImage.{image_short, same_panel};

    ghost image = { image_of };

    ghost short = { image_short };

    ghost apart = { same_panel };

    fn length(&self) -> usize {
        1 + octets_for(self.count)
    }

    /// `laid_out` says where each input stands in the image.
    fn write(&self, buffer: &mut [u8]) -> Result<usize, Fault>
        ensures answer { result ≡ fitting (image_of self.now) buffer.old }
        ensures memory { buffer.new ≡ left_by result (image_of self.now) buffer.old }
        ensures laid_out { LaidOut (inputs_of self.now) (image_of self.now) }
    {
        let inputs = self.inputs.to_le_bytes();
        put(&[&[self.count], &inputs[..octets_for(self.count)]], buffer)
    }

    fn read(octets: &[u8]) -> Result<Panel, Fault> {
        Panel::in_image(octets).ok_or(Refusal::Cargo.at(1))
    }
}

/// A panel reads as `panel 101`, a digit for each input, input 0 first.
impl fmt::Display for Panel {
    ghost use Rattle.cargo.specs.Panels.{text_of};

    ghost output = { λ x. Some (text_of x) };

    fn fmt<W: fmt::Write>(&self, f: &mut fmt::Formatter<W>) -> fmt::Result {
        f.write_str("panel ")?;
        for k in 0..self.count {
            f.write_str(if self.is_on(k) { "1" } else { "0" })?;
        }
        Ok(())
    }
}

// The number whose bit k is input k.
fn number_of(inputs: &[bool]) -> u64
    requires { length inputs.now ≤ 64 }
    ensures below { result < 2 ^ length inputs.now }
    ensures inputs { inputs_in (length inputs.now) result ≡ inputs.now }
{
    inputs
        .iter()
        .rev()
        .fold(0, |number, on| number << 1 | u64::from(*on))
}

// How many octets that many inputs fill.
fn octets_for(count: u8) -> usize
    ensures { result ≡ octets_for count }
{
    usize::from(count).div_ceil(8)
}

// The number that at most eight octets write, lowest first.
fn number_in(octets: &[u8]) -> u64
    requires { length octets.now ≤ 8 }
    ensures { result ≡ value octets.now }
{
    let mut eight = [0; 8];
    eight[..octets.len()].copy_from_slice(octets);
    u64::from_le_bytes(eight)
}

// Whether a number has no bit set from bit `count` on.
fn has_bits(number: u64, count: u8) -> bool
    requires { count ≤ 64 }
    ensures { result ≡ nat_lt number (2 ^ count) }
{
    count == 64 || number >> count == 0
}
