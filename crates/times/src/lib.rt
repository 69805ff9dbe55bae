//! Slot times of the low latency mode (LLDN) of IEEE 802.15.4, in symbols of 16 microseconds.
#![tactic(auto)]

ghost use Rattle.std.specs.Prelude.{◌≡◌, [], ◌∷◌, map};
ghost use Rattle.plan.specs.Rules.{grant_at};
ghost use Rattle.times.specs.Symbols.{frame_symbols, timeslot_symbols, beacon_symbols, span_of, slot_span, grant_span, superframe_symbols, microseconds, sixteen_of_two};
ghost use Rattle.times.specs.Laws.{FollowEachOther, FullFramesEndInside, EndsWithLastTimeslot};

use frame::{Fault, Refusal};
use plan::{Numbers, SlotPlan};

/// The symbols that a frame of `octets` octets, its FCS included, takes with the spacing after it.
pub fn frame_symbols(octets: u16) -> u32
    ensures { result ≡ frame_symbols octets }
{
    let spacing = if octets <= 18 { 12 } else { 40 };
    12 + 2 * u32::from(octets) + spacing
}

/// The symbols of a base timeslot, which fits a payload of `size` octets with the control octet and the FCS.
pub fn timeslot_symbols(size: u8) -> u32
    ensures answer { result ≡ timeslot_symbols size }
    ensures known { map timeslot_symbols (2 ∷ 15 ∷ 16 ∷ 20 ∷ []) ≡ 34 ∷ 60 ∷ 90 ∷ 98 ∷ [] }
{
    frame_symbols(u16::from(size) + 3)
}

/// The symbols of the beacon timeslot, which fits the Online beacon with its bitmap and its FCS.
pub fn beacon_symbols(numbers: Numbers) -> u32
    ensures { result ≡ beacon_symbols numbers }
{
    frame_symbols(6 + numbers.bitmap_octets() as u16 + 2)
}

/// When base timeslot `t`, counted from 1, starts and ends, in symbols from the start of the beacon.
///
/// Refused with Timeslot at `t` where the plan has no such timeslot.
pub fn slot_time<P: SlotPlan>(plan: &P, t: u8) -> Result<(u32, u32), Fault>
    ensures answer { result ≡ slot_span (P.SlotPlan.meaning plan.now).numbers t }
    ensures follow { FollowEachOther (P.SlotPlan.meaning plan.now).numbers }
{
    let numbers = plan.numbers();
    if t == 0 || t > numbers.timeslots {
        return Err(Refusal::Timeslot.at(usize::from(t)));
    }
    Ok(span(numbers, t, 1))
}

/// When the timeslots of grant `i`, from 1 on, start and end, in symbols from the start of the beacon, or none where there
/// is no such grant. A frame with as much as the grant carries ends inside them.
pub fn grant_time<P: SlotPlan>(plan: &P, i: usize) -> Option<(u32, u32)>
    ensures answer { result ≡ grant_span (P.SlotPlan.meaning plan.now).numbers (grant_at (P.SlotPlan.meaning plan.now) i) }
    ensures inside { FullFramesEndInside (P.SlotPlan.meaning plan.now) }
{
    plan.grant(i)
        .map(|grant| span(plan.numbers(), grant.first, grant.width))
}

// When `width` timeslots start and end, of which the first has this number.
fn span(numbers: Numbers, first: u8, width: u8) -> (u32, u32)
    ensures { result ≡ span_of numbers first width }
{
    let slot = timeslot_symbols(numbers.size);
    let beacon = beacon_symbols(numbers);
    let before = u32::from(first).saturating_sub(1);
    let last = (u32::from(first) + u32::from(width)).saturating_sub(1);
    (beacon + before * slot, beacon + last * slot)
}

/// The symbols of the whole Online superframe, from the beacon's start to the last timeslot's end.
pub fn superframe_symbols<P: SlotPlan>(plan: &P) -> u32
    ensures answer { result ≡ superframe_symbols (P.SlotPlan.meaning plan.now).numbers }
    ensures ends { EndsWithLastTimeslot (P.SlotPlan.meaning plan.now).numbers }
    ensures known { microseconds (superframe_symbols sixteen_of_two) ≡ 9408 }
{
    let numbers = plan.numbers();
    beacon_symbols(numbers) + u32::from(numbers.timeslots) * timeslot_symbols(numbers.size)
}

/// Symbols as microseconds, 16 to a symbol.
pub fn to_microseconds(symbols: u32) -> u64
    ensures { result ≡ microseconds symbols }
{
    16 * u64::from(symbols)
}
