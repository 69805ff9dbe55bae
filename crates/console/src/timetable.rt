// What a plan says of its timeslots.
use crate::answers::Answers;
use crate::any_plan::{AnyPlan, last};
use crate::obstacle::Stop;
use hexadecimal::Hex;
use plan::{Grant, Grants, SlotPlan};
use times::{beacon_symbols, grant_time, superframe_symbols, to_microseconds};

impl AnyPlan {
    // Tells the beacon, each grant, and the whole superframe.
    pub(crate) fn tell_timetable(&self, answers: &mut Answers<'_>) -> Result<(), Stop> {
        let beacon = beacon_symbols(self.numbers());
        answers.line(format_args!("beacon symbols 0 to {beacon}"))?;
        for (i, grant) in Grants::of(self) {
            self.tell_grant(i, grant, answers)?;
        }
        let symbols = superframe_symbols(self);
        let microseconds = to_microseconds(symbols);
        answers.line(format_args!("superframe symbols {symbols} microseconds {microseconds}"))
    }

    // Tells grant i, if it has a time.
    fn tell_grant(&self, i: usize, grant: Grant, answers: &mut Answers<'_>) -> Result<(), Stop> {
        let Some((start, end)) = grant_time(self, i) else {
            return Ok(());
        };
        let numbers = self.numbers();
        let address = grant.address.to_be_bytes();
        let direction = grant.direction(numbers);
        let simple = grant.simple;
        let first = grant.first;
        let last = last(first, grant.width);
        let carried = grant.carries(numbers.size);
        answers.line(format_args!(
            "grant {i} address {} simple {simple} {direction} timeslots {first} to {last} symbols {start} to {end} carries {carried}",
            Hex(&address)
        ))
    }
}
