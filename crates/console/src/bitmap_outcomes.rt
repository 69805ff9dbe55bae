// Commands on bitmaps: who repeats where.
use crate::answers::Answers;
use crate::any_plan::{AnyPlan, last};
use crate::obstacle::Stop;
use frame::Direction;
use plan::{Grant, Grants};
use repeats::GroupAcknowledgment;
use std::fmt;

// What becomes of a grant's frame by a bitmap.
#[derive(Clone, Copy)]
enum Outcome {
    Acknowledged,
    Repeats { first: u8, last: u16 },
    Lost,
    NoRepeat,
}

impl fmt::Display for Outcome {
    fn fmt<W: fmt::Write>(&self, f: &mut fmt::Formatter<W>) -> fmt::Result {
        match self {
            Outcome::Acknowledged => f.write_str("acknowledged"),
            Outcome::Repeats { first, last } => write!(f, "repeats in {first} to {last}"),
            Outcome::Lost => f.write_str("lost"),
            Outcome::NoRepeat => f.write_str("does not repeat"),
        }
    }
}

impl AnyPlan {
    // Tells what becomes of each grant by a bitmap.
    pub(crate) fn tell_repeats(
        &self,
        bitmap: GroupAcknowledgment<'_>,
        answers: &mut Answers<'_>,
    ) -> Result<(), Stop> {
        for (i, grant) in Grants::of(self) {
            let outcome = outcome_of(bitmap, grant);
            answers.line(format_args!("grant {i} {outcome}"))?;
        }
        Ok(())
    }
}

// What becomes of one grant.
fn outcome_of(bitmap: GroupAcknowledgment<'_>, grant: Grant) -> Outcome {
    if bitmap.is_set(grant.first) {
        return Outcome::Acknowledged;
    }
    match (bitmap.repeat_start(grant), grant.direction(bitmap.numbers)) {
        (Some(first), _) => Outcome::Repeats {
            first,
            last: last(first, grant.width),
        },
        (None, Direction::Uplink) => Outcome::Lost,
        (None, Direction::Bidirectional) => Outcome::NoRepeat,
    }
}
