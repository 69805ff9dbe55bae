// The command that runs a whole hall.
use crate::answers::Answers;
use crate::any_plan::AnyPlan;
use crate::obstacle::Stop;
use hall::Hall;
use script::HallRun;
use std::alloc::Global;
use times::{superframe_symbols, to_microseconds};

// After how many superframes a note says how far a run is.
const STRETCH: u32 = 100_000;

// Runs a network over a plan, with a device for each grant, and tells what came of it.
pub(crate) fn tell_hall(
    heap: Global,
    plan: AnyPlan,
    run: HallRun,
    answers: &mut Answers<'_>,
) -> Result<(), Stop> {
    let microseconds = to_microseconds(superframe_symbols(&plan));
    let mut hall = Hall::new(heap, plan, run.loss, run.seed)?;
    let played = play(&mut hall, run.superframes, answers);
    let stations = hall.finish();
    played?;
    for station in stations.iter() {
        answers.line(station)?;
    }
    let superframes = run.superframes;
    let whole = microseconds.saturating_mul(u64::from(superframes));
    answers.line(format_args!("superframes {superframes} microseconds {whole}"))
}

// Runs all superframes. Notes say why a station has no part, and how far a long run is.
fn play(hall: &mut Hall<AnyPlan>, superframes: u32, answers: &mut Answers<'_>) -> Result<(), Stop> {
    hall.configure()?;
    for station in hall.stations() {
        if let Some(reason) = station.too_narrow() {
            answers.note(reason);
        }
    }
    for done in 1..=superframes {
        hall.carry()?;
        if done % STRETCH == 0 {
            answers.note(format_args!("{done} of {superframes} superframes"));
        }
    }
    Ok(())
}
