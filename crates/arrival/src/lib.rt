// One arrival time for all axes of a move: the earliest duration that none of them blocks.
#![tactic(auto)]

ghost use Rattle.std.specs.Prelude.{◌≡◌};
ghost use Rattle.arrival.specs.Axes.{axes_most, ends_length};
ghost use Rattle.arrival.specs.Arrivals.{IsArrival};

use crate::axis::{AXES_MOST, ENDS_LENGTH};
use crate::scan::Axes;
use refusals::Refusal;

mod answer; // answer.rt: what is answered
mod axis; // axis.rt: one axis
mod scan; // scan.rt: all axes of two slices

pub use answer::Arrival;

// `durations` has the shortest duration of each axis, `ends` four numbers for each: left and right of each stretch. A
// missing stretch is 0 and 0, one from a time on ends at infinity. Refused where the slices aren't those of 1 to 8
// plans, and where no finite time is free for all. Two lent slices, as document 01 says.
pub fn arrival(durations: &[f64], ends: &[f64]) -> Result<Arrival, Refusal>
    ensures { IsArrival durations.now ends.now result }
{
    let axes = Axes::new(durations, ends)?;
    let time = axes.earliest().ok_or(Refusal::NeverFree)?;
    let axis = axes.lowest(time).unwrap() as u64;
    Ok(Arrival { time, axis })
}

// The numbers of the code are those of the definitions.
pub fn constants()
    ensures { (AXES_MOST ≡ axes_most) × (ENDS_LENGTH ≡ ends_length) }
{}
