// A move and its plan in buffers of doubles, for callers in other languages. The layouts are those of planner's and
// this crate's specs/Layout.antt.
#![tactic(auto)]

ghost use Rattle.std.specs.Prelude.{◌≡◌, ◌⊎◌, IfErr};
ghost use Rattle.refusals.specs.declared.Refusal.TheVariants.{TimeNotFinite};
ghost use Rattle.plan_buffer.specs.Layout.{plan_length};
ghost use Rattle.plan_buffer.specs.declared.error.BufferError.TheVariants.{WrongLength, Refused};
ghost use Rattle.plan_buffer.specs.Buffers.{wrong_length, plan_number, asked_number, Planned, HoldsJoinable, Asked};

use crate::error::WRONG_LENGTH;
use crate::layout::PLAN_LENGTH;
use crate::read::blocking;
use crate::write::write_plan;
use planner::{MOVE_LENGTH, Move};

mod error; // error.rt: why nothing is answered, and the numbers of answers
mod layout; // layout.rt: where the parts of a plan stand
mod write; // write.rt: a plan into a lent slice
mod read; // read.rt: what is asked of a plan in a lent slice

pub use error::{BufferError, asked_number, plan_number};

// Plans a move: the buffer then begins with the plan. A wrong length where `mv` isn't a move's 13 doubles, or the
// buffer has fewer than a plan's 166.
// Nothing is written unless it is planned, and nothing beyond the plan.
pub fn plan(mv: &[f64], buffer: &mut [f64]) -> Result<(), BufferError>
    ensures planned { Planned mv.now buffer.old (plan_number result) buffer.new }
    ensures joinable { HoldsJoinable (plan_number result) buffer.new }
{
    let Ok(numbers) = <[f64; MOVE_LENGTH]>::try_from(mv) else {
        return Err(BufferError::WrongLength);
    };
    if buffer.len() < PLAN_LENGTH {
        return Err(BufferError::WrongLength);
    }
    // By match: `?` copies the plan, which a landing before measured as 6 % of a plan's time.
    match planner::plan(Move::from(numbers)) {
        Ok(block) => write_plan(&block, buffer),
        Err(refusal) => return Err(BufferError::from(refusal)),
    }
    Ok(())
}

// Whether a duration is blocked by the plan in a buffer. A time that isn't finite is refused. A wrong length where the
// buffer has fewer than a plan's 166 doubles.
#[tactic(auto, unfolding(crate::specs::Buffers::blocking_in))]
pub fn is_blocked(buffer: &[f64], t: f64) -> Result<bool, BufferError>
    ensures number { Asked buffer.now t (asked_number result) }
    ensures refused { IfErr result (λ error. (error ≡ WrongLength) ⊎ (error ≡ Refused TimeNotFinite)) }
{
    if buffer.len() < PLAN_LENGTH {
        return Err(BufferError::WrongLength);
    }
    Ok(blocking(buffer, t)?)
}

// The numbers of the code are those of the definitions.
pub fn constants()
    ensures { (PLAN_LENGTH ≡ plan_length) × (WRONG_LENGTH ≡ wrong_length) }
{}
