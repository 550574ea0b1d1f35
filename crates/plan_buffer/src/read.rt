// What is asked of a plan in a lent slice. Why a place beside the slice: as in write.rt.

ghost use Rattle.std.specs.Prelude.{◌≡◌, ◌+◌, ◌≤◌, length};
ghost use Rattle.plan_buffer.specs.Layout.{ends_length, plan_length};
ghost use Rattle.plan_buffer.specs.Buffers.{inside_numbers, inside_at, blocking_in};

use crate::layout::{DURATION_AT, STRETCH_A_AT, STRETCH_B_AT};
use refusals::Refusal;

// Whether t is inside a stretch of this kind and these ends. The comparisons of `Stretch::contains`, of the numbers
// themselves: a caller's buffer may hold any kind, also 1.5 or NaN, so a Stretch would first be made by the same cases.
fn inside(kind: f64, left: f64, right: f64, t: f64) -> bool
    ensures { result ≡ inside_numbers kind left right t }
{
    if kind == 1.0 {
        return (left < t) & (t < right);
    }
    if kind == 2.0 {
        return left < t;
    }
    false
}

// Whether t is inside the stretch at a place of the buffer.
fn inside_at(buffer: &[f64], at: usize, t: f64) -> bool
    requires { at + ends_length ≤ length buffer.now }
    ensures { result ≡ inside_at buffer.now at t }
{
    inside(buffer[at], buffer[at + 1], buffer[at + 2], t)
}

// The comparisons of `Block::is_blocked`, of the numbers themselves: why, see `inside`.
#[tactic(auto, unfolding(crate::specs::Buffers::blocking_in, crate::specs::Buffers::is_blocked_from))]
pub fn blocking(buffer: &[f64], t: f64) -> Result<bool, Refusal>
    requires { plan_length ≤ length buffer.now }
    ensures { result ≡ blocking_in buffer.now t }
{
    if !doubles::is_finite(t) {
        return Err(Refusal::TimeNotFinite);
    }
    let a = inside_at(buffer, STRETCH_A_AT, t);
    let b = inside_at(buffer, STRETCH_B_AT, t);
    Ok((t < buffer[DURATION_AT]) | a | b)
}
