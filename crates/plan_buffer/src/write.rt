// A plan into a lent slice. The functions take the slice and a place in it: parts split off as arrays
// (`split_first_chunk_mut`) come in an Option each, with a case for a slice too short, which the one test of the whole
// length has answered.

ghost use Rattle.std.specs.Prelude.{◌≡◌, ◌+◌, ◌≤◌, ◌++◌, length, drop};
ghost use Rattle.block.specs.Blocks.{kind_number};
ghost use Rattle.plan_buffer.specs.Layout.{profile_length, interval_length, plan_length, profile_numbers};
ghost use Rattle.plan_buffer.specs.Layout.{interval_numbers, plan_numbers};
ghost use Rattle.plan_buffer.specs.Steps.{stored};

use crate::layout::{DURATION_AT, ENDS_LENGTH, PROFILE_AT, STRETCH_A_AT, STRETCH_B_AT};
use block::{Block, Interval, Stretch};
use profile::{NAMES, Profile};

// By match: `as` takes no enum whose cases have fields. No From in `block`: only the buffers have a stretch by number.
fn kind_number(stretch: Stretch) -> u32
    ensures { result ≡ kind_number stretch }
{
    match stretch {
        Stretch::Nothing => 0,
        Stretch::Between(_, _) => 1,
        Stretch::From(_) => 2,
    }
}

// The numbers of x from `at` on.
fn put(out: &mut [f64], at: usize, x: &[f64])
    requires { at + length x.now ≤ length out.old }
    ensures { out.new ≡ stored out.old at x.now }
{
    out[at..at + x.len()].copy_from_slice(x);
}

fn put_profile(out: &mut [f64], at: usize, q: &Profile)
    requires { at + profile_length ≤ length out.old }
    ensures { out.new ≡ stored out.old at (profile_numbers q.now) }
{
    let names = [
        f64::from(u32::from(q.direction)),
        f64::from(u32::from(q.limits)),
        f64::from(u32::from(q.control_signs)),
    ];
    let doubles = q.doubles();
    put(out, at, &names);
    put(out, at + NAMES, &doubles);
}

fn put_interval(out: &mut [f64], at: usize, i: &Interval)
    requires { at + interval_length ≤ length out.old }
    ensures { out.new ≡ stored out.old at (interval_numbers i.now) }
{
    let stretch = i.stretch;
    let ends = [
        f64::from(kind_number(stretch)),
        stretch.left_end(),
        stretch.right_end(),
    ];
    put(out, at, &ends);
    put_profile(out, at + ENDS_LENGTH, &i.profile);
}

// The plan's numbers. What lies beyond them stays.
pub fn write_plan(block: &Block, buffer: &mut [f64])
    requires { plan_length ≤ length buffer.old }
    ensures { buffer.new ≡ plan_numbers block.now ++ drop plan_length buffer.old }
{
    put(buffer, DURATION_AT, &[block.t_min]);
    put_profile(buffer, PROFILE_AT, &block.p_min);
    put_interval(buffer, STRETCH_A_AT, &block.a);
    put_interval(buffer, STRETCH_B_AT, &block.b);
}
