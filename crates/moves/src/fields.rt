// The fields of a line that aren't a profile's: stretches, plans, refusals. A space stands in front of each.
// Each `put_*` states the room it needs and the bytes it appends: the room is that of the caller's line, whatever its
// capacity, and a type for it would have a width for each function all the same.

ghost use Rattle.std.specs.Prelude.{◌+◌, ◌≤◌};
ghost use Rattle.arrayvec.specs.ArrayVec.{array_vec_len};
ghost use Rattle.profile_lines.specs.Text.{Appends};
ghost use Rattle.profile_lines.specs.Fields.{field, double_fields};
ghost use Rattle.block.specs.Blocks.{count_of, ends_of};
ghost use Rattle.decimals.specs.Decimal.{decimal};
ghost use Rattle.stretch_lines.specs.Kinds.{both_ends_width};
ghost use Rattle.moves.specs.Lines.{stretch_fields, plan_fields, refusal_fields, interval_fields, full_fields};
ghost use Rattle.moves.specs.Lines.{count_width, stretches_width, plan_width, refusal_width, interval_width};
ghost use Rattle.moves.specs.Lines.{full_width};
ghost use Rattle.refusals.specs.Numbers.{refusal_number};

use arrayvec::ArrayVec;
use block::{Block, Interval, Stretch};
use decimals::put_number;
use profile_lines::{put_double, put_field, put_name, put_profile_fields};
use refusals::Refusal;
use stretch_lines::{Kind, put_both_ends};

// How many stretches there are: 0, 1 or 2. One digit: `put_number` asks room for 20, and LINE_LENGTH would grow.
#[tactic(auto, using(crate::proofs::Putting::putting))]
fn put_count<const N: usize>(line: &mut ArrayVec<u8, N>, a: Stretch, b: Stretch)
    requires { array_vec_len line.old + count_width ≤ N }
    ensures { Appends line.old line.new (field (decimal (count_of a + count_of b))) count_width }
{
    put_field(line, &[b'0' + (a.count() + b.count())]);
}

#[tactic(auto, using(crate::proofs::Putting::putting), unfolding(profile_lines::specs::Fields::double_fields))]
fn put_ends<const N: usize>(line: &mut ArrayVec<u8, N>, s: Stretch)
    requires { array_vec_len line.old + both_ends_width ≤ N }
    ensures { Appends line.old line.new (double_fields (ends_of s)) both_ends_width }
{
    match s {
        Stretch::Nothing => {}
        Stretch::Between(_, _) | Stretch::From(_) => put_both_ends(line, s),
    }
}

#[tactic(auto, using(crate::proofs::Putting::putting), unfolding(crate::specs::Lines::stretch_fields))]
fn put_stretches<const N: usize>(line: &mut ArrayVec<u8, N>, a: Stretch, b: Stretch)
    requires { array_vec_len line.old + stretches_width ≤ N }
    ensures { Appends line.old line.new (stretch_fields a b) stretches_width }
{
    put_count(line, a, b);
    put_ends(line, a);
    put_ends(line, b);
}

// What document 01 has of a plan.
#[tactic(auto, using(crate::proofs::Putting::putting), unfolding(crate::specs::Lines::plan_fields))]
pub fn put_plan<const N: usize>(line: &mut ArrayVec<u8, N>, x: Block)
    requires { array_vec_len line.old + plan_width ≤ N }
    ensures { Appends line.old line.new (plan_fields x) plan_width }
{
    put_field(line, b"ok");
    put_double(line, x.t_min);
    put_name(line, x.p_min.direction);
    put_name(line, x.p_min.limits);
    put_stretches(line, x.a.stretch, x.b.stretch);
}

#[tactic(auto, using(crate::proofs::Putting::putting), unfolding(crate::specs::Lines::refusal_fields))]
pub fn put_refused<const N: usize>(line: &mut ArrayVec<u8, N>, number: u64)
    requires { array_vec_len line.old + refusal_width ≤ N }
    ensures { Appends line.old line.new (refusal_fields number) refusal_width }
{
    put_field(line, b"refused");
    put_number(line, number);
}

pub fn put_refusal<const N: usize>(line: &mut ArrayVec<u8, N>, refusal: Refusal)
    requires { array_vec_len line.old + refusal_width ≤ N }
    ensures { Appends line.old line.new (refusal_fields (refusal_number refusal)) refusal_width }
{
    put_refused(line, u64::from(refusal));
}

// A stretch and the profile beside it.
#[tactic(auto, using(crate::proofs::Putting::putting), unfolding(crate::specs::Lines::interval_fields))]
fn put_interval<const N: usize>(line: &mut ArrayVec<u8, N>, i: Interval)
    requires { array_vec_len line.old + interval_width ≤ N }
    ensures { Appends line.old line.new (interval_fields i) interval_width }
{
    put_name(line, Kind(i.stretch));
    put_both_ends(line, i.stretch);
    put_profile_fields(line, i.profile);
}

// All that a plan holds.
#[tactic(auto, using(crate::proofs::Putting::putting), unfolding(crate::specs::Lines::full_fields))]
pub fn put_full_plan<const N: usize>(line: &mut ArrayVec<u8, N>, x: Block)
    requires { array_vec_len line.old + full_width ≤ N }
    ensures { Appends line.old line.new (full_fields x) full_width }
{
    put_field(line, b"ok");
    put_double(line, x.t_min);
    put_profile_fields(line, x.p_min);
    put_interval(line, x.a);
    put_interval(line, x.b);
}
