// The line that answers a record: what selection answers, and what `is_blocked` says of four times.

ghost use Rattle.std.specs.Prelude.{◌≡◌, ◌+◌, ◌*◌, ◌≤◌, length};
ghost use Rattle.arrayvec.specs.ArrayVec.{array_vec_len};
ghost use Rattle.profile_lines.specs.Text.{Appends};
ghost use Rattle.profile_lines.specs.Fields.{field};
ghost use Rattle.block_test.specs.Lines.{interval_fields, block_text, answer_text, blocking_name, blocking_fields};
ghost use Rattle.block_test.specs.Lines.{interval_width, answer_width, blocking_width, line_length};

use arrayvec::ArrayVec;
use block::{Block, Interval};
use decimals::put_number;
use profile_lines::{hex, put, put_field, put_name};
use refusals::Refusal;
use stretch_lines::{Kind, put_both_ends};

// An answer, what is said of four times for each of two blocks, and a line feed.
pub const LINE_LENGTH: usize = 154 + 2 * 4 * 10 + 1;

// A stretch and the mark of the profile beside it.
#[tactic(auto, unfolding(crate::specs::Lines::interval_fields))]
fn put_interval(line: &mut ArrayVec<u8, LINE_LENGTH>, i: Interval)
    requires { array_vec_len line.old + interval_width ≤ line_length }
    ensures { Appends line.old line.new (interval_fields i) interval_width }
{
    put_name(line, Kind(i.stretch));
    put_both_ends(line, i.stretch);
    put_field(line, &hex(i.profile.pf));
}

#[tactic(auto, unfolding(crate::specs::Lines::block_text))]
fn put_block(line: &mut ArrayVec<u8, LINE_LENGTH>, x: Block)
    requires { array_vec_len line.old + answer_width ≤ line_length }
    ensures { Appends line.old line.new (block_text x) answer_width }
{
    put(line, b"ok");
    put_field(line, &hex(x.t_min));
    put_field(line, &hex(x.p_min.pf));
    put_interval(line, x.a);
    put_interval(line, x.b);
}

#[tactic(auto, unfolding(crate::specs::Lines::answer_text))]
pub fn put_answer(line: &mut ArrayVec<u8, LINE_LENGTH>, x: Result<Block, Refusal>)
    requires { array_vec_len line.old + answer_width ≤ line_length }
    ensures { Appends line.old line.new (answer_text x) answer_width }
{
    match x {
        Ok(block) => put_block(line, block),
        Err(refusal) => {
            put(line, b"refused");
            put_number(line, u64::from(refusal));
        }
    }
}

// Refusal 6 is the only one that `is_blocked` gives, and the definition has its text: `put_number` would ask room for a
// number of 20 digits in each of the eight fields.
fn put_blocking(line: &mut ArrayVec<u8, LINE_LENGTH>, x: Result<bool, Refusal>)
    requires { array_vec_len line.old + blocking_width ≤ line_length }
    ensures { Appends line.old line.new (field (blocking_name x)) blocking_width }
{
    match x {
        Ok(true) => put(line, b" blocked"),
        Ok(false) => put(line, b" free"),
        Err(_) => put(line, b" refused 6"),
    }
}

// What `is_blocked` says of each time.
pub fn put_blockings(line: &mut ArrayVec<u8, LINE_LENGTH>, x: Block, times: &[f64])
    requires { array_vec_len line.old + blocking_width * length times.now ≤ line_length }
    ensures { Appends line.old line.new (blocking_fields x times.now) (blocking_width * length times.now) }
{
    for &t in times {
        put_blocking(line, x.is_blocked(t));
    }
}

// The length of the code is that of the definitions.
pub fn line_constants()
    ensures { LINE_LENGTH ≡ line_length }
{}
