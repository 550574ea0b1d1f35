// The line that answers a record: the status of planning, what the buffer holds then, and the status of asking it about
// a time.

ghost use Rattle.std.specs.Prelude.{◌≡◌, ◌+◌, ◌≤◌, length};
ghost use Rattle.arrayvec.specs.ArrayVec.{array_vec_len};
ghost use Rattle.profile_lines.specs.Text.{Appends};
ghost use Rattle.buffer_test.specs.Lines.{is_unchanged, buffer_fields, answer_of, buffer_width, line_length};
ghost use Rattle.buffer_test.specs.Records.{buffer_most};

use crate::records::BUFFER_MOST;
use arrayvec::ArrayVec;
use decimals::{DECIMAL_WIDTH, put_decimal, put_number};
use plan_buffer::{asked_number, is_blocked, plan, plan_number};
use profile_lines::{DOUBLE_WIDTH, put, put_doubles};

// Two numbers, a buffer's doubles, the space in front of the second number and a line feed.
pub const LINE_LENGTH: usize = 2 * DECIMAL_WIDTH + DOUBLE_WIDTH * BUFFER_MOST + 2;

fn is_unchanged(buffer: &[f64]) -> bool
    ensures { result ≡ is_unchanged buffer.now }
{
    buffer.iter().all(|&x| x == -1.0)
}

// The status as its number: the number is the line's first field, and what a line shows of the buffer goes by it.
#[tactic(auto, unfolding(crate::specs::Lines::buffer_fields))]
fn put_buffer(line: &mut ArrayVec<u8, LINE_LENGTH>, status: u64, buffer: &[f64])
    requires { (array_vec_len line.old + buffer_width ≤ line_length) × (length buffer.now ≤ buffer_most) }
    ensures { Appends line.old line.new (buffer_fields status buffer.now) buffer_width }
{
    if status == 0 {
        put_doubles(line, buffer);
    } else if is_unchanged(buffer) {
        put(line, b" unchanged");
    } else {
        put(line, b" changed");
    }
}

// For a move and a buffer, and a time that the buffer is asked about.
#[tactic(auto, unfolding(crate::specs::Lines::answer_of))]
pub fn answer_of(mv: &[f64], buffer: &mut [f64], t: f64) -> ArrayVec<u8, LINE_LENGTH>
    requires { length buffer.old ≤ buffer_most }
    ensures { result.items ≡ answer_of mv.now buffer.old t }
{
    let status = plan_number(plan(mv, buffer));
    let mut line = ArrayVec::new();
    put_decimal(&mut line, status);
    put_buffer(&mut line, status, buffer);
    put_number(&mut line, asked_number(is_blocked(buffer, t)));
    put(&mut line, b"\n");
    line
}

// The length of the code is that of the definitions.
pub fn line_constants()
    ensures { LINE_LENGTH ≡ line_length }
{}
