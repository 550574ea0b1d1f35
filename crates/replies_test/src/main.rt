// What is left of inputs in, how `plan_moves` answers the first record of each out, as the oracle's program `replies`
// has it. A record is a byte, and as many bytes as it says. A line is `goes on` or `ends`, and the reply's own line if
// it has one.
#![tactic(auto)]

ghost use Rattle.std.specs.Prelude.{◌≡◌, ◌+◌, ◌≤◌, ◌∷◌, length};
ghost use Rattle.arrayvec.specs.ArrayVec.{array_vec_len};
ghost use Rattle.profile_lines.specs.Text.{Appends};
ghost use Rattle.replies_test.specs.Lines.{word_of, rest_of, answer_of, word_width, answer_width};

use answering::{Answers, answer_records, read_array, read_bytes};
use arrayvec::ArrayVec;
use moves::{LINE_LENGTH, Short, reply_to};
use profile_lines::{put, put_field};
use std::io::Read;

// The word, a space and the reply's line.
const ANSWER_WIDTH: usize = 7 + 1 + LINE_LENGTH;

#[tactic(auto, unfolding(crate::specs::Lines::word_of))]
fn put_word<const N: usize>(line: &mut ArrayVec<u8, N>, goes_on: bool)
    requires { array_vec_len line.old + word_width ≤ N }
    ensures { Appends line.old line.new (word_of goes_on) word_width }
{
    if goes_on {
        put(line, b"goes on");
    } else {
        put(line, b"ends");
    }
}

#[tactic(auto, unfolding(crate::specs::Lines::rest_of))]
fn put_rest<const N: usize>(line: &mut ArrayVec<u8, N>, reply: &[u8])
    requires { array_vec_len line.old + (length reply.now + 1) ≤ N }
    ensures { Appends line.old line.new (rest_of reply.now) (length reply.now + 1) }
{
    if reply.is_empty() {
        put(line, b"\n");
    } else {
        put_field(line, reply);
    }
}

// What is left of an input.
struct Left;

impl Answers<ANSWER_WIDTH> for Left {
    type Record = ArrayVec<u8, 255>;

    ghost bytes = { λ b. length b.items ∷ b.items };

    ghost answers = { λ b text. text ≡ answer_of b.items };

    fn read<R: Read>(reader: &mut R) -> Option<ArrayVec<u8, 255>> {
        let [count]: [u8; 1] = read_array(reader)?;
        read_bytes(reader, usize::from(count))
    }

    #[tactic(auto, unfolding(crate::specs::Lines::answer_of))]
    fn line(of: ArrayVec<u8, 255>) -> ArrayVec<u8, ANSWER_WIDTH> {
        let mut reply = ArrayVec::new();
        let goes_on = reply_to::<Short, LINE_LENGTH>(1, &of, &mut reply);
        let mut line = ArrayVec::new();
        put_word(&mut line, goes_on);
        put_rest(&mut line, &reply);
        line
    }
}

// The width of the code is that of the definitions.
fn constants()
    ensures { ANSWER_WIDTH ≡ answer_width }
{}

fn main(rt: HostRuntime) {
    answer_records::<Left, _, _>(&rt);
}
