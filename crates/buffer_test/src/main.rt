// Moves and plans in buffers in, what `plan_buffer` answers out, as the oracle's program `buffers` has it. A record is
// two bytes, how many doubles of the move are handed over and how many the plan's buffer has, then 16 big-endian
// doubles, the move's first, and a time. A line is the status of planning; the buffer's doubles if that is 0, else
// `unchanged` or `changed`; and the status of asking the buffer about the time.
#![tactic(auto)]

ghost use Rattle.std.specs.Prelude.{◌≡◌};
ghost use Rattle.buffer_test.specs.Lines.{line_of};

mod records; // records.rt: what the bytes of a record mean
mod lines; // lines.rt: the line that answers a record

use answering::{Answers, answer_records, read_array};
use arrayvec::ArrayVec;
use encoding::{double_at, doubles_at};
use lines::{LINE_LENGTH, answer_of};
use records::{BUFFER_MOST, MOVE_MOST, RECORD_LENGTH, TIME_AT, count_at};
use std::io::Read;

struct Buffers;

impl Answers<LINE_LENGTH> for Buffers {
    type Record = [u8; RECORD_LENGTH];

    ghost bytes = { λ b. b };

    ghost answers = { λ b text. text ≡ line_of b };

    fn read<R: Read>(reader: &mut R) -> Option<[u8; RECORD_LENGTH]> {
        read_array(reader)
    }

    #[tactic(auto, unfolding(crate::specs::Records::move_of, crate::specs::Records::buffer_of))]
    fn line(of: [u8; RECORD_LENGTH]) -> ArrayVec<u8, LINE_LENGTH> {
        let mv: [f64; MOVE_MOST] = doubles_at(&of, 2);
        let mut buffer = [-1.0; BUFFER_MOST];
        let m = count_at(&of, 0, MOVE_MOST);
        let n = count_at(&of, 1, BUFFER_MOST);
        answer_of(&mv[..m], &mut buffer[..n], double_at(&of, TIME_AT))
    }
}

fn main(rt: HostRuntime) {
    answer_records::<Buffers, _, _>(&rt);
}
