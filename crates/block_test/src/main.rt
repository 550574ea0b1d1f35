// Calls of selection and of `is_blocked` in, their answers out, as the oracle's program `blocks` has them. A record is
// a count, a byte; six profiles, each its total, brake and accel as big-endian doubles and its direction as a byte; a
// block: t_min, and for each stretch its kind, a byte, and two ends; and four times. A line is `refused` and the
// number, or `ok`, the plan's duration, the mark of its profile, and for each stretch its kind, ends and the mark of
// the profile beside it; then what `is_blocked` says of each time, for the block selected and for the block given.
#![tactic(auto)]

ghost use Rattle.std.specs.Prelude.{◌≡◌};
ghost use Rattle.block_test.specs.Lines.{line_of};

mod records; // records.rt: what the bytes of a record mean
mod lines; // lines.rt: the line that answers a record

use answering::{Answers, answer_records, read_array};
use arrayvec::ArrayVec;
use block::Block;
use lines::{LINE_LENGTH, put_answer, put_blockings};
use profile_lines::put;
use records::{RECORD_LENGTH, given_of, selected_of, times_of};
use std::io::Read;

struct Blocks;

impl Answers<LINE_LENGTH> for Blocks {
    type Record = [u8; RECORD_LENGTH];

    ghost bytes = { λ b. b };

    ghost answers = { λ b text. text ≡ line_of b };

    fn read<R: Read>(reader: &mut R) -> Option<[u8; RECORD_LENGTH]> {
        read_array(reader)
    }

    fn line(of: [u8; RECORD_LENGTH]) -> ArrayVec<u8, LINE_LENGTH> {
        let answer = selected_of(&of);
        let block = Block::of(answer);
        let times = times_of(&of);
        let mut line = ArrayVec::new();
        put_answer(&mut line, answer);
        put_blockings(&mut line, block, &times);
        put_blockings(&mut line, given_of(&of), &times);
        put(&mut line, b"\n");
        line
    }
}

fn main(rt: HostRuntime) {
    answer_records::<Blocks, _, _>(&rt);
}
