// Calls of single families in, the profiles that they add out, as the oracle's program `families` has them. A record is
// a move's 13 big-endian doubles, then a byte each for the family, the direction, `return_after_found` and how many
// profiles the list counts already. A line is how many profiles were added, and each of them.
// There is one search, and a family is some of its stages. Those of a family with `return_after_found`, and those of a
// two-step family, are entered only where no profile counts: plans call them nowhere else, and stored records have a
// count of 0 with them. Where some count such a family adds none.
// oracle/tools/make_stored.py makes the stored input and output.

#![tactic(auto)]

ghost use Rattle.std.specs.Prelude.{◌≡◌};
ghost use Rattle.families_test.specs.Lines.{line_of};

mod records; // records.rt: what the bytes of a record mean
mod lines; // lines.rt: the line that answers a record

use answering::{Answers, answer_records, read_array};
use arrayvec::ArrayVec;
use lines::{LINE_LENGTH, added_line, single_line};
use records::{after_family, has_line, list_of, single_step};
use std::io::Read;

struct Families;

impl Answers<LINE_LENGTH> for Families {
    type Record = [u8; 108];

    ghost bytes = { λ b. b };

    ghost answers = { λ b text. text ≡ line_of b };

    fn read<R: Read>(reader: &mut R) -> Option<[u8; 108]> {
        let bytes: [u8; 108] = read_array(reader)?;
        if has_line(&bytes) { Some(bytes) } else { None }
    }

    #[tactic(auto, unfolding(crate::specs::Lines::line_of))]
    fn line(of: [u8; 108]) -> ArrayVec<u8, LINE_LENGTH> {
        if of[104] == 7 {
            return single_line(single_step(&of));
        }
        let counted = usize::from(of[107]);
        if counted > 5 {
            return ArrayVec::new();
        }
        added_line(after_family(&of, list_of(&of, counted)), counted)
    }
}

fn main(rt: HostRuntime) {
    answer_records::<Families, _, _>(&rt);
}
