// Calls of `check` in, its answers out, as the oracle's program `checks` has them. A record is 18 big-endian doubles
// (start, target, seven times, the jerk, v_max, v_min, a_max, a_min), then limits, control signs and `set_limits`, a
// byte each. A line is `no`, or `yes` and the profile: direction, limits, control signs, then its doubles as
// hexadecimal digits of their bits.
#![tactic(auto)]

ghost use Rattle.std.specs.Prelude.{◌≡◌};
ghost use Rattle.profile_test.specs.Lines.{line_of};

use answering::{Answers, answer_records, read_array};
use arrayvec::ArrayVec;
use profile_lines::{PROFILE_WIDTH, put, put_profile_fields};
use records::checked_of;
use std::io::Read;

mod records; // records.rt: what the bytes of a record mean

// The longest line: yes, the profile and a line feed.
const LINE_LENGTH: usize = 3 + PROFILE_WIDTH + 1;

struct Checks;

impl Answers<LINE_LENGTH> for Checks {
    type Record = [u8; 147];

    ghost bytes = { λ b. b };

    ghost answers = { λ b text. text ≡ line_of b };

    fn read<R: Read>(reader: &mut R) -> Option<[u8; 147]> {
        read_array(reader)
    }

    #[tactic(auto, unfolding(crate::specs::Lines::answer_of))]
    fn line(of: [u8; 147]) -> ArrayVec<u8, LINE_LENGTH> {
        let mut line = ArrayVec::new();
        match checked_of(&of) {
            Ok(profile) => {
                put(&mut line, b"yes");
                put_profile_fields(&mut line, profile);
                put(&mut line, b"\n");
            }
            Err(_) => put(&mut line, b"no\n"),
        }
        line
    }
}

fn main(rt: HostRuntime) {
    answer_records::<Checks, _, _>(&rt);
}
