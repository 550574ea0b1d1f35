// Reads doubles of eight bytes, the highest first, and writes a line for each: its square root, its cube root, and the
// cosine and the sine of a third of the angle whose cosine it is, as hexadecimal digits of their bits.
// tools/elementary_vectors.py makes the stored input and output.
#![tactic(auto)]

ghost use Rattle.std.specs.Prelude.{◌≡◌};
ghost use Rattle.elementary_test.specs.Lines.{line_of};

use answering::{Answers, answer_records, read_array};
use arrayvec::ArrayVec;
use encoding::double_at;
use profile_lines::{hex, put, put_doubles};
use std::io::Read;

struct Functions;

impl Answers<68> for Functions {
    type Record = [u8; 8];

    ghost bytes = { λ b. b };

    ghost answers = { λ b text. text ≡ line_of b };

    fn read<R: Read>(reader: &mut R) -> Option<[u8; 8]> {
        read_array(reader)
    }

    #[tactic(auto, unfolding(crate::specs::Lines::answer_of))]
    fn line(of: [u8; 8]) -> ArrayVec<u8, 68> {
        let x = double_at(&of, 0);
        let pair = third_angle_pair::third_angle_pair(x);
        let mut line = ArrayVec::new();
        put(&mut line, &hex(sqrt::sqrt(x)));
        put_doubles(&mut line, &[cbrt::cbrt(x), pair.cos, pair.sin]);
        put(&mut line, b"\n");
        line
    }
}

fn main(rt: HostRuntime) {
    answer_records::<Functions, _, _>(&rt);
}
