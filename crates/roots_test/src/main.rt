// Reads the coefficients of quartics, four big-endian doubles each, and writes a line for each: how many roots it has
// that are at least 0, and the roots in reading order by the hexadecimal digits of their bits, as the oracle's program
// `quartics` has them. oracle/tools/make_stored.py makes the stored input and output.
#![tactic(auto)]

ghost use Rattle.std.specs.Prelude.{◌≡◌, ◌+◌, ◌≤◌, take};
ghost use Rattle.arrayvec.specs.ArrayVec.{array_vec_len};
ghost use Rattle.profile_lines.specs.Text.{Appends};
ghost use Rattle.profile_lines.specs.Fields.{double_fields};
ghost use Rattle.roots_test.specs.Lines.{roots_of, line_of};

use answering::{Answers, answer_records, read_array};
use arrayvec::ArrayVec;
use decimals::put_decimal;
use encoding::doubles_at;
use profile_lines::{put, put_doubles};
use roots::{Roots, solve_quart_monic_coeffs};
use std::io::Read;

// The roots of the record's quartic, in reading order.
#[tactic(auto, unfolding(crate::specs::Lines::roots_of, encoding::specs::Encoding::doubles_at))]
fn roots_of(bytes: &[u8; 32]) -> Roots
    ensures { result ≡ roots_of bytes.now }
{
    let [a, b, c, d]: [f64; 4] = doubles_at(bytes, 0);
    solve_quart_monic_coeffs(a, b, c, d).ascending()
}

fn put_roots(line: &mut ArrayVec<u8, 89>, list: Roots)
    requires { array_vec_len line.old + 68 ≤ 89 }
    ensures { Appends line.old line.new (double_fields (take list.count list.values)) 68 }
{
    put_doubles(line, list.as_slice());
}

struct Quartics;

impl Answers<89> for Quartics {
    type Record = [u8; 32];

    ghost bytes = { λ b. b };

    ghost answers = { λ b text. text ≡ line_of b };

    fn read<R: Read>(reader: &mut R) -> Option<[u8; 32]> {
        read_array(reader)
    }

    #[tactic(auto, unfolding(crate::specs::Lines::answer_of))]
    fn line(of: [u8; 32]) -> ArrayVec<u8, 89> {
        let list = roots_of(&of);
        let mut line = ArrayVec::new();
        put_decimal(&mut line, list.count as u64);
        put_roots(&mut line, list);
        put(&mut line, b"\n");
        line
    }
}

fn main(rt: HostRuntime) {
    answer_records::<Quartics, _, _>(&rt);
}
