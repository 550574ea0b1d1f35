// A stretch as the fields of a line: the name of its kind, and its two ends.
#![tactic(auto)]

ghost use Rattle.std.specs.Prelude.{◌≡◌, ◌+◌, ◌≤◌};
ghost use Rattle.arrayvec.specs.ArrayVec.{array_vec_len};
ghost use Rattle.profile_lines.specs.Text.{Appends};
ghost use Rattle.profile_lines.specs.Fields.{double_fields};
ghost use Rattle.block.specs.Blocks.{both_ends};
ghost use Rattle.stretch_lines.specs.Kinds.{kind_of, kind_width, both_ends_width};

use arrayvec::ArrayVec;
use block::Stretch;
use profile_lines::{DOUBLE_WIDTH, Name, put_doubles};

// How many bytes each may take.
pub const KIND_WIDTH: usize = 8;

pub const BOTH_ENDS_WIDTH: usize = DOUBLE_WIDTH * 2;

// A stretch by the name of its kind.
#[derive(Clone, Copy)]
pub struct Kind(pub Stretch);

impl Name for Kind {
    ghost name_of = { λ kind. kind_of kind.0 };

    ghost width = { kind_width };

    fn name(self) -> &'static [u8] {
        match self.0 {
            Stretch::Nothing => b"nothing",
            Stretch::Between(_, _) => b"between",
            Stretch::From(_) => b"from",
        }
    }
}

// Two ends also of nothing.
pub fn put_both_ends<const N: usize>(line: &mut ArrayVec<u8, N>, s: Stretch)
    requires { array_vec_len line.old + both_ends_width ≤ N }
    ensures { Appends line.old line.new (double_fields (both_ends s)) both_ends_width }
{
    put_doubles(line, &[s.left_end(), s.right_end()]);
}

// The widths of the code are those of the definitions.
pub fn constants()
    ensures { (KIND_WIDTH ≡ kind_width) × (BOTH_ENDS_WIDTH ≡ both_ends_width) }
{}
