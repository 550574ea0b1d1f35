// Whole numbers in decimal as text behind a line, as `profile_lines` puts it there.
#![tactic(auto)]

ghost use Rattle.std.specs.Prelude.{◌≡◌, ◌+◌, ◌≤◌};
ghost use Rattle.arrayvec.specs.ArrayVec.{array_vec_len};
ghost use Rattle.profile_lines.specs.Text.{Appends};
ghost use Rattle.profile_lines.specs.Fields.{field};
ghost use Rattle.decimals.specs.Decimal.{decimal, decimal_width, number_width};

use arrayvec::ArrayVec;
use profile_lines::put;

pub const DECIMAL_WIDTH: usize = 20;

// A number with no space in front.
#[tactic(auto, using(crate::proofs::DecimalLaws::at_most_twenty, crate::proofs::DecimalLaws::decimal_is))]
pub fn put_decimal<const N: usize>(line: &mut ArrayVec<u8, N>, n: u64)
    requires { array_vec_len line.old + decimal_width ≤ N }
    ensures { Appends line.old line.new (decimal n) decimal_width }
{
    // the library's: it fills a buffer from the front and says how many
    let mut digits = [0u8; DECIMAL_WIDTH];
    let count = io::decimal(n, &mut digits);
    put(line, &digits[..count]);
}

pub fn put_number<const N: usize>(line: &mut ArrayVec<u8, N>, n: u64)
    requires { array_vec_len line.old + number_width ≤ N }
    ensures { Appends line.old line.new (field (decimal n)) number_width }
{
    put(line, b" ");
    put_decimal(line, n);
}

// The width of the code is that of the definitions.
pub fn constants()
    ensures { DECIMAL_WIDTH ≡ decimal_width }
{}
