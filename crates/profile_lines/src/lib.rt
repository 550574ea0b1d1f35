// A profile as the fields of a line: direction, limits, control signs, then its doubles in the order of the profile's
// layout, as hexadecimal digits of their bits, a space in front of each.
// A line is a vector of fixed capacity: each function says which bytes it appends, and how many these may be.
#![tactic(auto)]

ghost use Rattle.std.specs.Prelude.{ℕ, ◌≡◌, ◌+◌, ◌*◌, ◌≤◌, List, length};
ghost use Rattle.arrayvec.specs.ArrayVec.{array_vec_len};
ghost use Rattle.profile_lines.specs.Text.{Appends};
ghost use Rattle.profile_lines.specs.Fields.{direction_name, limits_name, control_signs_name, field, hex};
ghost use Rattle.profile_lines.specs.Fields.{double_fields, profile_fields, double_width};
ghost use Rattle.profile_lines.specs.Fields.{direction_width, limits_width, control_signs_width};
ghost use Rattle.profile_lines.specs.Fields.{profile_width};

use arrayvec::ArrayVec;
use encoding::hex16;
use profile::{ControlSigns, Direction, Profile, ReachedLimits};
use std::num::f64_to_bits_with_nan;

// How many bytes each may take, with the space in front.
pub const DOUBLE_WIDTH: usize = 17;

pub const DIRECTION_WIDTH: usize = 5;

pub const LIMITS_WIDTH: usize = 12;

const CONTROL_SIGNS_WIDTH: usize = 5;

const NAMES_WIDTH: usize = DIRECTION_WIDTH + LIMITS_WIDTH + CONTROL_SIGNS_WIDTH;

pub const PROFILE_WIDTH: usize = NAMES_WIDTH + DOUBLE_WIDTH * profile::DOUBLES;

// What is written as one of a few names: the field of a name takes at most `width` bytes. The impls differ only in
// their names. No Display: what `write!` appends is stated for a `String`, and no line takes memory.
pub trait Name {
    ghost name_of: { Self → List ℕ };

    ghost width: { ℕ };

    fn name(self) -> &'static [u8]
        ensures name_is { result.now ≡ name_of self }
        ensures within { 1 + length result.now ≤ width };
}

impl Name for Direction {
    ghost name_of = { direction_name };

    ghost width = { direction_width };

    fn name(self) -> &'static [u8] {
        match self {
            Direction::UP => b"UP",
            Direction::DOWN => b"DOWN",
        }
    }
}

impl Name for ReachedLimits {
    ghost name_of = { limits_name };

    ghost width = { limits_width };

    fn name(self) -> &'static [u8] {
        match self {
            ReachedLimits::Acc0Acc1Vel => b"Acc0Acc1Vel",
            ReachedLimits::Vel => b"Vel",
            ReachedLimits::Acc0 => b"Acc0",
            ReachedLimits::Acc1 => b"Acc1",
            ReachedLimits::Acc0Acc1 => b"Acc0Acc1",
            ReachedLimits::Acc0Vel => b"Acc0Vel",
            ReachedLimits::Acc1Vel => b"Acc1Vel",
            ReachedLimits::None => b"None",
        }
    }
}

impl Name for ControlSigns {
    ghost name_of = { control_signs_name };

    ghost width = { control_signs_width };

    fn name(self) -> &'static [u8] {
        match self {
            ControlSigns::UDDU => b"UDDU",
            ControlSigns::UDUD => b"UDUD",
        }
    }
}

// Text as it stands.
pub fn put<const N: usize>(line: &mut ArrayVec<u8, N>, text: &[u8])
    requires { array_vec_len line.old + length text.now ≤ N }
    ensures { Appends line.old line.new text.now (length text.now) }
{
    let _ = line.try_extend_from_slice(text);
}

// Text with a space in front.
pub fn put_field<const N: usize>(line: &mut ArrayVec<u8, N>, text: &[u8])
    requires { array_vec_len line.old + (1 + length text.now) ≤ N }
    ensures { Appends line.old line.new (field text.now) (1 + length text.now) }
{
    put(line, b" ");
    put(line, text);
}

pub fn put_name<T: Name, const N: usize>(line: &mut ArrayVec<u8, N>, value: T)
    requires { array_vec_len line.old + T.width ≤ N }
    ensures { Appends line.old line.new (field (T.name_of value)) T.width }
{
    put_field(line, value.name());
}

// A double's digits.
#[tactic(auto, unfolding(crate::specs::Fields::hex))]
pub fn hex(x: f64) -> [u8; 16]
    ensures { result ≡ hex x }
{
    hex16(f64_to_bits_with_nan(x))
}

// A double's digits with a space in front.
pub fn put_double<const N: usize>(line: &mut ArrayVec<u8, N>, x: f64)
    requires { array_vec_len line.old + double_width ≤ N }
    ensures { Appends line.old line.new (field (hex x)) double_width }
{
    put_field(line, &hex(x));
}

#[tactic(auto, unfolding(crate::specs::Fields::double_fields))]
pub fn put_doubles<const N: usize>(line: &mut ArrayVec<u8, N>, doubles: &[f64])
    requires { array_vec_len line.old + double_width * length doubles.now ≤ N }
    ensures { Appends line.old line.new (double_fields doubles.now) (double_width * length doubles.now) }
{
    for &x in doubles {
        put_double(line, x);
    }
}

#[tactic(auto, unfolding(crate::specs::Fields::profile_fields, crate::specs::Fields::name_fields))]
pub fn put_profile_fields<const N: usize>(line: &mut ArrayVec<u8, N>, q: Profile)
    requires { array_vec_len line.old + profile_width ≤ N }
    ensures { Appends line.old line.new (profile_fields q) profile_width }
{
    put_name(line, q.direction);
    put_name(line, q.limits);
    put_name(line, q.control_signs);
    put_doubles(line, &q.doubles());
}

// The widths of the code are those of the definitions.
pub fn constants()
    ensures direction_width_value { (DIRECTION_WIDTH ≡ direction_width) × (LIMITS_WIDTH ≡ limits_width) }
    ensures double_width_value { (DOUBLE_WIDTH ≡ double_width) × (PROFILE_WIDTH ≡ profile_width) }
{}
