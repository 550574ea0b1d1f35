// A t that is neither near 0 nor from 1 on in size.
ghost use Rattle.std.specs.Prelude.{◌<◌, ◌≤◌};

use algebraic::Sign;

// The sign bit of t, and the pattern of its magnitude, from 2^-55 up to 1.
#[derive(Clone, Copy)]
pub struct Pattern {
    pub sign: Sign,
    pub m: u64,
    ghost least: { 0x3c80_0000_0000_0000 ≤ m },
    ghost below: { m < 0x3ff0_0000_0000_0000 },
}
