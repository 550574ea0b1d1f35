// The numbers that stand for a real, each in its range.
ghost use Rattle.std.specs.Prelude.{◌≡◌, ◌+◌, ◌*◌, ◌<◌, ◌≤◌};

// The sign bit of a t. It is a number and no enum, since it is reckoned with: it and 1 - bit are factors of the sides
// of an equation, and bounds of exponents and limbs depend on it.
#[derive(Clone, Copy)]
pub struct Sign {
    pub bit: u64,
    ghost is_bit: { bit < 2 },
}

// The size of a t below 1 in units of 2^-128: high * 2^64 + low.
#[derive(Clone, Copy)]
pub struct Size {
    pub high: u64,
    pub low: u64,
}

// The sign bit of a t, and the e with the sine of the third from 2^-(e + 1) to 2^-e: 0 for a t below 0, and not 0 for a
// t above 0.
#[derive(Clone, Copy)]
pub struct Binade {
    pub sign: Sign,
    pub e: u64,
    ghost e_bound: { e < 28 },
    ghost some: { 1 ≤ sign.bit + e },
    ghost none: { sign.bit * e ≡ 0 },
}

// The cube root of m * 2^(107 + o).
#[derive(Clone, Copy)]
pub struct CubeRoot {
    pub m: u64,
    pub o: u64,
    ghost o_bound: { o < 3 },
}

// c * 2^54 for the cosine c of a third of the angle whose cosine is t, by the sign bit of t and its size.
#[derive(Clone, Copy)]
pub struct Cosine {
    pub sign: Sign,
    pub t: Size,
}

// s * 2^(54 + e) for the sine s of that third, by its binade, and t as before.
#[derive(Clone, Copy)]
pub struct Sine {
    pub binade: Binade,
    pub t: Size,
}
