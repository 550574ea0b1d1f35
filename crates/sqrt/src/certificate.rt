// Whether a double, or a neighbour of it, is the nearest to a square root, by exact comparison of whole numbers.
ghost use Rattle.std.specs.Prelude.{◌≡◌, ◌+◌, ◌*◌, ◌/◌, ◌%◌, ◌^◌, ◌<◌, ◌≤◌};
ghost use Rattle.sqrt.specs.Verdicts.{verdict_of, Certified};

// What is found of a candidate: it is the nearest number, or the next one up is, or the next one down, or none of
// these. No Option of an Ordering: the four are what the definition `verdict_of` tells apart, and each has its own
// promise.
#[derive(Clone, Copy)]
pub enum Verdict {
    Nearest,
    TooLow,
    TooHigh,
    Unknown,
}

// The verdict on r as the whole number nearest to √(m * 2^52). By its upper 27 digits and its lower 26 the square of r
// is high² * 2^52 + cross * 2^27 + low². Where m and the square's part from 2^52 on are 8 or more apart, r and its
// neighbours are all too far; otherwise m * 2^52 - r² is known by its residue modulo 2^64. The excess is r more: from 1
// to 2r for the nearest.
fn judged(m: u64, r: u64) -> Verdict
    requires { (m < 2 ^ 54) × (r < 2 ^ 53) }
    ensures { result ≡ verdict_of (m * 2 ^ 52) r }
{
    let high = r >> 26;
    let low = r & 0x3ff_ffff;
    let cross = high * low;
    let top = m.wrapping_sub(high * high);
    let rest = top.wrapping_sub(cross >> 25);
    if rest.wrapping_add(8) >= 16 {
        return Verdict::Unknown;
    }
    let less = (top << 52).wrapping_sub(cross << 27);
    let excess = less.wrapping_sub(low * low).wrapping_add(r);
    if excess == 0 {
        if 1 < r {
            return Verdict::TooHigh;
        }
        return Verdict::Unknown;
    }
    if excess <= 2 * r {
        return Verdict::Nearest;
    }
    if excess <= 4 * r + 2 {
        return Verdict::TooLow;
    }
    if 0u64.wrapping_sub(excess) + 2 < 2 * r {
        return Verdict::TooHigh;
    }
    Verdict::Unknown
}

// The significand whose root is taken: with its leading digit, and doubled for an odd exponent. The digits are those of
// the fraction, and above them the parity of the exponent, which for an odd one stands where the leading digit does.
fn radicand(digits: u64) -> u64
    requires { digits < 2 ^ 53 }
    ensures { result ≡ (digits % 2 ^ 52 + 2 ^ 52) * 2 ^ (digits / 2 ^ 52) }
{
    if digits < 0x10_0000_0000_0000 {
        digits + 0x10_0000_0000_0000
    } else {
        digits + digits
    }
}

// The verdict on c as the pattern of the root of the normal double with the pattern b. The root has half the exponent
// of b, so r is what is left of c without it. Unknown costs only time: the caller then finds the digits one by one.
pub fn root_judged(b: u64, c: u64) -> Verdict
    requires { (2 ^ 52 ≤ b) × (b < 0x7ff0_0000_0000_0000) }
    ensures { Certified b c result }
{
    let biased = b + 0x3ff0_0000_0000_0000;
    let r = c.wrapping_sub(((biased >> 53) - 1) << 52);
    if r >= 0x20_0000_0000_0000 {
        return Verdict::Unknown;
    }
    judged(radicand(biased & 0x1f_ffff_ffff_ffff), r)
}
