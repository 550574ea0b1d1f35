// The square root of a finite double above 0, one binary digit a round.
ghost use Rattle.std.specs.Prelude.{◌≡◌, ◌*◌, ◌^◌, ◌<◌, ◌≤◌, from_bits};
ghost use Rattle.std.specs.Float.{binary64};
ghost use Rattle.elementary.specs.Functions.{sqrt_of};
ghost use Rattle.sqrt.specs.Roots.{WholeRoot, NearestRoot};

// A square root rounded down, and the rest.
#[derive(Clone, Copy)]
pub struct Root {
    pub root: u64,
    pub rest: u64,
}

// The root of m * 2^52 rounded down. Each round brings down two binary digits and finds one of the root.
fn whole_root(m: u64) -> Root
    requires { m < 2 ^ 54 }
    ensures { WholeRoot (m * 2 ^ 52) result.root result.rest }
{
    let mut left = m << 10;
    let mut root: u64 = 0;
    let mut rest: u64 = 0;
    for _ in 0..53u64 {
        let next = rest * 4 + (left >> 62);
        left = left << 2;
        let trial = root * 4 + 1;
        if trial <= next {
            rest = next - trial;
            root = root * 2 + 1;
        } else {
            rest = next;
            root = root * 2;
        }
    }
    Root { root, rest }
}

// The whole number nearest to the root of m * 2^52.
fn nearest_root(m: u64) -> u64
    requires { (2 ^ 52 ≤ m) × (m < 2 ^ 54) }
    ensures { NearestRoot (m * 2 ^ 52) result }
{
    let r = whole_root(m);
    let root = r.root;
    if root < r.rest { root + 1 } else { root }
}

// The pattern of the square root of the finite double above 0 whose pattern is b.
pub fn root_pattern(b: u64) -> u64
    requires { (0 < b) × (b < 0x7ff0_0000_0000_0000) }
    ensures { (result < 0x7ff0_0000_0000_0000) × (from_bits binary64 result ≡ sqrt_of (from_bits binary64 b)) }
{
    let parts = bits::normalized(b);
    let exponent = parts.exponent;
    let r = nearest_root(parts.significand << (exponent & 1));
    ((exponent >> 1) << 52) + r
}
