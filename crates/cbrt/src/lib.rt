// The cube root of a double.
#![tactic(auto)]

ghost use Rattle.std.specs.Prelude.{◌≡◌};
ghost use Rattle.elementary.specs.Functions.{cbrt_of};

// A pattern is a plain number, and its range a clause, as in sqrt (there is why): below 2^63 in two functions here, a
// normal double's in one, a finite one's above 0 in one. `cbrt` gives one number into two of the ranges.
mod candidate;
mod certificate;
mod digits;

// The double nearest to the cube root: a candidate in float arithmetic, given back where exact comparison
// certifies it, and otherwise the root by its digits.
pub fn cbrt(x: f64) -> f64
    ensures { result ≡ cbrt_of x }
{
    if x.is_nan() {
        return x;
    }
    let b = x.to_bits();
    let m = b & 0x7fff_ffff_ffff_ffff;
    if (m >= 0x10_0000_0000_0000) & (m < 0x7ff0_0000_0000_0000) {
        let root = candidate::candidate(f64::from_bits(m), m);
        if !root.is_nan() {
            if certificate::is_root(m, root.to_bits()) {
                if b == m {
                    return root;
                }
                return -root;
            }
        }
    }
    cbrt_by_digits(x)
}

// The double nearest to the cube root, one binary digit a round.
#[tactic(auto, using(bits::proofs::Patterns::not_nan_bits))]
pub fn cbrt_by_digits(x: f64) -> f64
    ensures { result ≡ cbrt_of x }
{
    if x.is_nan() {
        return x;
    }
    let b = x.to_bits();
    let m = b & 0x7fff_ffff_ffff_ffff;
    if m == 0 {
        return x;
    }
    if m >= 0x7ff0_0000_0000_0000 {
        return x;
    }
    let root = f64::from_bits(digits::root_pattern(m));
    if b == m { root } else { -root }
}
