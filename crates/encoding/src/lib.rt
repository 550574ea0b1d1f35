// Doubles as bytes and as text: big-endian words, bit patterns, and hexadecimal digits.
#![tactic(auto)]

ghost use Rattle.std.specs.Prelude.{◌≡◌, ◌<◌, ◌≤◌, ◌+◌, ◌*◌, length};
ghost use Rattle.encoding.specs.Encoding.{double_at, doubles_at, hex_digit, hex_digits};

use std::num::f64_from_bits_with_nan;

// The double of the eight bytes from `at` on: std reads one from an array of eight, and none from a place.
pub fn double_at(b: &[u8], at: usize) -> f64
    requires { at + 8 ≤ length b.now }
    ensures { result ≡ double_at b.now at }
{
    let (words, _) = b[at..].as_chunks();
    f64_from_bits_with_nan(u64::from_be_bytes(words[0]))
}

// N doubles one behind the other, the first of them at `at`. By index: with `from_fn` the check doesn't find `returns`.
#[tactic(auto, using(crate::proofs::Laws::one_more), unfolding(crate::specs::Encoding::doubles_at))]
pub fn doubles_at<const N: usize>(b: &[u8], at: usize) -> [f64; N]
    requires { at + 8 * N ≤ length b.now }
    ensures { result ≡ doubles_at b.now at N }
{
    let mut doubles = [0.0; N];
    for i in 0..N {
        doubles[i] = double_at(b, at + 8 * i);
    }
    doubles
}

// The ASCII of a hexadecimal digit, in capitals, which the kit's `hex` writes into new memory only; this takes none.
#[tactic(auto, unfolding(crate::specs::Encoding::hex_digit))]
fn hex_digit(d: u8) -> u8
    requires { d < 16 }
    ensures { result ≡ hex_digit d }
{
    if d < 10 { b'0' + d } else { b'A' + (d - 10) }
}

// The sixteen hexadecimal digits of w. By index, since of what is written through `iter_mut().rev()` the library says
// nothing.
pub fn hex16(w: u64) -> [u8; 16]
    ensures { result ≡ hex_digits 16 w }
{
    let mut digits = [0; 16];
    let mut rest = w;
    for i in 0..16 {
        digits[15 - i] = hex_digit((rest % 16) as u8);
        rest /= 16;
    }
    digits
}
