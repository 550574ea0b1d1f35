// A double's leading digits, for the estimates of several functions.

ghost use Rattle.std.specs.Prelude.{◌≡◌};
ghost use Rattle.doubles.specs.Splitting.{leading_digits};

// x rounded to its leading digits, by Veltkamp's splitting: 53 - k of them for the splitter 2^k + 1. Products of
// numbers of few digits are exact.
pub fn leading_digits(x: f64, splitter: f64) -> f64
    ensures { result ≡ leading_digits x splitter }
{
    let scaled = x * splitter;
    scaled - (scaled - x)
}
