// Why there is no answer: the refusals of documents 01 and 02, each with its number.
#![tactic(auto)]

ghost use Rattle.std.specs.Prelude.{◌≡◌};
ghost use Rattle.refusals.specs.Numbers.{refusal_number};

// Each refusal with its number: 1 to 8 of document 01, 9 and 10 of A1 in document 02.
#[derive(Clone, Copy, Debug, PartialEq, Eq)]
pub enum Refusal {
    NotFinite = 1,
    WrongSign = 2,
    WrongDuration = 3,
    NoProfile = 4,
    NoRemoval = 5,
    TimeNotFinite = 6,
    TooManyProfiles = 7,
    WrongRecord = 8,
    WrongAxes = 9,
    NeverFree = 10,
}

impl From<Refusal> for u64 {
    ghost from_gives = { λ refusal number. number ≡ refusal_number refusal };

    fn from(refusal: Refusal) -> u64 {
        refusal as u64
    }
}
