// What the bytes of a record mean.

ghost use Rattle.std.specs.Prelude.{◌≡◌, ◌+◌, ◌≤◌};
ghost use Rattle.block_test.specs.Records.{direction_of, stretch_of, profile_at, profiles_of, selected_of, interval_at};
ghost use Rattle.block_test.specs.Records.{given_of, times_of, record_length};

use block::{Block, Interval, Stretch};
use encoding::{double_at, doubles_at};
use profile::{Direction, Profile};
use refusals::Refusal;

// A count, six profiles, a block of a double and two stretches, and four times.
pub const RECORD_LENGTH: usize = 1 + 6 * 25 + 8 + 2 * 17 + 4 * 8;

// By number: the record's byte is any number, and each that is no other case's is the last one's, so there is nothing
// that a TryFrom would refuse.
#[tactic(auto, unfolding(crate::specs::Records::direction_of))]
fn direction_of(n: u8) -> Direction
    ensures { result ≡ direction_of n }
{
    match n {
        0 => Direction::UP,
        _ => Direction::DOWN,
    }
}

#[tactic(auto, unfolding(crate::specs::Records::stretch_of))]
fn stretch_of(n: u8, left: f64, right: f64) -> Stretch
    ensures { result ≡ stretch_of n left right }
{
    match n {
        0 => Stretch::Nothing,
        1 => Stretch::Between(left, right),
        _ => Stretch::From(left),
    }
}

// The profile of the 25 bytes from `at` on, with a mark as its pf.
fn profile_at(bytes: &[u8; RECORD_LENGTH], at: usize, mark: f64) -> Profile
    requires { at + 25 ≤ record_length }
    ensures { result ≡ profile_at bytes.now at mark }
{
    let [total, brake, accel]: [f64; 3] = doubles_at(bytes, at);
    Profile {
        t_sum: [0.0, 0.0, 0.0, 0.0, 0.0, 0.0, total],
        brake,
        accel,
        pf: mark,
        direction: direction_of(bytes[at + 24]),
        ..Profile::empty()
    }
}

// The six as the definition lists them: `from_fn` would need each mark's double from the index, a conversion more.
#[tactic(auto, unfolding(crate::specs::Records::profiles_of))]
fn profiles_of(bytes: &[u8; RECORD_LENGTH]) -> [Profile; 6]
    ensures { result ≡ profiles_of bytes.now }
{
    [
        profile_at(bytes, 1, 1.0),
        profile_at(bytes, 26, 2.0),
        profile_at(bytes, 51, 3.0),
        profile_at(bytes, 76, 4.0),
        profile_at(bytes, 101, 5.0),
        profile_at(bytes, 126, 6.0),
    ]
}

// What selection answers.
#[tactic(auto, unfolding(crate::specs::Records::selected_of))]
pub fn selected_of(bytes: &[u8; RECORD_LENGTH]) -> Result<Block, Refusal>
    ensures { result ≡ selected_of bytes.now }
{
    Block::calculate_block(profiles_of(bytes), usize::from(bytes[0]))
}

#[tactic(auto, unfolding(crate::specs::Records::interval_at, encoding::specs::Encoding::doubles_at))]
fn interval_at(bytes: &[u8; RECORD_LENGTH], at: usize) -> Interval
    requires { at + 17 ≤ record_length }
    ensures { result ≡ interval_at bytes.now at }
{
    let [left, right]: [f64; 2] = doubles_at(bytes, at + 1);
    Interval {
        stretch: stretch_of(bytes[at], left, right),
        profile: Profile::empty(),
    }
}

// The block that the record has.
#[tactic(auto, unfolding(crate::specs::Records::given_of))]
pub fn given_of(bytes: &[u8; RECORD_LENGTH]) -> Block
    ensures { result ≡ given_of bytes.now }
{
    Block {
        t_min: double_at(bytes, 151),
        p_min: Profile::empty(),
        a: interval_at(bytes, 159),
        b: interval_at(bytes, 176),
    }
}

// The four times that a block is asked about.
#[tactic(auto, unfolding(encoding::specs::Encoding::doubles_at))]
pub fn times_of(bytes: &[u8; RECORD_LENGTH]) -> [f64; 4]
    ensures { result ≡ times_of bytes.now }
{
    doubles_at(bytes, 193)
}

// The length of the code is that of the definitions.
pub fn record_constants()
    ensures { RECORD_LENGTH ≡ record_length }
{}
