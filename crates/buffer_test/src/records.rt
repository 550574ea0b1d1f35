// What the bytes of a record mean.

ghost use Rattle.std.specs.Prelude.{◌≡◌, ◌≤◌, ◌<◌, min, length, get_or};
ghost use Rattle.buffer_test.specs.Records.{move_most, buffer_most, time_at, record_length};

// The most doubles of a move that are handed over, and the most that a buffer has.
pub const MOVE_MOST: usize = 16;

pub const BUFFER_MOST: usize = 200;

// Where the time stands, and how long a record is.
pub const TIME_AT: usize = 2 + 8 * MOVE_MOST;

pub const RECORD_LENGTH: usize = TIME_AT + 8;

// The byte at an index as a number, at most `most`.
pub fn count_at(bytes: &[u8; RECORD_LENGTH], at: usize, most: usize) -> usize
    requires { at < record_length }
    ensures { (result ≡ min (get_or bytes.now at 0) most) × (result ≤ most) }
{
    usize::from(bytes[at]).min(most)
}

// The numbers of the code are those of the definitions.
pub fn record_constants()
    ensures move_most_value { (MOVE_MOST ≡ move_most) × (BUFFER_MOST ≡ buffer_most) }
    ensures time_at_value { (TIME_AT ≡ time_at) × (RECORD_LENGTH ≡ record_length) }
{}
