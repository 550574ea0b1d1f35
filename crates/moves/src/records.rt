// Reading a record: a two-byte length, a version, then the move's doubles in the order of its layout, the highest byte
// of each number first.

ghost use Rattle.std.specs.Prelude.{◌≡◌};
ghost use Rattle.moves.specs.Records.{record_body, record_length, record_version, is_malformed, Reads};

use encoding::doubles_at;
use planner::{MOVE_LENGTH, Move};
use refusals::Refusal;

// What the length says: the version and the doubles.
const RECORD_BODY: usize = 1 + 8 * MOVE_LENGTH;

pub const RECORD_LENGTH: usize = 2 + RECORD_BODY;

const RECORD_VERSION: u8 = 1;

// The input ends inside the record, or its length or version is wrong.
#[tactic(auto, unfolding(crate::specs::Records::is_malformed))]
fn is_malformed(b: &[u8]) -> bool
    ensures { result ≡ is_malformed b.now }
{
    b.len() < RECORD_LENGTH
        || usize::from(u16::from_be_bytes([b[0], b[1]])) != RECORD_BODY
        || b[2] != RECORD_VERSION
}

// The move of the record that the input's next bytes begin with. At the end of the input there is none.
#[tactic(auto, using(crate::proofs::RecordLaws::reading), unfolding(crate::specs::Records::record_of))]
pub fn read_record(b: &[u8]) -> Option<Result<Move, Refusal>>
    ensures { Reads b.now result }
{
    if b.is_empty() {
        return None;
    }
    if is_malformed(b) {
        return Some(Err(Refusal::WrongRecord));
    }
    Some(Ok(Move::from(doubles_at(b, 3))))
}

// The lengths of the code are those of the definitions.
pub fn record_constants()
    ensures record_body_value { (RECORD_BODY ≡ record_body) × (RECORD_LENGTH ≡ record_length) }
    ensures record_version_value { RECORD_VERSION ≡ record_version }
{}
