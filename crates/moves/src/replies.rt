// From the bytes of a record to the bytes of its line.

ghost use Rattle.std.specs.Prelude.{◌≡◌, ◌+◌, ◌≤◌};
ghost use Rattle.arrayvec.specs.ArrayVec.{array_vec_len};
ghost use Rattle.profile_lines.specs.Text.{Appends};
ghost use Rattle.moves.specs.Records.{record_of};
ghost use Rattle.moves.specs.Lines.{line_with};
ghost use Rattle.moves.specs.Replies.{reply_of, goes_on_after};

use crate::lines::{Form, Whole, put_line};
use crate::records::read_record;
use arrayvec::ArrayVec;
use planner::plan;

// Appends the line that answers record number n, whose bytes are the input's next, and says whether another record may
// follow.
#[tactic(auto, using(crate::proofs::Putting::putting))]
pub fn put_reply<F: Form<N>, const N: usize>(
    n: u64,
    bytes: &[u8],
    line: &mut ArrayVec<u8, N>,
) -> bool
    requires { array_vec_len line.old + F.LENGTH ≤ N }
    ensures appends { Appends line.old line.new (reply_of (line_with F.plan) n (record_of bytes.now)) F.LENGTH }
    ensures goes_on_value { result ≡ goes_on_after (record_of bytes.now) }
{
    match read_record(bytes) {
        None => false,
        Some(Err(refusal)) => {
            put_line::<F, N>(line, n, Err(refusal));
            false
        }
        Some(Ok(x)) => {
            put_line::<F, N>(line, n, plan(x));
            true
        }
    }
}

// The line that answers record number n takes the place of what line had, and whether another may follow is said.
// Beside `put_reply`, which asks its caller for room: of this nothing is asked, as the vector's type has the room.
pub fn reply_to<F: Whole<N>, const N: usize>(
    n: u64,
    bytes: &[u8],
    line: &mut ArrayVec<u8, N>,
) -> bool
    ensures line_is { line.new.items ≡ reply_of (line_with F.plan) n (record_of bytes.now) }
    ensures within { array_vec_len line.new ≤ F.LENGTH }
    ensures goes_on_value { result ≡ goes_on_after (record_of bytes.now) }
{
    line.clear();
    put_reply::<F, N>(n, bytes, line)
}
