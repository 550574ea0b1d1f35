// From the bytes of many records to the bytes of their lines.

ghost use Rattle.moves.specs.Lines.{line_with};
ghost use Rattle.move_stream.specs.Batches.{Answered};

use arrayvec::ArrayVec;
use moves::{Form, RECORD_LENGTH, put_reply};

// How many records are answered, and whether another may follow these. Both at once: the count says which bytes are
// done with, also where nothing may follow, so an Option of it would lose it.
#[derive(Clone, Copy)]
pub struct Batch {
    pub count: usize,
    pub goes_on: bool,
}

// Answers the whole records that bytes begin with, numbered from n, while there is room for the longest line.
// The count is added up by hand since it is the result too: what `enumerate` counts is gone when the loop ends.
pub fn replies_to<F: Form<N>, const N: usize>(
    n: u64,
    bytes: &[u8],
    lines: &mut ArrayVec<u8, N>,
) -> Batch
    ensures { Answered (line_with F.plan) F.LENGTH N n bytes.now lines.old lines.new result }
{
    let mut batch = Batch {
        count: 0,
        goes_on: true,
    };
    let (records, _) = bytes.as_chunks::<RECORD_LENGTH>();
    for record in records {
        if !batch.goes_on
            || lines.remaining_capacity() < F::LENGTH
            || u64::MAX - n <= batch.count as u64
        {
            return batch;
        }
        batch.goes_on = put_reply::<F, N>(n + batch.count as u64, record, lines);
        batch.count += 1;
    }
    batch
}
