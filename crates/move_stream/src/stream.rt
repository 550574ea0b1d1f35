// Standard input's records answered on standard output. Each record is answered as soon as it is whole: a read takes
// what is there, and the lines of all whole records are written before more is waited for.

ghost use Rattle.std.specs.Prelude.{◌≡◌, ◌-◌, ◌≤◌, None, drop};
ghost use Rattle.std.proofs.Math.Seq.{paste};

use crate::batches::replies_to;
use arrayvec::ArrayVec;
use moves::{Form, RECORD_LENGTH, put_reply};
use std::io::Read;

const BUFFER_LENGTH: usize = 65536;

// The bytes of the input that aren't answered yet, at the front of a buffer. A length beside it, since `read` fills a
// slice of bytes that are there: an ArrayVec has none beyond its length to lend.
#[derive(Drop)]
struct Unanswered {
    buffer: [u8; BUFFER_LENGTH],
    length: usize,
    // By number: BUFFER_LENGTH is not in scope in a ghost field.
    ghost within: { length ≤ 65536 },
}

impl Unanswered {
    // Reads what is there, and says whether there was any. A read that fails is as the end of the input.
    fn read_more<R: Read>(&mut self, reader: &mut R) -> bool
        ensures { self.old.length ≤ self.new.length }
    {
        match reader.read(&mut self.buffer[self.length..]) {
            Ok(count) => {
                self.length += count;
                count > 0
            }
            Err(_) => false,
        }
    }

    // Moves the bytes from index `from` on to the front.
    fn keep_rest(&mut self, from: usize)
        ensures length_value { self.new.length ≡ self.old.length - from }
        ensures moved { self.new.buffer ≡ paste self.old.buffer 0 (drop from self.old.buffer) self.new.length }
    {
        let start = from.min(self.length);
        self.buffer.copy_within(start..self.length, 0);
        self.length -= start;
    }

    // Answers its whole records, and says which number the next has if another may follow. Runtime, lines and number
    // go along one by one: the runtime is only lent and the number isn't changed, so a struct of them would take a
    // lifetime and both type parameters, for three short functions.
    fn answer<F: Form<BUFFER_LENGTH>, P: Print>(
        &mut self,
        rt: &P,
        lines: &mut ArrayVec<u8, BUFFER_LENGTH>,
        n: u64,
    ) -> Option<u64>
        ensures { self.new.length ≤ self.old.length }
    {
        lines.clear();
        let batch = replies_to::<F, BUFFER_LENGTH>(n, &self.buffer[..self.length], lines);
        rt.write_all(lines.as_slice()).ok()?;
        self.keep_rest(batch.count * RECORD_LENGTH);
        if batch.goes_on {
            Some(n + batch.count as u64)
        } else {
            None
        }
    }

    // At the end of the input: what is left is a record cut short, or nothing. No other record follows.
    fn answer_rest<F: Form<BUFFER_LENGTH>, P: Print>(
        &self,
        rt: &P,
        lines: &mut ArrayVec<u8, BUFFER_LENGTH>,
        n: u64,
    ) -> Option<u64>
        ensures { result ≡ None }
    {
        lines.clear();
        put_reply::<F, BUFFER_LENGTH>(n, &self.buffer[..self.length], lines);
        let _ = rt.write_all(lines.as_slice());
        None
    }
}

// Reads, unless a whole record is there for whose line there was no room, and answers. Says which number the next
// record has if another may follow.
fn turn<F: Form<BUFFER_LENGTH>, P: Print, R: Read>(
    rt: &P,
    reader: &mut R,
    input: &mut Unanswered,
    lines: &mut ArrayVec<u8, BUFFER_LENGTH>,
    n: u64,
) -> Option<u64> {
    if input.length < RECORD_LENGTH && !input.read_more(reader) {
        return input.answer_rest::<F, P>(rt, lines, n);
    }
    input.answer::<F, P>(rt, lines, n)
}

// The range only shows that the loop ends: no input takes as many turns. Why no `loop`: see `answering`.
pub fn answer_records<F: Form<BUFFER_LENGTH>, R: Input + Print>(rt: &R) {
    let mut reader = rt.reader();
    let mut input = Unanswered {
        buffer: [0; BUFFER_LENGTH],
        length: 0,
    };
    let mut lines = ArrayVec::new();
    let mut next = 1;
    for _ in 0..u64::MAX {
        match turn::<F, R, _>(rt, &mut reader, &mut input, &mut lines, next) {
            Some(number) => next = number,
            None => return,
        }
    }
}
