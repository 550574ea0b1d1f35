// Records from standard input and a line on standard output for each: what the test programs share.
#![tactic(auto)]

ghost use Rattle.std.specs.Prelude.{◌≡◌, ◌<◌, ◌^◌, ℕ, List, IfSome, length};
ghost use Rattle.std.specs.Io.KnownBytes.{Consumes};

use arrayvec::ArrayVec;
use std::io::Read;

// A program's records, and the line for each: at most `MOST` bytes.
pub trait Answers<const MOST: usize> {
    type Record;

    // Which bytes a record is, and which line answers it.
    ghost bytes: { Self.Record → List ℕ };

    ghost answers: { Self.Record → List ℕ → Type 0 };

    // The next record, or nothing where the input ends before its end or it is none.
    fn read<R: Read>(reader: &mut R) -> Option<Self::Record>
        ensures { IfSome result (λ x. Consumes (R.remaining reader.old) (R.remaining reader.new) (bytes x)) };

    fn line(of: Self::Record) -> ArrayVec<u8, MOST>
        ensures { answers of result.items };
}

// The next `N` bytes, or nothing where the input ends before.
pub fn read_array<R: Read, const N: usize>(reader: &mut R) -> Option<[u8; N]>
    ensures { IfSome result (λ bytes. Consumes (R.remaining reader.old) (R.remaining reader.new) bytes) }
{
    let mut array = [0; N];
    reader.read_exact(&mut array).ok()?;
    Some(array)
}

// The next `count` bytes, or nothing where the input ends before or they are more than `MOST`. A record says how many
// it has; what is read knows its own length.
pub fn read_bytes<R: Read, const MOST: usize>(
    reader: &mut R,
    count: usize,
) -> Option<ArrayVec<u8, MOST>>
    ensures length { IfSome result (λ bytes. length bytes.items ≡ count) }
    ensures bytes { IfSome result (λ bytes. Consumes (R.remaining reader.old) (R.remaining reader.new) bytes.items) }
{
    if count > MOST {
        return None;
    }
    let mut bytes = ArrayVec::from([0; MOST]);
    bytes.truncate(count);
    reader.read_exact(&mut bytes).ok()?;
    Some(bytes)
}

// Answers the records of the input in their order, up to its end or to a line that can't be written. The range only
// shows that the loop ends: no input has as many. A `while let` would need a measure, and input may have no end; the
// kit's `rt.forever()` needs a handle `Wait`, and no function of the project takes one.
pub fn answer_records<A: Answers<MOST>, R: Input + Print, const MOST: usize>(rt: &R)
    requires { MOST < 2 ^ 32 }
{
    let mut reader = rt.reader();
    for _ in 0..u64::MAX {
        let Some(record) = A::read(&mut reader) else {
            return;
        };
        if rt.write_all(&A::line(record)).is_err() {
            return;
        }
    }
}
