// Shortest durations and stretch ends of several axes in, what `arrival` answers out, as the oracle's program
// `arrivals` has it. A record is two bytes, how many durations and how many ends, then these as big-endian doubles. A
// line is `ok`, the time and the axis, or `refused` and the number. The input ends at a record that isn't whole or has
// too many doubles. oracle/tools/make_stored.py makes the stored input and output.
#![tactic(auto)]

ghost use Rattle.std.specs.Prelude.{◌≡◌, ◌+◌, ◌*◌, ◌≤◌, length, take, drop};
ghost use Rattle.arrayvec.specs.ArrayVec.{array_vec_len};
ghost use Rattle.profile_lines.specs.Text.{Appends};
ghost use Rattle.arrival_test.specs.Lines.{doubles_of, record_of, text_of, text_width};
ghost use Rattle.arrival_test.specs.Lines.{Answers as AnswersAs};

use answering::{Answers, answer_records, read_array, read_bytes};
use arrayvec::ArrayVec;
use arrival::{Arrival, arrival};
use decimals::{DECIMAL_WIDTH, put_number};
use encoding::double_at;
use profile_lines::{DOUBLE_WIDTH, hex, put, put_field};
use refusals::Refusal;
use std::io::Read;

// The most durations and the most ends of a record.
const DURATIONS_MOST: usize = 10;

const ENDS_MOST: usize = 40;

const DOUBLES_BYTES: usize = 8 * (DURATIONS_MOST + ENDS_MOST);

// `ok`, a double, a number with a space in front, and a line feed.
const LINE_LENGTH: usize = 2 + DOUBLE_WIDTH + 1 + DECIMAL_WIDTH + 1;

// How many durations there are and how many ends, and the bytes of these. In a ghost field the constants have no name.
#[derive(Drop)]
struct Given {
    durations: u8,
    ends: u8,
    bytes: ArrayVec<u8, DOUBLES_BYTES>,
    ghost most: { (durations ≤ 10) × (ends ≤ 40) },
    ghost whole: { length bytes.items ≡ 8 * durations + 8 * ends },
}

// As many doubles as there are bytes for: `doubles_at` reads a number that is known.
#[tactic(auto, unfolding(encoding::specs::Encoding::doubles_at))]
fn doubles_of<const N: usize>(bytes: &[u8]) -> ArrayVec<f64, N>
    requires { length bytes.now ≤ 8 * N }
    ensures { result.items ≡ doubles_of bytes.now }
{
    let mut doubles = ArrayVec::new();
    for i in 0..bytes.len() / 8 {
        doubles.push(double_at(bytes, 8 * i));
    }
    doubles
}

fn put_arrival(line: &mut ArrayVec<u8, LINE_LENGTH>, answer: Result<Arrival, Refusal>)
    requires { array_vec_len line.old + text_width ≤ LINE_LENGTH }
    ensures { Appends line.old line.new (text_of answer) text_width }
{
    match answer {
        Ok(arrival) => {
            put(line, b"ok");
            put_field(line, &hex(arrival.time));
            put_number(line, arrival.axis);
        }
        Err(refusal) => {
            put(line, b"refused");
            put_number(line, u64::from(refusal));
        }
    }
}

struct Arrivals;

impl Answers<LINE_LENGTH> for Arrivals {
    type Record = Given;

    ghost bytes = { λ x. record_of x.durations x.ends x.bytes.items };

    ghost answers = { λ x text. AnswersAs (take (8 * x.durations) x.bytes.items) (drop (8 * x.durations) x.bytes.items) text };

    // Both counts are judged before more is read, and all doubles are read at once.
    fn read<R: Read>(reader: &mut R) -> Option<Given> {
        let [durations, ends]: [u8; 2] = read_array(reader)?;
        let (n, m) = (usize::from(durations), usize::from(ends));
        if n > DURATIONS_MOST || m > ENDS_MOST {
            return None;
        }
        let bytes = read_bytes(reader, 8 * n + 8 * m)?;
        Some(Given {
            durations,
            ends,
            bytes,
        })
    }

    fn line(of: Given) -> ArrayVec<u8, LINE_LENGTH> {
        let (durations, ends) = of.bytes.split_at(8 * usize::from(of.durations));
        let durations = doubles_of::<DURATIONS_MOST>(durations);
        let ends = doubles_of::<ENDS_MOST>(ends);
        let mut line = ArrayVec::new();
        put_arrival(&mut line, arrival(&durations, &ends));
        put(&mut line, b"\n");
        line
    }
}

fn main(rt: HostRuntime) {
    answer_records::<Arrivals, _, _>(&rt);
}
