// Moves as bytes and answers as text: the records and lines of the programs `plan_moves` and `plan_full`.
#![tactic(auto)]

mod records; // records.rt: reading a record
mod fields; // fields.rt: the fields of a line that aren't a profile's
mod lines; // lines.rt: the line of an answer
mod replies; // replies.rt: from the bytes of a record to the bytes of its line

pub use lines::{FULL_LINE_LENGTH, Form, Full, LINE_LENGTH, Short, Whole, line, refused_line};
pub use records::{RECORD_LENGTH, read_record};
pub use replies::{put_reply, reply_to};
