// Records from standard input, their lines on standard output: what `plan_moves` and `plan_full` share.
#![tactic(auto)]

mod batches; // batches.rt: from the bytes of many records to the bytes of their lines
mod stream; // stream.rt: from standard input to standard output

pub use batches::{Batch, replies_to};
pub use stream::answer_records;
