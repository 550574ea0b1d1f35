// Plans each move of standard input and writes a line for it, as soon as its record is whole. The records and the lines
// are document 01's; crates `moves` and `move_stream` say which bytes answer which.
#![tactic(auto)]

use move_stream::answer_records;
use moves::Short;

fn main(rt: HostRuntime) {
    if rt.write_all(b"plan 1\n").is_ok() {
        answer_records::<Short, _>(&rt);
    }
}
