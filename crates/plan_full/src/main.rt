// Plans each move of standard input and writes a line with everything that its plan holds, as soon as its record is
// whole. The records are those of `plan_moves`; crates `moves` and `move_stream` say which bytes answer which.
#![tactic(auto)]

use move_stream::answer_records;
use moves::Full;

fn main(rt: HostRuntime) {
    answer_records::<Full, _>(&rt);
}
