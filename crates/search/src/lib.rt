// One search for every move: it walks the stages of the move and the slots of each stage, puts each try to the check,
// and adds those that are accepted to the list. Start, target, constants, limits and the list go in by value; the list
// is changed in place inside, and comes back.
#![tactic(auto)]

ghost use Rattle.std.specs.Prelude.{◌≡◌, cond, ◌-◌};
ghost use Rattle.position_third_step1.specs.CheckTree.{found};
ghost use Rattle.search.specs.Stages.{stages_from, search_of};

mod choices; // choices.rt: the conditions by which families and directions are chosen
mod stages; // stages.rt: the stages of a move

use candidates::{Candidates, passes, profile_of};
pub use choices::has_zero_limit;
use phase_times::constants::Constants;
use position_third_step1::{Family, Shared, shared, slot_count, slot_holds, slot_times, try_by};
use profile::{Limits, Start, Target};
pub use stages::{Kind, Stage, Way, kind_of, stage_count};
use stages::{limits_for, stage_at};
use std::ops::Range;

// The slot after a success: where a stage stops there is none. `stops` is the stage's flag, handed on.
fn slot_after(stops: bool, count: usize, next: usize) -> usize
    ensures { result ≡ cond stops count next }
{
    if stops { count } else { next }
}

// At most five profiles count; the sixth slot is scratch.
const SLOTS: usize = 6;

const COUNTED: usize = 5;

// The list after these stages of a kind. A turn enters a stage or tries a slot: two loops, one in the other, took 2.00
// to 2.05 times the Rust's time, and this 1.58 to 1.66 (entry 59 of docs/DECISIONS.md; unproved, by an older kit). A
// profile is added here: a function that takes the list and gives it back took 1.57 to 1.64, and this 1.41 to 1.54 (as
// there), and none takes `&mut Candidates`, since document 01 has the list go in by value and come back.
pub fn search(
    c: Candidates,
    start: Start,
    target: Target,
    k: Constants,
    m: Limits,
    kind: Kind,
    stages: Range<usize>,
) -> Candidates
    ensures { result ≡ found (search_of start target k m (stages_from kind stages.start (stages.end - stages.start)) c) }
{
    let mut d = c;
    let mut n = stages.start;
    let to = stages.end;
    let mut family = Family::None;
    let mut w = m;
    let mut stops = false;
    let mut s = Shared::numbers(0.0, 0.0, 0.0, 0.0);
    let mut count: usize = 0;
    let mut i: usize = 0;
    while (i < count) | (n < to) {
        if i >= count {
            let stage = stage_at(kind, n);
            if stage.guarded & (d.current_index > 0) {
                return d;
            }
            family = stage.family;
            let way = stage.way;
            w = limits_for(way, k, m);
            stops = stage.stops;
            s = shared(family, start, target, k, w);
            count = slot_count(family, start, target, k, w, s);
            i = 0;
            n += 1;
            continue;
        }
        let slot = i;
        i += 1;
        if !slot_holds(family, start, target, k, w, s, slot) {
            continue;
        }
        let t = slot_times(family, start, target, k, w, s, slot);
        let x = try_by(family, start, target, w, t);
        if !passes(x) {
            continue;
        }
        i = slot_after(stops, count, i);
        let at = d.current_index;
        if at < SLOTS {
            let current = d.valid_profiles[at];
            let profile = profile_of(current.brake, current.accel, x);
            d.valid_profiles[at] = profile;
            if at < COUNTED {
                let next = at + 1;
                let beyond = d.valid_profiles[next];
                d.valid_profiles[next] = beyond.with_boundary_from_profile(profile);
                d.current_index = next;
            }
        }
    }
    d
}
