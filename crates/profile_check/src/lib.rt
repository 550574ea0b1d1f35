// The check. A try that it refuses writes no profile: `accepts` says whether, and `filled` fills the profile in.
#![tactic(auto)]

ghost use Rattle.std.specs.Prelude.{◌≡◌, false};
ghost use Rattle.profile_check.specs.Check.{accepted, filled, checked, passed, profile_after};

mod conditions; // conditions.rt: the conditions of the check

use conditions::{end_passes, phases_pass, rows_pass, sum_passes, times_pass, zeros_pass};
use profile::{ControlSigns, Limits, Profile, ReachedLimits, Start, Target};
use profile_rows::{jerks_of, rows_of, sums_of};

// What the Rust's `check` takes beside a profile. With `set_limits` it stores a limit as a row's acceleration.
#[derive(Clone, Copy)]
pub struct Terms {
    pub control_signs: ControlSigns,
    pub reached: ReachedLimits,
    pub set_limits: bool,
    pub jf: f64,
    pub limits: Limits,
}

// Whether the times t, from the start, meet every condition of the check. The cheapest and most telling come first.
#[tactic(auto, using(crate::proofs::CheckLaws::tested))]
pub fn accepts(start: Start, target: Target, t: [f64; 7], x: Terms) -> bool
    ensures { result ≡ accepted start target t x.control_signs x.reached x.set_limits x.jf x.limits }
{
    if !times_pass(t) {
        return false;
    }
    if !(phases_pass(x.reached, t) & sum_passes(Profile::T_MAX, t)) {
        return false;
    }
    let j = jerks_of(x.control_signs, t, x.jf);
    let b = x.limits.bounds();
    let rows = rows_of(start, t, j, x.reached, x.set_limits, x.limits);
    if !rows_pass(&rows, b) {
        return false;
    }
    if !end_passes(&rows, target) {
        return false;
    }
    zeros_pass(&rows, j, b)
}

// The boundary of q with the times t and what the check fills in.
#[tactic(auto, unfolding(crate::specs::Check::filled))]
pub fn filled(q: Profile, t: [f64; 7], x: Terms) -> Profile
    ensures { result ≡ filled q t x.control_signs x.reached x.set_limits x.jf x.limits }
{
    let t_sum = sums_of(t);
    let j = jerks_of(x.control_signs, t, x.jf);
    let rows = rows_of(q.start(), t, j, x.reached, x.set_limits, x.limits);
    let a = rows.a;
    let v = rows.v;
    let p = rows.p;
    let direction = x.limits.direction();
    Profile {
        t,
        t_sum,
        j,
        a,
        v,
        p,
        limits: x.reached,
        direction,
        control_signs: x.control_signs,
        ..q
    }
}

// The profile with what the check fills in, where it is accepted.
#[tactic(auto, unfolding(crate::specs::Check::checked))]
pub fn check(q: Profile, x: Terms) -> Option<Profile>
    ensures answers { result ≡ passed (checked q x.control_signs x.reached x.set_limits x.jf x.limits) }
    ensures leaves { profile_after q result ≡
        (checked q x.control_signs x.reached x.set_limits x.jf x.limits).profile }
{
    if accepts(q.start(), q.target(), q.t, x) {
        Some(filled(q, q.t, x))
    } else {
        None
    }
}

// The check that stores no limit as an acceleration.
pub fn check_with_timing(
    q: Profile,
    control_signs: ControlSigns,
    reached: ReachedLimits,
    jf: f64,
    limits: Limits,
) -> Option<Profile>
    ensures answers { result ≡ passed (checked q control_signs reached false jf limits) }
    ensures leaves { profile_after q result ≡ (checked q control_signs reached false jf limits).profile }
{
    let x = Terms {
        control_signs,
        reached,
        set_limits: false,
        jf,
        limits,
    };
    check(q, x)
}
