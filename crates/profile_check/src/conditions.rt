// The conditions of the check. Every comparison stands with the Rust's sides: with a NaN it is false.

ghost use Rattle.std.specs.Prelude.{◌≡◌};
ghost use Rattle.profile_check.specs.Check.{times_pass, phases_pass, sum_passes, zero_passes, zeros_pass, end_passes};
ghost use Rattle.profile_check.specs.Check.{a_within, v_within, rows_pass};

use profile::{Bounds, Profile, ReachedLimits, Target};
use profile_rows::{Rows, sums_of};

#[tactic(auto, unfolding(crate::specs::Check::times_pass))]
pub fn times_pass(t: [f64; 7]) -> bool
    ensures { result ≡ times_pass t }
{
    t.iter().all(|x| !(*x < 0.0))
}

// A phase in which the name says that a limit is held is not below EPSILON.
#[tactic(auto, unfolding(crate::specs::Check::phases_pass))]
pub fn phases_pass(reached: ReachedLimits, t: [f64; 7]) -> bool
    ensures { result ≡ phases_pass reached t }
{
    let both = reached == ReachedLimits::Acc0Acc1;
    !(reached.ends_in_vel() & (t[3] < f64::EPSILON))
        & !(((reached == ReachedLimits::Acc0) | both) & (t[1] < f64::EPSILON))
        & !(((reached == ReachedLimits::Acc1) | both) & (t[5] < f64::EPSILON))
}

#[tactic(auto, unfolding(crate::specs::Check::sum_passes))]
pub fn sum_passes(longest: f64, t: [f64; 7]) -> bool
    ensures { result ≡ sum_passes longest t }
{
    let t_sum = sums_of(t);
    !(t_sum[6] > longest)
}

// In a phase from acceleration a to a_next: the speed at zero acceleration, if it is met, is within the bounds.
#[tactic(auto, unfolding(crate::specs::Check::zero_passes))]
fn zero_passes(a: f64, a_next: f64, v: f64, j: f64, b: Bounds) -> bool
    ensures { result ≡ zero_passes a a_next v j b }
{
    if a_next * a < -f64::EPSILON {
        let v_a_zero = v - a * a / (2.0 * j);
        return !((v_a_zero > b.v_upp_lim) | (v_a_zero < b.v_low_lim));
    }
    true
}

// The same in phases 2 to 6. Phase by phase: with `all` over them the check doesn't find `returns`.
#[tactic(auto, unfolding(crate::specs::Check::zeros_pass))]
pub fn zeros_pass(r: &Rows, j: [f64; 7], b: Bounds) -> bool
    ensures { result ≡ zeros_pass r.now j b }
{
    zero_passes(r.a[2], r.a[3], r.v[2], j[2], b)
        && zero_passes(r.a[3], r.a[4], r.v[3], j[3], b)
        && zero_passes(r.a[4], r.a[5], r.v[4], j[4], b)
        && zero_passes(r.a[5], r.a[6], r.v[5], j[5], b)
        && zero_passes(r.a[6], r.a[7], r.v[6], j[6], b)
}

// The last row is at the target.
#[tactic(auto, unfolding(crate::specs::Check::end_passes))]
pub fn end_passes(r: &Rows, target: Target) -> bool
    ensures { result ≡ end_passes r.now target }
{
    (doubles::abs(r.p[7] - target.pf) < Profile::P_PRECISION)
        & (doubles::abs(r.v[7] - target.vf) < Profile::V_PRECISION)
        & (doubles::abs(r.a[7] - target.af) < Profile::A_PRECISION)
}

fn a_within(b: Bounds, a: f64) -> bool
    ensures { result ≡ a_within b a }
{
    (a >= b.a_low_lim) & (a <= b.a_upp_lim)
}

fn v_within(b: Bounds, v: f64) -> bool
    ensures { result ≡ v_within b v }
{
    (v <= b.v_upp_lim) & (v >= b.v_low_lim)
}

// The accelerations of rows 1, 3 and 5 and the velocities of rows 3 to 6 are within the bounds.
// Row by row: with `all` over the velocities `accepts` takes 8 % longer (35.4 ns in place of 32.9, on profile_test's
// records), and the check doesn't find `returns`.
#[tactic(auto, unfolding(crate::specs::Check::rows_pass))]
pub fn rows_pass(r: &Rows, b: Bounds) -> bool
    ensures { result ≡ rows_pass r.now b }
{
    (a_within(b, r.a[1]) & a_within(b, r.a[3]) & a_within(b, r.a[5]))
        & (v_within(b, r.v[3]) & v_within(b, r.v[4]) & v_within(b, r.v[5]) & v_within(b, r.v[6]))
}
