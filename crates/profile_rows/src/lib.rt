// What the seven phases make: sums, jerks and rows. Row i + 1 comes after phase i. The formulas are the Rust's line by
// line; its loop over the rows is written out, for the reason given there.
#![tactic(auto)]

ghost use Rattle.std.specs.Prelude.{◌≡◌};
ghost use Rattle.profile_rows.specs.Rows.{sums, jerk_if, jerks, row_after, stored_if, outer_row, middle_row, rows_of};

use profile::{ControlSigns, Limits, ReachedLimits, Start};

// Acceleration, velocity and position before a phase or after it.
#[derive(Clone, Copy)]
pub struct Row {
    pub a: f64,
    pub v: f64,
    pub p: f64,
}

// Eight rows, in columns as a profile holds them.
#[derive(Clone, Copy)]
pub struct Rows {
    pub a: [f64; 8],
    pub v: [f64; 8],
    pub p: [f64; 8],
}

// The time up to the end of each phase.
#[tactic(auto, unfolding(crate::specs::Rows::sums))]
pub fn sums_of(t: [f64; 7]) -> [f64; 7]
    ensures { result ≡ sums t }
{
    let mut t_sum = t;
    for i in 1..7 {
        t_sum[i] = t_sum[i - 1] + t[i];
    }
    t_sum
}

// j in a phase whose time is above 0, else 0.
#[tactic(auto, unfolding(crate::specs::Rows::jerk_if))]
fn jerk_if(t: f64, j: f64) -> f64
    ensures { result ≡ jerk_if t j }
{
    if t > 0.0 { j } else { 0.0 }
}

#[tactic(auto, unfolding(crate::specs::Rows::jerks))]
pub fn jerks_of(control_signs: ControlSigns, t: [f64; 7], jf: f64) -> [f64; 7]
    ensures { result ≡ jerks control_signs t jf }
{
    let j0 = jerk_if(t[0], jf);
    let j2 = jerk_if(t[2], -jf);
    match control_signs {
        ControlSigns::UDDU => [j0, 0.0, j2, 0.0, jerk_if(t[4], -jf), 0.0, jerk_if(t[6], jf)],
        ControlSigns::UDUD => [j0, 0.0, j2, 0.0, jerk_if(t[4], jf), 0.0, jerk_if(t[6], -jf)],
    }
}

// The row after a phase of t seconds at the jerk j.
#[tactic(auto, unfolding(crate::specs::Rows::row_after))]
pub fn row_after(r: Row, t: f64, j: f64) -> Row
    ensures { result ≡ row_after r t j }
{
    Row {
        a: r.a + t * j,
        v: r.v + t * (r.a + t * j / 2.0),
        p: r.p + t * (r.v + t * (r.a / 2.0 + t * j / 6.0)),
    }
}

// The row with a stored as its acceleration, if so said.
#[tactic(auto, unfolding(crate::specs::Rows::stored_if))]
fn stored_if(b: bool, a: f64, r: Row) -> Row
    ensures { result ≡ stored_if b a r }
{
    if b { Row { a, ..r } } else { r }
}

// Row 1 or 5, as the check keeps it.
#[tactic(auto, unfolding(crate::specs::Rows::outer_row))]
pub fn outer_row(reached: ReachedLimits, set_limits: bool, limit: f64, r: Row) -> Row
    ensures { result ≡ outer_row reached set_limits limit r }
{
    stored_if(set_limits & (reached == ReachedLimits::Acc0Acc1), limit, r)
}

// Row 3, as the check keeps it.
#[tactic(auto, unfolding(crate::specs::Rows::middle_row))]
pub fn middle_row(reached: ReachedLimits, set_limits: bool, a_min: f64, r: Row) -> Row
    ensures { result ≡ middle_row reached set_limits a_min r }
{
    let cleared = stored_if(
        reached.ends_in_vel() | (reached == ReachedLimits::Acc0Acc1),
        0.0,
        r,
    );
    stored_if(
        set_limits & (reached == ReachedLimits::Acc1),
        a_min,
        cleared,
    )
}

// Row by row, since three of the seven are kept otherwise than the phases make them: a loop would ask for each i which
// it is, as the Rust's does. Inlined: as a call its rows go through memory, and a plan takes 2.5 % longer.
#[inline(always)]
#[tactic(auto, unfolding(crate::specs::Rows::rows_of))]
pub fn rows_of(
    start: Start,
    t: [f64; 7],
    j: [f64; 7],
    reached: ReachedLimits,
    set_limits: bool,
    limits: Limits,
) -> Rows
    ensures { result ≡ rows_of start t j reached set_limits limits }
{
    let r0 = Row {
        a: start.a0,
        v: start.v0,
        p: start.p0,
    };
    let r1 = outer_row(reached, set_limits, limits.a_max, row_after(r0, t[0], j[0]));
    let r2 = row_after(r1, t[1], j[1]);
    let r3 = middle_row(reached, set_limits, limits.a_min, row_after(r2, t[2], j[2]));
    let r4 = row_after(r3, t[3], j[3]);
    let r5 = outer_row(reached, set_limits, limits.a_min, row_after(r4, t[4], j[4]));
    let r6 = row_after(r5, t[5], j[5]);
    let r7 = row_after(r6, t[6], j[6]);
    Rows {
        a: [r0.a, r1.a, r2.a, r3.a, r4.a, r5.a, r6.a, r7.a],
        v: [r0.v, r1.v, r2.v, r3.v, r4.v, r5.v, r6.v, r7.v],
        p: [r0.p, r1.p, r2.p, r3.p, r4.p, r5.p, r6.p, r7.p],
    }
}
