// Phase times of the two solutions of time_acc0_acc1, the numbers h1 to h3 and the guards: the Rust's formulas line by
// line, so each solution is written out. h1 to h3 are loose as there: they lie among the numbers that any family's tries
// share, so a struct of them would be made anew for each of four calls.

ghost use Rattle.std.specs.Prelude.{◌≡◌};
ghost use Rattle.phase_times.specs.TimeAcc0Acc1.{acc0_acc1_radicand, acc0_acc1_h1, acc0_acc1_h2, acc0_acc1_h3};
ghost use Rattle.phase_times.specs.TimeAcc0Acc1.{admits_acc0_acc1_solution2, admits_acc0_acc1_solution1};
ghost use Rattle.phase_times.specs.TimeAcc0Acc1.{times_acc0_acc1_solution2, times_acc0_acc1_solution1};

use crate::constants::Constants;
use profile::{Limits, Start, Target};

// h1 as the Rust first has it. The family goes on where it is at least 0, so not for a NaN.
#[tactic(auto, unfolding(crate::specs::TimeAcc0Acc1::acc0_acc1_radicand))]
pub fn acc0_acc1_radicand(start: Start, target: Target, k: Constants, m: Limits) -> f64
    ensures { result ≡ acc0_acc1_radicand start target k m }
{
    (3.0 * (k.af_p4 * m.a_max - k.a0_p4 * m.a_min)
        + m.a_max
            * m.a_min
            * (8.0 * (k.a0_p3 - k.af_p3)
                + 3.0 * m.a_max * m.a_min * (m.a_max - m.a_min)
                + 6.0 * m.a_min * k.af_af
                - 6.0 * m.a_max * k.a0_a0)
        + 12.0
            * m.j_max
            * (m.a_max
                * m.a_min
                * ((m.a_max - 2.0 * start.a0) * start.v0 - (m.a_min - 2.0 * target.af) * target.vf)
                + m.a_min * k.a0_a0 * start.v0
                - m.a_max * k.af_af * target.vf))
        / (3.0 * (m.a_max - m.a_min) * k.j_max_j_max)
        + 4.0 * (m.a_max * k.vf_vf - m.a_min * k.v0_v0 - 2.0 * m.a_min * m.a_max * k.pd)
            / (m.a_max - m.a_min)
}

// h1 from then on; root is the square root of the radicand.
#[tactic(auto, unfolding(crate::specs::TimeAcc0Acc1::acc0_acc1_h1))]
pub fn acc0_acc1_h1(root: f64) -> f64
    ensures { result ≡ acc0_acc1_h1 root }
{
    root / 2.0
}

#[tactic(auto, unfolding(crate::specs::TimeAcc0Acc1::acc0_acc1_h2))]
pub fn acc0_acc1_h2(start: Start, k: Constants, m: Limits) -> f64
    ensures { result ≡ acc0_acc1_h2 start k m }
{
    k.a0_a0 / (2.0 * m.a_max * m.j_max) + (m.a_min - 2.0 * m.a_max) / (2.0 * m.j_max)
        - start.v0 / m.a_max
}

#[tactic(auto, unfolding(crate::specs::TimeAcc0Acc1::acc0_acc1_h3))]
pub fn acc0_acc1_h3(target: Target, k: Constants, m: Limits) -> f64
    ensures { result ≡ acc0_acc1_h3 target k m }
{
    -k.af_af / (2.0 * m.a_min * m.j_max) - (m.a_max - 2.0 * m.a_min) / (2.0 * m.j_max)
        + target.vf / m.a_min
}

// The guards of both solutions are strict: phases 1 and 5 take time.
#[tactic(auto, unfolding(crate::specs::TimeAcc0Acc1::admits_acc0_acc1_solution2))]
pub fn admits_acc0_acc1_solution_2(m: Limits, h1: f64, h2: f64, h3: f64) -> bool
    ensures { result ≡ admits_acc0_acc1_solution2 m h1 h2 h3 }
{
    (h2 > h1 / m.a_max) & (h3 > -h1 / m.a_min)
}

#[tactic(auto, unfolding(crate::specs::TimeAcc0Acc1::admits_acc0_acc1_solution1))]
pub fn admits_acc0_acc1_solution_1(m: Limits, h1: f64, h2: f64, h3: f64) -> bool
    ensures { result ≡ admits_acc0_acc1_solution1 m h1 h2 h3 }
{
    (h2 > -h1 / m.a_max) & (h3 > h1 / m.a_min)
}

#[tactic(auto, unfolding(crate::specs::TimeAcc0Acc1::times_acc0_acc1_solution2))]
pub fn times_acc0_acc1_solution_2(
    start: Start,
    target: Target,
    m: Limits,
    h1: f64,
    h2: f64,
    h3: f64,
) -> [f64; 7]
    ensures { result ≡ times_acc0_acc1_solution2 start target m h1 h2 h3 }
{
    let t0 = (-start.a0 + m.a_max) / m.j_max;
    let t1 = h2 - h1 / m.a_max;
    let t2 = m.a_max / m.j_max;
    let t4 = -m.a_min / m.j_max;
    let t5 = h3 + h1 / m.a_min;
    let t6 = t4 + target.af / m.j_max;
    [t0, t1, t2, 0.0, t4, t5, t6]
}

#[tactic(auto, unfolding(crate::specs::TimeAcc0Acc1::times_acc0_acc1_solution1))]
pub fn times_acc0_acc1_solution_1(
    start: Start,
    target: Target,
    m: Limits,
    h1: f64,
    h2: f64,
    h3: f64,
) -> [f64; 7]
    ensures { result ≡ times_acc0_acc1_solution1 start target m h1 h2 h3 }
{
    let t0 = (-start.a0 + m.a_max) / m.j_max;
    let t1 = h2 + h1 / m.a_max;
    let t2 = m.a_max / m.j_max;
    let t4 = -m.a_min / m.j_max;
    let t5 = h3 - h1 / m.a_min;
    let t6 = t4 + target.af / m.j_max;
    [t0, t1, t2, 0.0, t4, t5, t6]
}
