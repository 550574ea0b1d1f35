// The numbers that the planner computes once for a move, under the Rust's names.

ghost use Rattle.std.specs.Prelude.{◌≡◌};
ghost use Rattle.phase_times.specs.Constants.{constants_of};

use profile::{Limits, Start, Target};

#[derive(Clone, Copy)]
pub struct Constants {
    pub pd: f64,
    pub v0_v0: f64,
    pub vf_vf: f64,
    pub a0_a0: f64,
    pub a0_p3: f64,
    pub a0_p4: f64,
    pub af_af: f64,
    pub af_p3: f64,
    pub af_p4: f64,
    pub j_max_j_max: f64,
}

impl Constants {
    // They serve both directions: j_max_j_max is the square of -j_max as well.
    #[tactic(auto, unfolding(crate::specs::Constants::constants_of))]
    pub fn new(start: Start, target: Target, m: Limits) -> Constants
        ensures { result ≡ constants_of start target m }
    {
        let pd = target.pf - start.p0;
        let v0_v0 = start.v0 * start.v0;
        let vf_vf = target.vf * target.vf;
        let a0_a0 = start.a0 * start.a0;
        let af_af = target.af * target.af;
        let a0_p3 = start.a0 * a0_a0;
        let a0_p4 = a0_a0 * a0_a0;
        let af_p3 = target.af * af_af;
        let af_p4 = af_af * af_af;
        let j_max_j_max = m.j_max * m.j_max;
        Constants {
            pd,
            v0_v0,
            vf_vf,
            a0_a0,
            a0_p3,
            a0_p4,
            af_af,
            af_p3,
            af_p4,
            j_max_j_max,
        }
    }
}
