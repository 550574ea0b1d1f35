// The corrections of a root of the try ACC1 (regarding pd): one to three Newton steps.

ghost use Rattle.std.specs.Prelude.{◌≡◌};
ghost use Rattle.phase_times_quartic.specs.CorrectionAcc1.{orig_acc1, deriv_acc1, first_correction_acc1};
ghost use Rattle.phase_times_quartic.specs.CorrectionAcc1.{further_correction_acc1, second_correction_acc1};
ghost use Rattle.phase_times_quartic.specs.CorrectionAcc1.{corrected_acc1};

use phase_times::constants::Constants;
use profile::{Limits, Start};

// What the corrections of all roots share.
#[derive(Clone, Copy)]
struct Correction {
    start: Start,
    k: Constants,
    m: Limits,
    h0_acc1: f64,
    h2_acc1: f64,
}

impl Correction {
    // As the Rust computes it before each of the three corrections.
    #[tactic(auto, unfolding(crate::specs::CorrectionAcc1::orig_acc1))]
    fn orig(&self, t: f64) -> f64
        ensures { result ≡ orig_acc1 self.now.start self.now.k self.now.m self.now.h0_acc1 t }
    {
        let Correction {
            start,
            k,
            m,
            h0_acc1,
            ..
        } = *self;
        let h5 = k.a0_p3 + 2.0 * m.j_max * start.a0 * start.v0;
        let h1 = m.j_max * t;
        -(h0_acc1 / 2.0
            + h1 * (h5
                + start.a0 * (m.a_min - 2.0 * h1) * (m.a_min - h1)
                + k.a0_a0 * (5.0 * h1 / 2.0 - 2.0 * m.a_min)
                + m.a_min * m.a_min * h1 / 2.0
                + m.j_max * (h1 / 2.0 - m.a_min) * (h1 * t + 2.0 * start.v0)))
            / m.j_max
    }

    #[tactic(auto, unfolding(crate::specs::CorrectionAcc1::deriv_acc1))]
    fn deriv(&self, t: f64) -> f64
        ensures { result ≡ deriv_acc1 self.now.start self.now.m self.now.h2_acc1 t }
    {
        let Correction {
            start,
            m,
            h2_acc1,
            ..
        } = *self;
        let h1 = m.j_max * t;
        (m.a_min - start.a0 - h1) * (h2_acc1 + h1 * (4.0 * start.a0 - m.a_min + 2.0 * h1))
    }

    // The only correction that t bounds: it leaves no negative root, and 0 for a NaN.
    #[tactic(auto, unfolding(crate::specs::CorrectionAcc1::first_correction_acc1))]
    fn first(&self, t: f64) -> f64
        ensures { result ≡ first_correction_acc1 self.now.start self.now.k self.now.m self.now.h0_acc1 self.now.h2_acc1 t }
    {
        t - doubles::min(self.orig(t) / self.deriv(t), t)
    }

    // The second or the third, where t needs one.
    fn further(&self, t: f64) -> Option<f64>
        ensures { result ≡ further_correction_acc1 self.now.start self.now.k self.now.m self.now.h0_acc1 self.now.h2_acc1 t }
    {
        let orig = self.orig(t);
        if doubles::abs(orig) > 1e-9 {
            Some(t - orig / self.deriv(t))
        } else {
            None
        }
    }

    // The second, and the third after it.
    #[tactic(auto, unfolding(crate::specs::CorrectionAcc1::second_correction_acc1, crate::specs::CorrectionAcc1::third_correction_acc1))]
    fn second_and_third(&self, t: f64) -> f64
        ensures { result ≡ second_correction_acc1 self.now.start self.now.k self.now.m self.now.h0_acc1 self.now.h2_acc1 t }
    {
        match self.further(t) {
            Some(second) => self.further(second).unwrap_or(second),
            None => t,
        }
    }
}

// A root above EPSILON is corrected once to three times. The test stands here as in the other two tries (time_acc0.rt
// says why); what the corrections share is put together only where it holds.
#[tactic(auto, unfolding(crate::specs::CorrectionAcc1::corrected_acc1))]
pub fn corrected_acc1(
    start: Start,
    k: Constants,
    m: Limits,
    h0_acc1: f64,
    h2_acc1: f64,
    t: f64,
) -> f64
    ensures { result ≡ corrected_acc1 start k m h0_acc1 h2_acc1 t }
{
    if t > f64::EPSILON {
        let correction = Correction {
            start,
            k,
            m,
            h0_acc1,
            h2_acc1,
        };
        correction.second_and_third(correction.first(t))
    } else {
        t
    }
}
