// All axes of two slices.

ghost use Rattle.std.specs.Prelude.{◌≡◌, ◌*◌, ◌<◌, length, IfOk, IfErr, MatchOption};
ghost use Rattle.arrival.specs.Axes.{ends_length, axis_of};
ghost use Rattle.arrival.specs.Arrivals.{WellFormed};
ghost use Rattle.arrival.specs.Steps.{Latest, Found, NeverFound, NoneHas, Lowest};

use crate::axis::{AXES_MOST, Axis, ENDS_LENGTH, Stretch};
use refusals::Refusal;

// Beside the method `axis`, because `new` reads the axes before they are known to be an `Axes`.
fn axis_at(durations: &[f64], ends: &[f64], i: usize) -> Axis
    requires i_in_bounds { i < length durations.now }
    requires ends_len { length ends.now ≡ ends_length * length durations.now }
    ensures { result ≡ axis_of durations.now ends.now i }
{
    let (stretches, _) = ends.as_chunks::<ENDS_LENGTH>();
    let [a_left, a_right, b_left, b_right] = stretches[i];
    Axis {
        duration: durations[i],
        a: Stretch {
            left: a_left,
            right: a_right,
        },
        b: Stretch {
            left: b_left,
            right: b_right,
        },
    }
}

// The axes of two slices that number 9 doesn't turn back.
#[derive(Clone, Copy)]
pub struct Axes<'a> {
    durations: &'a [f64],
    ends: &'a [f64],
    ghost well_formed: { WellFormed durations.now ends.now },
}

impl<'a> Axes<'a> {
    // Refused where number 9 applies.
    #[tactic(auto, using(crate::proofs::ScanLaws::judged))]
    pub fn new(durations: &'a [f64], ends: &'a [f64]) -> Result<Axes<'a>, Refusal>
        ensures ok { IfOk result (λ axes. (axes.durations.now ≡ durations.now) × (axes.ends.now ≡ ends.now)) }
        ensures err { IfErr result
            (λ refusal. (refusal ≡ Refusal.WrongAxes) × (WellFormed durations.now ends.now → ⊥)) }
    {
        let count = durations.len();
        if (count == 0) | (count > AXES_MOST) {
            return Err(Refusal::WrongAxes);
        }
        if ends.len() != ENDS_LENGTH * count {
            return Err(Refusal::WrongAxes);
        }
        // by index: with `any` over the range, or `zip` of the chunks, the check doesn't show `well_formed`
        for i in 0..count {
            if axis_at(durations, ends, i).is_wrong() {
                return Err(Refusal::WrongAxes);
            }
        }
        Ok(Axes { durations, ends })
    }

    #[tactic(auto, using(crate::proofs::ScanLaws::four_ends))]
    fn axis(&self, i: usize) -> Axis
        requires { i < length self.now.durations.now }
        ensures { result ≡ axis_of self.now.durations.now self.now.ends.now i }
    {
        axis_at(self.durations, self.ends, i)
    }

    // The largest duration, and +0 where all are zeros. By `for`: a fold would have the same `if` in a closure.
    fn latest(&self) -> f64
        ensures { Latest self.now.durations.now (length self.now.durations.now) result }
    {
        let mut time = 0.0;
        for &duration in self.durations {
            if time < duration {
                time = duration;
            }
        }
        time
    }

    // The earliest time that is free for all axes. From the largest duration on, whenever an axis has the time inside a
    // stretch, the scan goes on at that stretch's right end, from the first axis again.
    pub fn earliest(&self) -> Option<f64>
        ensures { MatchOption result
            (NeverFound self.now.durations.now self.now.ends.now)
            (λ time. Found self.now.durations.now self.now.ends.now time) }
    {
        let mut time = self.latest();
        let mut axes = 0..self.durations.len();
        while let Some(i) = axes.next() {
            if let Some(later) = self.axis(i).past(time) {
                time = later;
                axes = 0..self.durations.len();
            }
        }
        doubles::is_finite(time).then_some(time)
    }

    // The lowest axis that has the time as its shortest duration or as a right end.
    pub fn lowest(&self, time: f64) -> Option<usize>
        ensures { MatchOption result
            (NoneHas self.now.durations.now self.now.ends.now time (length self.now.durations.now))
            (λ i. Lowest self.now.durations.now self.now.ends.now time i) }
    {
        // with `find` over the range the check doesn't show `returns`
        for i in 0..self.durations.len() {
            if self.axis(i).has(time) {
                return Some(i);
            }
        }
        None
    }
}
