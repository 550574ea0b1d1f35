// The range in which a root leads to a try.

ghost use Rattle.std.specs.Prelude.{◌≡◌};
ghost use Rattle.phase_times_quartic.specs.RootRange.{is_skipped};

#[derive(Clone, Copy)]
pub struct RootRange {
    pub t_min: f64,
    pub t_max: f64,
}

impl RootRange {
    // Whether the root t is passed over. A bound that is a NaN keeps it, so the comparison is not to be turned round.
    #[tactic(auto, unfolding(crate::specs::RootRange::is_skipped))]
    pub fn skips(self, t: f64) -> bool
        ensures { result ≡ is_skipped self t }
    {
        (t < self.t_min) | (t > self.t_max)
    }
}
