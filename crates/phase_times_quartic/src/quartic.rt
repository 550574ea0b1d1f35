// A monic quartic, as the Rust's polynom_none, polynom_acc0 and polynom_acc1 are: t^4 + c0 t^3 + c1 t^2 + c2 t + c3.

ghost use Rattle.std.specs.Prelude.{◌≡◌};
ghost use Rattle.phase_times_quartic.specs.Quartic.{shifted_quartic, has_solution};

#[derive(Clone, Copy)]
pub struct Quartic {
    pub c0: f64,
    pub c1: f64,
    pub c2: f64,
    pub c3: f64,
}

impl Quartic {
    // With t as its zero: polynom_acc0_min of polynom_acc0 and t_min_acc0.
    #[tactic(auto, unfolding(crate::specs::Quartic::shifted_quartic))]
    pub fn shifted(self, t: f64) -> Quartic
        ensures { result ≡ shifted_quartic self t }
    {
        Quartic {
            c0: self.c0 + 4.0 * t,
            c1: self.c1 + (3.0 * self.c0 + 6.0 * t) * t,
            c2: self.c2 + (2.0 * self.c1 + (3.0 * self.c0 + 4.0 * t) * t) * t,
            c3: self.c3 + (self.c2 + (self.c1 + (self.c0 + t) * t) * t) * t,
        }
    }

    // Whether a root of at least 0 is possible. A coefficient that is a NaN does not say so.
    #[tactic(auto, unfolding(crate::specs::Quartic::has_solution))]
    pub fn has_solution(self) -> bool
        ensures { result ≡ has_solution self }
    {
        (self.c0 < 0.0) | (self.c1 < 0.0) | (self.c2 < 0.0) | (self.c3 <= 0.0)
    }
}
