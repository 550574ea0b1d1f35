// One axis: which times are free for it, and whether its numbers are a plan's.

ghost use Rattle.std.specs.Prelude.{◌≡◌};
ghost use Rattle.arrival.specs.Axes.{missing, wrong_stretch, wrong_axis, ends_at, has};
ghost use Rattle.arrival.specs.Steps.{past_stretch, past};

// How many axes there may be, and how many ends each has.
pub const AXES_MOST: usize = 8;

pub const ENDS_LENGTH: usize = 4;

// A stretch of blocked times, its ends excluded; 0 and 0 where it is missing. No Option: it is two numbers of the
// caller's slices as they stand, the definitions ask for two numbers, and `past` holds without asking: none is inside.
#[derive(Clone, Copy)]
pub struct Stretch {
    pub left: f64,
    pub right: f64,
}

impl Stretch {
    fn is_missing(self) -> bool
        ensures { result ≡ missing self.left self.right }
    {
        (self.left == 0.0) & (self.right == 0.0)
    }

    fn is_wrong(self, duration: f64) -> bool
        ensures { result ≡ wrong_stretch duration self.left self.right }
    {
        !self.is_missing()
            & (!doubles::is_finite(self.left)
                | (self.left < duration)
                | self.right.is_nan()
                | (self.right < self.left))
    }

    fn ends_at(self, t: f64) -> bool
        ensures { result ≡ ends_at self.left self.right t }
    {
        !self.is_missing() & (self.right == t)
    }

    // Its right end, where t is inside.
    fn past(self, t: f64) -> Option<f64>
        ensures { result ≡ past_stretch self.left self.right t }
    {
        if (self.left < t) & (t < self.right) {
            return Some(self.right);
        }
        None
    }
}

// Its shortest duration, and two stretches.
#[derive(Clone, Copy)]
pub struct Axis {
    pub duration: f64,
    pub a: Stretch,
    pub b: Stretch,
}

impl Axis {
    // Whether it is turned back by number 9.
    #[tactic(auto, unfolding(crate::specs::Axes::wrong_axis))]
    pub fn is_wrong(self) -> bool
        ensures { result ≡ wrong_axis self }
    {
        (self.duration < 0.0)
            | !doubles::is_finite(self.duration)
            | self.a.is_wrong(self.duration)
            | self.b.is_wrong(self.duration)
    }

    // Whether t is its shortest duration or a right end.
    #[tactic(auto, unfolding(crate::specs::Axes::has))]
    pub fn has(self, t: f64) -> bool
        ensures { result ≡ has self t }
    {
        (self.duration == t) | self.a.ends_at(t) | self.b.ends_at(t)
    }

    // The right end of a stretch that t is inside.
    #[tactic(auto, unfolding(crate::specs::Steps::past))]
    pub fn past(self, t: f64) -> Option<f64>
        ensures { result ≡ past self t }
    {
        self.a.past(t).or(self.b.past(t))
    }
}
