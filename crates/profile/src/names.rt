// What a name of reached limits asks of the check.

ghost use Rattle.std.specs.Prelude.{◌≡◌};
ghost use Rattle.profile.specs.Names.{ends_in_vel};
ghost use Rattle.profile.specs.Names.{direction_number, limits_number, control_signs_number};

use crate::{ControlSigns, Direction, ReachedLimits};

impl ReachedLimits {
    pub fn ends_in_vel(self) -> bool
        ensures { result ≡ ends_in_vel self }
    {
        matches!(
            self,
            ReachedLimits::Acc0Acc1Vel
                | ReachedLimits::Vel
                | ReachedLimits::Acc0Vel
                | ReachedLimits::Acc1Vel
        )
    }
}

// The numbers of the names, where names are stored as numbers: those of their order.

impl From<Direction> for u32 {
    ghost from_gives = { λ direction number. number ≡ direction_number direction };

    fn from(direction: Direction) -> u32 {
        direction as u32
    }
}

impl From<ReachedLimits> for u32 {
    ghost from_gives = { λ limits number. number ≡ limits_number limits };

    fn from(limits: ReachedLimits) -> u32 {
        limits as u32
    }
}

impl From<ControlSigns> for u32 {
    ghost from_gives = { λ control_signs number. number ≡ control_signs_number control_signs };

    fn from(control_signs: ControlSigns) -> u32 {
        control_signs as u32
    }
}
