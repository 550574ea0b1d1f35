// What the bytes of a record mean. Its parts have no types of their own, so there is no `From` to read them.

ghost use Rattle.std.specs.Prelude.{◌≡◌};
ghost use Rattle.profile_check.specs.Check.{judged};
ghost use Rattle.profile_test.specs.Records.{limits_of, control_signs_of, profile_of, bounds_of};
ghost use Rattle.profile_test.specs.Records.{checked_of};

use encoding::{double_at, doubles_at};
use profile::{ControlSigns, Limits, Profile, ReachedLimits, Start, Target};
use profile_check::{Terms, check};

// Limits and control signs by their numbers: any other byte is the last name. A `TryFrom` of each enum would have the
// same arms, and an `unwrap_or` here besides.
#[tactic(auto, unfolding(crate::specs::Records::limits_of))]
fn limits_of(n: u8) -> ReachedLimits
    ensures { result ≡ limits_of n }
{
    match n {
        0 => ReachedLimits::Acc0Acc1Vel,
        1 => ReachedLimits::Vel,
        2 => ReachedLimits::Acc0,
        3 => ReachedLimits::Acc1,
        4 => ReachedLimits::Acc0Acc1,
        5 => ReachedLimits::Acc0Vel,
        6 => ReachedLimits::Acc1Vel,
        _ => ReachedLimits::None,
    }
}

#[tactic(auto, unfolding(crate::specs::Records::control_signs_of))]
fn control_signs_of(n: u8) -> ControlSigns
    ensures { result ≡ control_signs_of n }
{
    match n {
        0 => ControlSigns::UDDU,
        _ => ControlSigns::UDUD,
    }
}

// An empty profile with the record's boundary and times.
fn profile_of(bytes: &[u8; 147]) -> Profile
    ensures { result ≡ profile_of bytes.now }
{
    let [p0, v0, a0, pf, vf, af]: [f64; 6] = doubles_at(bytes, 0);
    let mut q = Profile::empty().with_boundary(Start { p0, v0, a0 }, Target { pf, vf, af });
    q.t = doubles_at(bytes, 48);
    q
}

// The record's limits. A check reads no j_max.
#[tactic(auto, unfolding(crate::specs::Records::bounds_of, encoding::specs::Encoding::doubles_at))]
fn bounds_of(bytes: &[u8; 147]) -> Limits
    ensures { result ≡ bounds_of bytes.now }
{
    let [v_max, v_min, a_max, a_min]: [f64; 4] = doubles_at(bytes, 112);
    Limits {
        v_max,
        v_min,
        a_max,
        a_min,
        j_max: 0.0,
    }
}

// What `check` answers, and the profile as it leaves it.
#[tactic(auto, unfolding(crate::specs::Records::checked_of))]
pub fn checked_of(bytes: &[u8; 147]) -> Result<Profile, Profile>
    ensures { result ≡ judged (checked_of bytes.now) }
{
    let q = profile_of(bytes);
    let x = Terms {
        control_signs: control_signs_of(bytes[145]),
        reached: limits_of(bytes[144]),
        set_limits: bytes[146] == 1,
        jf: double_at(bytes, 104),
        limits: bounds_of(bytes),
    };
    check(q, x).ok_or(q)
}
