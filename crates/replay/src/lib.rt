// The exact replay of a profile, and how far from its target it ends: definitions in specs/, theorems in proofs/.
#![tactic(auto)]

ghost use Rattle.replay.specs.Promise.{CheckEndsAt};

use profile::Profile;
use profile_check::Terms;

// The theorem, for all that the machine can hold: what a check accepts ends at its target when it is replayed exactly,
// whatever the replay's j_max, if the replay takes each limit that the check stored. It takes them for a j_max above
// 1e50.
pub fn replay_bound(q: Profile, x: Terms)
    ensures { CheckEndsAt q x.control_signs x.reached x.set_limits x.jf x.limits }
{}
