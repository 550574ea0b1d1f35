// The layout of a move: its numbers in their order.

ghost use Rattle.std.specs.Prelude.{◌≡◌};
ghost use Rattle.planner.specs.Layout.{move_length, move_of};

use crate::Move;
use profile::{Limits, Start, Target};

pub const MOVE_LENGTH: usize = 13;

impl From<[f64; MOVE_LENGTH]> for Move {
    ghost from_gives = { λ numbers x. x ≡ move_of numbers };

    #[tactic(auto, unfolding(crate::specs::Layout::move_of))]
    fn from(numbers: [f64; MOVE_LENGTH]) -> Move {
        Move {
            start: Start {
                p0: numbers[0],
                v0: numbers[1],
                a0: numbers[2],
            },
            target: Target {
                pf: numbers[3],
                vf: numbers[4],
                af: numbers[5],
            },
            limits: Limits {
                v_max: numbers[6],
                v_min: numbers[7],
                a_max: numbers[8],
                a_min: numbers[9],
                j_max: numbers[10],
            },
            brake: numbers[11],
            accel: numbers[12],
        }
    }
}

// The length of the code is that of the definitions.
pub fn constants()
    ensures { MOVE_LENGTH ≡ move_length }
{}
