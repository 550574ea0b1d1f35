// A line for an answer, by the number of its record, in one of two forms.

ghost use Rattle.std.specs.Prelude.{ℕ, ◌≡◌, ◌+◌, ◌-◌, ◌≤◌, List, leb, true, refl};
ghost use Rattle.arrayvec.specs.ArrayVec.{array_vec_len};
ghost use Rattle.block.specs.declared.Block.{Block};
ghost use Rattle.decimals.specs.Decimal.{decimal_width};
ghost use Rattle.profile_lines.specs.Text.{Appends};
ghost use Rattle.moves.specs.Lines.{plan_fields, full_fields, answer_with, line_with, frame_width, refusal_width};
ghost use Rattle.moves.specs.Lines.{line_of, full_line_of, refused_line, line_length, full_line_length};

use crate::fields::{put_full_plan, put_plan, put_refusal, put_refused};
use arrayvec::ArrayVec;
use block::Block;
use decimals::{DECIMAL_WIDTH, put_decimal};
use profile_lines::{DIRECTION_WIDTH, DOUBLE_WIDTH, LIMITS_WIDTH, PROFILE_WIDTH, put};
use refusals::Refusal;
use stretch_lines::{BOTH_ENDS_WIDTH, KIND_WIDTH};

const OK_WIDTH: usize = 3;

const PLAN_WIDTH: usize = OK_WIDTH
    + DOUBLE_WIDTH
    + DIRECTION_WIDTH
    + LIMITS_WIDTH
    + 2
    + BOTH_ENDS_WIDTH
    + BOTH_ENDS_WIDTH;

const INTERVAL_WIDTH: usize = KIND_WIDTH + BOTH_ENDS_WIDTH + PROFILE_WIDTH;

const FULL_WIDTH: usize = OK_WIDTH + DOUBLE_WIDTH + PROFILE_WIDTH + INTERVAL_WIDTH + INTERVAL_WIDTH;

// The longest line: the record's number, the plan and a line feed.
pub const LINE_LENGTH: usize = DECIMAL_WIDTH + PLAN_WIDTH + 1;

pub const FULL_LINE_LENGTH: usize = DECIMAL_WIDTH + FULL_WIDTH + 1;

// The form of a line: the fields of a plan, and how long the longest line is.
pub trait Form<const N: usize> {
    ghost plan: { Block → List ℕ };

    ghost LENGTH: { ℕ };

    const LENGTH: usize;

    fn put_plan(line: &mut ArrayVec<u8, N>, x: Block)
        requires { array_vec_len line.old + (LENGTH - frame_width) ≤ N }
        ensures { Appends line.old line.new (plan x) (LENGTH - frame_width) };

    // A refusal is no longer than a plan, and no form's line longer than that of all that a plan holds.
    ghost refusals_fit: { leb (frame_width + refusal_width) LENGTH ≡ true };

    ghost lines_fit: { leb LENGTH full_line_length ≡ true };
}

// What document 01 has of a plan.
pub struct Short;

impl<const N: usize> Form<N> for Short {
    ghost plan = { plan_fields };

    ghost LENGTH = { line_length };

    const LENGTH: usize = LINE_LENGTH;

    fn put_plan(line: &mut ArrayVec<u8, N>, x: Block) {
        put_plan(line, x);
    }

    ghost refusals_fit = { refl };

    ghost lines_fit = { refl };
}

// A form whose lines a vector has room for.
pub trait Whole<const N: usize>: Form<N> {
    ghost whole: { leb Self.LENGTH N ≡ true };
}

impl Whole<LINE_LENGTH> for Short {
    ghost whole = { refl };
}

impl Whole<FULL_LINE_LENGTH> for Full {
    ghost whole = { refl };
}

// All that a plan holds.
pub struct Full;

impl<const N: usize> Form<N> for Full {
    ghost plan = { full_fields };

    ghost LENGTH = { full_line_length };

    const LENGTH: usize = FULL_LINE_LENGTH;

    fn put_plan(line: &mut ArrayVec<u8, N>, x: Block) {
        put_full_plan(line, x);
    }

    ghost refusals_fit = { refl };

    ghost lines_fit = { refl };
}

#[tactic(auto, using(crate::proofs::Putting::putting), unfolding(crate::specs::Lines::answer_with))]
fn put_answer<F: Form<N>, const N: usize>(line: &mut ArrayVec<u8, N>, x: Result<Block, Refusal>)
    requires { array_vec_len line.old + (F.LENGTH - frame_width) ≤ N }
    ensures { Appends line.old line.new (answer_with F.plan x) (F.LENGTH - frame_width) }
{
    match x {
        Ok(block) => F::put_plan(line, block),
        Err(refusal) => put_refusal(line, refusal),
    }
}

// Appends the line for the answer to record number n.
#[tactic(auto, using(crate::proofs::Putting::putting), unfolding(crate::specs::Lines::line_with))]
pub fn put_line<F: Form<N>, const N: usize>(
    line: &mut ArrayVec<u8, N>,
    n: u64,
    x: Result<Block, Refusal>,
)
    requires { array_vec_len line.old + F.LENGTH ≤ N }
    ensures { Appends line.old line.new (line_with F.plan n x) F.LENGTH }
{
    put_decimal(line, n);
    put_answer::<F, N>(line, x);
    put(line, b"\n");
}

// The line for the answer to record number n.
pub fn line<F: Whole<N>, const N: usize>(n: u64, x: Result<Block, Refusal>) -> ArrayVec<u8, N>
    ensures items { result.items ≡ line_with F.plan n x }
    ensures within { array_vec_len result ≤ F.LENGTH }
{
    let mut line = ArrayVec::new();
    put_line::<F, N>(&mut line, n, x);
    line
}

// The line for a refusal by its number, also by one that no refusal has: the same in both forms.
#[tactic(auto, using(crate::proofs::Putting::putting))]
pub fn refused_line(n: u64, number: u64) -> ArrayVec<u8, LINE_LENGTH>
    ensures items { result.items ≡ refused_line n number }
{
    let mut line = ArrayVec::new();
    put_decimal(&mut line, n);
    put_refused(&mut line, number);
    put(&mut line, b"\n");
    line
}

// The lengths of the code are those of the definitions.
pub fn line_constants()
    ensures { (LINE_LENGTH ≡ line_length) × (FULL_LINE_LENGTH ≡ full_line_length) }
{}

// Whatever room there is, the two forms' lines are the definitions'.
pub fn line_forms<const N: usize>()
    ensures short { line_with ⟦<Short as Form<N>>⟧.plan ≡ line_of }
    ensures full { line_with ⟦<Full as Form<N>>⟧.plan ≡ full_line_of }
{}
