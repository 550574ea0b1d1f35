// What programs in C and Rust link: the functions of the archive libgirnhusk.a, with plain numbers for arguments.
#![tactic(auto)]

ghost use Rattle.std.specs.Prelude.{◌≡◌};
ghost use Rattle.elementary.specs.Functions.{sqrt_of, cbrt_of, third_angle_cosine_of, third_angle_sine_of};
ghost use Rattle.plan_buffer.specs.Buffers.{Planned, HoldsJoinable, Asked};
ghost use Rattle.arrival.specs.Arrivals.{Given};

// Plans a move. `mv` holds 13 doubles: p0 v0 a0 pf vf af v_max v_min a_max a_min j_max brake accel.
// 0: planned, and the first 166 doubles of `buffer` hold the plan. 1 to 5: refused, document 01's number.
// 255: `mv` has not 13 doubles, or `buffer` fewer than 166.
// Nothing is written unless 0 is returned; what lies beyond the plan is never written.
#[unsafe(no_mangle)]
pub extern "C" fn girnhusk_plan(mv: &[f64], buffer: &mut [f64]) -> u64
    ensures planned { Planned mv.now buffer.old result buffer.new }
    ensures joinable { HoldsJoinable result buffer.new }
{
    plan_buffer::plan_number(plan_buffer::plan(mv, buffer))
}

// Whether a duration is blocked by the plan that girnhusk_plan wrote into a buffer.
// 0: free. 1: blocked. 6: t isn't finite. 255: `buffer` has fewer than 166 doubles.
#[unsafe(no_mangle)]
pub extern "C" fn girnhusk_is_blocked(buffer: &[f64], t: f64) -> u64
    ensures { Asked buffer.now t result }
{
    plan_buffer::asked_number(plan_buffer::is_blocked(buffer, t))
}

// When all axes of a move can arrive: the earliest duration that none of 1 to 8 plans blocks, and the lowest axis,
// counted from 0, that has it as its duration or as the right end of a stretch. `durations` holds each plan's duration,
// `ends` four numbers for each: left and right of each stretch.
// 0: `time` and `axis` hold them. Document 02's number 9: these aren't the numbers of 1 to 8 plans. Its number 10: no
// finite time is free for all. On a refusal both hold 0.
#[unsafe(no_mangle)]
pub extern "C" fn girnhusk_arrival(
    durations: &[f64],
    ends: &[f64],
    time: &mut f64,
    axis: &mut u64,
) -> u64
    ensures { Given durations.now ends.now result time.new axis.new }
{
    match arrival::arrival(durations, ends) {
        Ok(arrival) => {
            *time = arrival.time;
            *axis = arrival.axis;
            0
        }
        Err(refusal) => {
            *time = 0.0;
            *axis = 0;
            u64::from(refusal)
        }
    }
}

// The elementary functions as the planner uses them.
#[unsafe(no_mangle)]
pub extern "C" fn girnhusk_sqrt(x: f64) -> f64
    ensures { result ≡ sqrt_of x }
{
    sqrt::sqrt(x)
}

#[unsafe(no_mangle)]
pub extern "C" fn girnhusk_cbrt(x: f64) -> f64
    ensures { result ≡ cbrt_of x }
{
    cbrt::cbrt(x)
}

// The cosine of a third of the angle whose cosine is t.
#[unsafe(no_mangle)]
pub extern "C" fn girnhusk_third_angle_cosine(t: f64) -> f64
    ensures { result ≡ third_angle_cosine_of t }
{
    third_angle_cosine::third_angle_cosine(t)
}

#[unsafe(no_mangle)]
pub extern "C" fn girnhusk_third_angle_sine(t: f64) -> f64
    ensures { result ≡ third_angle_sine_of t }
{
    third_angle_sine::third_angle_sine(t)
}

// Both, from one estimate: what the planner calls. The two numbers go where the caller says.
#[unsafe(no_mangle)]
pub extern "C" fn girnhusk_third_angle_pair(t: f64, cosine: &mut f64, sine: &mut f64)
    ensures { (cosine.new ≡ third_angle_cosine_of t) × (sine.new ≡ third_angle_sine_of t) }
{
    let pair = third_angle_pair::third_angle_pair(t);
    *cosine = pair.cos;
    *sine = pair.sin;
}

// The same, one binary digit a round.
#[unsafe(no_mangle)]
pub extern "C" fn girnhusk_sqrt_by_digits(x: f64) -> f64
    ensures { result ≡ sqrt_of x }
{
    sqrt::sqrt_by_digits(x)
}

#[unsafe(no_mangle)]
pub extern "C" fn girnhusk_cbrt_by_digits(x: f64) -> f64
    ensures { result ≡ cbrt_of x }
{
    cbrt::cbrt_by_digits(x)
}

#[unsafe(no_mangle)]
pub extern "C" fn girnhusk_third_angle_cosine_by_digits(t: f64) -> f64
    ensures { result ≡ third_angle_cosine_of t }
{
    third_angle_cosine::third_angle_cosine_by_digits(t)
}

#[unsafe(no_mangle)]
pub extern "C" fn girnhusk_third_angle_sine_by_digits(t: f64) -> f64
    ensures { result ≡ third_angle_sine_of t }
{
    third_angle_sine::third_angle_sine_by_digits(t)
}
