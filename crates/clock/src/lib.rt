// What the surveyor reads: a total in microseconds by a clock sheet, and whether a deadline is met. `figure` is an inner function, whose callers
// keep that a total is below 2^53. All of them answer for any floats, NaNs too; `deadline` asks for figures only where refusal 18 does not apply.
// Nothing is refused here.
#![tactic(auto)]

ghost use Rattle.std.specs.Prelude.{◌≡◌, ◌^◌, ◌<◌};
ghost use Rattle.clock.specs.Clock.{figure_of, improper, impossible, limits_impossible, meets};

// Rule 17.1: how long a cycle takes, and what is added once, both in microseconds.
#[derive(Clone, Copy)]
pub struct ClockSheet {
    pub period: f64,
    pub overhead: f64,
}

// Rule 17.2: no limit, a latest time, or an earliest and a latest time, in microseconds.
#[derive(Clone, Copy)]
pub enum Deadline {
    None,
    Latest(f64),
    Window { earliest: f64, latest: f64 },
}

// The figure of a total: one rounded product with the period, and then one rounded sum with the overhead (rule 17.3).
#[tactic(auto, unfolding(crate::specs::Clock::figure_of))]
pub fn figure(total: u64, sheet: ClockSheet) -> f64
    requires { total < 2 ^ 53 }
    ensures { result ≡ figure_of sheet total }
{
    total as f64 * sheet.period + sheet.overhead
}

// Whether a number is no time: a NaN, an infinity, or below zero. Either zero is a time.
#[tactic(auto, using(crate::proofs::Times::improper_by))]
fn is_improper(time: f64) -> bool
    ensures { result ≡ improper time }
{
    !time.is_finite() || time < 0.0
}

// Whether a deadline has a limit that is no time, or a window that ends before it begins.
fn has_impossible_limits(deadline: Deadline) -> bool
    ensures { result ≡ limits_impossible deadline }
{
    match deadline {
        Deadline::None => false,
        Deadline::Latest(latest) => is_improper(latest),
        Deadline::Window { earliest, latest } => {
            is_improper(earliest) || is_improper(latest) || latest < earliest
        }
    }
}

// Whether refusal 18 applies (rule 11.18). A period of either zero is impossible too.
pub fn is_impossible(sheet: ClockSheet, deadline: Deadline) -> bool
    ensures { result ≡ impossible sheet deadline }
{
    sheet.period == 0.0
        || is_improper(sheet.period)
        || is_improper(sheet.overhead)
        || has_impossible_limits(deadline)
}

// Whether a deadline is met by a low and a high figure (rule 17.4).
pub fn is_met(deadline: Deadline, low: f64, high: f64) -> bool
    ensures { result ≡ meets deadline low high }
{
    match deadline {
        Deadline::None => true,
        Deadline::Latest(latest) => high <= latest,
        Deadline::Window { earliest, latest } => earliest <= low && high <= latest,
    }
}
