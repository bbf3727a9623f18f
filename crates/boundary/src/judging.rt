// The deadline as a function for C. It returns the refusal's number, 0 for none; without room for its answer, or for the two figures, it returns 11,
// and has done nothing.
ghost use Rattle.std.specs.Prelude.{◌≡◌, ◌≤◌, [], ◌∷◌, length};
ghost use Rattle.lists.specs.Lists.{written};
ghost use Rattle.tables.specs.Contract.{entry_table};
ghost use Rattle.totals.specs.Totals.{entry_figures};
ghost use Rattle.deadline.specs.Deadline.{judged, judged_say, judge_says};
ghost use Rattle.boundary.specs.Told.{returned, told, left};
ghost use Rattle.boundary.specs.Timed.{sheet_given, deadline_given, judged_short, judged_numbers, figures_told};

use crate::telling::{no_room, refused, tell};
use clock::{ClockSheet, Deadline};
use deadline::Judged;
use refusals::Refusal;

// The deadline of a kind, with these limits. A kind that there is not makes a window the wrong way round, which is refused in its turn.
fn deadline_given(kind: u64, earliest: f64, latest: f64) -> Deadline
    ensures { result ≡ deadline_given kind earliest latest }
{
    match kind {
        0 => Deadline::None,
        1 => Deadline::Latest(latest),
        2 => Deadline::Window {
            earliest: earliest,
            latest: latest,
        },
        _ => Deadline::Window {
            earliest: 1.0,
            latest: 0.0,
        },
    }
}

// The numbers of the answer.
fn judged_numbers(answer: Result<Judged, Refusal>) -> [u64; 3]
    ensures { result ≡ judged_numbers (judged_say answer) }
{
    match answer {
        Ok(Judged::Met { low: _, high: _ }) => [0, 0, 1],
        Ok(Judged::NotMet { low: _, high: _ }) => [0, 0, 0],
        Err(refusal) => refused(refusal),
    }
}

// Tells two figures at the start of a lent list.
fn tell_two(low: f64, high: f64, lent: &mut [f64])
    requires { 2 ≤ length lent.old }
    ensures { lent.new ≡ written (low ∷ high ∷ []) lent.old }
{
    lent[0] = low;
    lent[1] = high;
}

// Tells the two figures of an answer, which are 0 after a refusal.
fn tell_figures(answer: Result<Judged, Refusal>, lent: &mut [f64])
    requires { 2 ≤ length lent.old }
    ensures { lent.new ≡ figures_told answer lent.old }
{
    match answer {
        Ok(Judged::Met { low, high }) => tell_two(low, high, lent),
        Ok(Judged::NotMet { low, high }) => tell_two(low, high, lent),
        Err(_) => tell_two(0.0, 0.0, lent),
    }
}

// Tells what `deadline::judge` answers: number, place, and 1 where the deadline is met or 0 where it is not, and the low and the high figure in a
// list of their own (rules 12.9 and 17.6). Returns the number, 0 for no refusal; or 11 for fewer than three places or fewer than two for the
// figures, and then all that is lent stays as it was.
pub fn veilbuzz_deadline(
    chart: &[u8],
    must: &[u8],
    may: &[u8],
    marks: &[u8],
    hit: u16,
    miss: u16,
    floors: &[u16],
    ceilings: &[u16],
    period: f64,
    overhead: f64,
    kind: u64,
    earliest: f64,
    latest: f64,
    figures: &mut [f64],
    answer: &mut [u64],
) -> u64
    ensures value { result ≡ returned (judged_short figures.old answer.old) (judge_says chart.now (entry_table must.now may.now marks.now) (entry_figures hit miss floors ceilings) (sheet_given period overhead) (deadline_given kind earliest latest)).number }
    ensures figures_after { figures.new ≡ left (judged_short figures.old answer.old) figures.old (figures_told (judged chart.now (entry_table must.now may.now marks.now) (entry_figures hit miss floors ceilings) (sheet_given period overhead) (deadline_given kind earliest latest)) figures.old) }
    ensures answer_after { answer.new ≡ told (judged_short figures.old answer.old) (judged_numbers (judge_says chart.now (entry_table must.now may.now marks.now) (entry_figures hit miss floors ceilings) (sheet_given period overhead) (deadline_given kind earliest latest))) answer.old }
{
    let short = (figures.len() < 2) | (answer.len() < 3);
    if short {
        return no_room();
    }
    let sheet = ClockSheet {
        period: period,
        overhead: overhead,
    };
    let deadline = deadline_given(kind, earliest, latest);
    let judged = deadline::judge(
        chart, must, may, marks, hit, miss, floors, ceilings, sheet, deadline,
    );
    tell_figures(judged, figures);
    let numbers = judged_numbers(judged);
    tell(&numbers, answer);
    numbers[0]
}
