// The deadline: answers whether a lent table's totals, in microseconds by a clock sheet, meet a deadline, with both figures; or refuses with the
// first of 1 to 11 and 13 to 18 that applies. It writes to nothing that is lent.
#![tactic(auto)]

ghost use Rattle.std.specs.Prelude.{◌≡◌, ◌^◌, ◌<◌};
ghost use Rattle.tables.specs.Contract.{entry_table};
ghost use Rattle.totals.specs.Totals.{entry_figures};
ghost use Rattle.deadline.specs.Deadline.{judged_by, judged, judged_say, judge_says};
ghost use Rattle.deadline.specs.Widths.{SixteenBits};

use clock::{ClockSheet, Deadline};
use refusals::Refusal;

// Whether the deadline is met, with the low and the high figure.
#[derive(Clone, Copy)]
pub enum Judged {
    Met { low: f64, high: f64 },
    NotMet { low: f64, high: f64 },
}

// What is answered for two totals: refusal 18, or the verdict with their figures.
fn judge_totals(
    low: u64,
    high: u64,
    sheet: ClockSheet,
    deadline: Deadline,
) -> Result<Judged, Refusal>
    requires { (low < 2 ^ 53) × (high < 2 ^ 53) }
    ensures { result ≡ judged_by sheet deadline low high }
{
    if clock::is_impossible(sheet, deadline) {
        return Err(Refusal::ImpossibleTimes);
    }
    let least = clock::figure(low, sheet);
    let most = clock::figure(high, sheet);
    if clock::is_met(deadline, least, most) {
        Ok(Judged::Met {
            low: least,
            high: most,
        })
    } else {
        Ok(Judged::NotMet {
            low: least,
            high: most,
        })
    }
}

// Answers for any bytes, lent table, costs, floors, ceilings, clock sheet and deadline: the verdict and both figures (rules 17.3 and 17.4), or the
// first of refusals 1 to 11 and 13 to 18 that applies (rule 17.5). That both totals are below 2^53, as `judge_totals` asks, is no test: it follows
// from the widths of what is lent (`totals_below`), which the last clause hands on to whoever asks what the answer says of walks.
pub fn judge(
    chart: &[u8],
    must: &[u8],
    may: &[u8],
    marks: &[u8],
    hit: u16,
    miss: u16,
    floors: &[u16],
    ceilings: &[u16],
    sheet: ClockSheet,
    deadline: Deadline,
) -> Result<Judged, Refusal>
    ensures value { result ≡ judged chart.now (entry_table must.now may.now marks.now) (entry_figures hit miss floors ceilings) sheet deadline }
    ensures result_value { judged_say result ≡ judge_says chart.now (entry_table must.now may.now marks.now) (entry_figures hit miss floors ceilings) sheet deadline }
    ensures sixteen_bits { SixteenBits (entry_figures hit miss floors ceilings) }
{
    let totals = totals::total(chart, must, may, marks, hit, miss, floors, ceilings)?;
    judge_totals(totals.low, totals.high, sheet, deadline)
}
