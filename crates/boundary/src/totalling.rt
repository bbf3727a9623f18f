// The totals as a function for C. It returns the refusal's number, 0 for none; without room for its answer it returns 11, and has done nothing.
ghost use Rattle.std.specs.Prelude.{◌≡◌};
ghost use Rattle.tables.specs.Contract.{entry_table};
ghost use Rattle.totals.specs.Totals.{entry_figures, totals_say, total_says};
ghost use Rattle.boundary.specs.Told.{totals_short, returned, told, totals_numbers};

use crate::telling::{no_room, refused, tell};
use refusals::Refusal;
use totals::Totals;

// The numbers of the totals' answer.
fn totals_numbers(answer: Result<Totals, Refusal>) -> [u64; 4]
    ensures { result ≡ totals_numbers (totals_say answer) }
{
    match answer {
        Ok(Totals { low, high }) => [0, 0, low, high],
        Err(refusal) => refused(refusal),
    }
}

// Tells what `totals::total` answers: number, place, the low and the high total (rule 12.9). Returns the number, 0 for no refusal; or 11 for fewer
// than four places, and then all that is lent stays as it was.
pub fn veilbuzz_total(
    chart: &[u8],
    must: &[u8],
    may: &[u8],
    marks: &[u8],
    hit: u16,
    miss: u16,
    floors: &[u16],
    ceilings: &[u16],
    answer: &mut [u64],
) -> u64
    ensures value { result ≡ returned (totals_short answer.old) (total_says chart.now (entry_table must.now may.now marks.now) (entry_figures hit miss floors ceilings)).number }
    ensures answer_after { answer.new ≡ told (totals_short answer.old) (totals_numbers (total_says chart.now (entry_table must.now may.now marks.now) (entry_figures hit miss floors ceilings))) answer.old }
{
    if answer.len() < 4 {
        return no_room();
    }
    let numbers = totals_numbers(totals::total(
        chart, must, may, marks, hit, miss, floors, ceilings,
    ));
    tell(&numbers, answer);
    numbers[0]
}
