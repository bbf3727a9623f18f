// The checker as a function for C. It returns the refusal's number, 0 for none, whether the table passes or not; without room for its answer it returns
// 11, and has done nothing.
ghost use Rattle.std.specs.Prelude.{◌≡◌};
ghost use Rattle.tables.specs.Contract.{entry_table};
ghost use Rattle.checker.specs.Checker.{checked_says, check_says};
ghost use Rattle.boundary.specs.Told.{checked_short, returned, told, checked_numbers};

use crate::telling::{no_room, refused, tell};
use refusals::Refusal;

// The numbers of the checker's answer.
fn checked_numbers(answer: Result<bool, Refusal>) -> [u64; 3]
    ensures { result ≡ checked_numbers (checked_says answer) }
{
    match answer {
        Ok(passes) => [0, 0, passes as u64],
        Err(refusal) => refused(refusal),
    }
}

// Tells what `checker::check` answers: number, place, and 1 for yes or 0 for no (rule 12.9). Returns the number, 0 for no refusal; or 11 for fewer
// than three places, and then all that is lent stays as it was.
pub fn veilbuzz_check(
    chart: &[u8],
    must: &[u8],
    may: &[u8],
    marks: &[u8],
    answer: &mut [u64],
) -> u64
    ensures value { result ≡ returned (checked_short answer.old) (check_says chart.now (entry_table must.now may.now marks.now)).number }
    ensures answer_after { answer.new ≡ told (checked_short answer.old) (checked_numbers (check_says chart.now (entry_table must.now may.now marks.now))) answer.old }
{
    if answer.len() < 3 {
        return no_room();
    }
    let numbers = checked_numbers(checker::check(chart, must, may, marks));
    tell(&numbers, answer);
    numbers[0]
}
