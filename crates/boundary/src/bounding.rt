// The bound of a certificate as a function for C. It returns the refusal's number, 0 for none; without room for its answer it returns 11, and has done
// nothing.
ghost use Rattle.std.specs.Prelude.{◌≡◌};
ghost use Rattle.tables.specs.Contract.{entry_table};
ghost use Rattle.facts.specs.Listed.{entry_facts, entry_certificate};
ghost use Rattle.certificate.specs.Bound.{asked, bounded_say, bound_says};
ghost use Rattle.boundary.specs.Told.{returned, told};
ghost use Rattle.boundary.specs.Certifying.{side_given, denominator_given, bound_short, bound_numbers};

use crate::telling::{no_room, refused, tell};
use facts::Side;
use refusals::Refusal;

// The side of a number.
fn side_given(side: u64) -> Side
    ensures { result ≡ side_given side }
{
    if side == 1 {
        return Side::Low;
    }
    Side::High
}

// The denominator, or 0 beside a number of no side, which is refused in its turn.
fn denominator_given(side: u64, denominator: u64) -> u64
    ensures { result ≡ denominator_given side denominator }
{
    if side <= 1 {
        return denominator;
    }
    0
}

// The numbers of the answer.
fn bound_numbers(answer: Result<u64, Refusal>) -> [u64; 3]
    ensures { result ≡ bound_numbers (bounded_say answer) }
{
    match answer {
        Ok(bound) => [0, 0, bound],
        Err(refusal) => refused(refusal),
    }
}

// Tells what `certificate::bound` answers: number, place and the bound (rules 12.9 and 18.10). Returns the number, 0 for no refusal; or 11 for fewer than
// three places, and then all that is lent stays as it was.
pub fn veilbuzz_bound(
    chart: &[u8],
    must: &[u8],
    may: &[u8],
    marks: &[u8],
    hit: u16,
    miss: u16,
    side: u64,
    coefficients: &[i64],
    limits: &[i64],
    multipliers: &[i64],
    potentials: &[i64],
    denominator: u64,
    answer: &mut [u64],
) -> u64
    ensures value { result ≡ returned (bound_short answer.old) (bound_says chart.now (entry_table must.now may.now marks.now) (asked (side_given side) hit miss (entry_facts coefficients limits) (entry_certificate multipliers potentials (denominator_given side denominator)))).number }
    ensures answer_after { answer.new ≡ told (bound_short answer.old) (bound_numbers (bound_says chart.now (entry_table must.now may.now marks.now) (asked (side_given side) hit miss (entry_facts coefficients limits) (entry_certificate multipliers potentials (denominator_given side denominator))))) answer.old }
{
    if answer.len() < 3 {
        return no_room();
    }
    let which = side_given(side);
    let whole = denominator_given(side, denominator);
    let numbers = bound_numbers(certificate::bound(
        chart,
        must,
        may,
        marks,
        hit,
        miss,
        which,
        coefficients,
        limits,
        multipliers,
        potentials,
        whole,
    ));
    tell(&numbers, answer);
    numbers[0]
}
