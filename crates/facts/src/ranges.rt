// Whether the numbers of facts and of a certificate are in the ranges in which no sum overflows (rule 18.8). Lists may have any length.
ghost use Rattle.std.specs.Prelude.{◌≡◌, ℤ, leb, nat_abs};
ghost use Rattle.std.specs.List.{list_all};
ghost use Rattle.facts.specs.Certificate.{all_within, multipliers_fit, in_range};
ghost use Rattle.facts.specs.Listed.{entry_facts, entry_certificate};

use crate::parts::Parts;

// The ends of the ranges: of a denominator, of all multipliers together, of a coefficient or a limit, and of a potential.
const MOST_DENOMINATOR: u64 = 0x1_0000_0000;

const MOST_MULTIPLIERS: u64 = 0x10_0000_0000;

const MOST_COEFFICIENT: u64 = 0x100_0000;

const MOST_POTENTIAL: u64 = 0x1000_0000_0000_0000;

// So many numbers are looked at in one go, without a jump; the first go that has one out of range is the last.
const STRETCH: usize = 512;

// Whether every number of a part is from -most to most. Each is looked at.
fn part_within(part: &[i64], most: u64) -> bool
    ensures { result ≡ list_all (λ (number : ℤ). leb (nat_abs number) most) part.now }
{
    let mut fit = true;
    for number in part {
        fit = fit & (number.unsigned_abs() <= most);
    }
    fit
}

// Whether every number of a list is from -most to most.
fn all_within(numbers: &[i64], most: u64) -> bool
    ensures { result ≡ all_within most numbers.now }
{
    for part in numbers.chunks(STRETCH) {
        if !part_within(part, most) {
            return false;
        }
    }
    true
}

// Whether no multiplier is below 0, and all together are no more than the most. It stops before their sum could overflow.
fn multipliers_fit(multipliers: &[i64]) -> bool
    ensures { result ≡ multipliers_fit multipliers.now }
{
    let mut sum = 0;
    for multiplier in multipliers {
        let parts = Parts::from(*multiplier);
        if 0 < parts.below {
            return false;
        }
        if MOST_MULTIPLIERS - sum < parts.above {
            return false;
        }
        sum += parts.above;
    }
    true
}

// Whether all numbers are in their ranges.
pub fn in_range(
    coefficients: &[i64],
    limits: &[i64],
    multipliers: &[i64],
    potentials: &[i64],
    denominator: u64,
) -> bool
    ensures { result ≡ in_range (entry_facts coefficients limits) (entry_certificate multipliers potentials denominator) }
{
    (1..=MOST_DENOMINATOR).contains(&denominator)
        && all_within(coefficients, MOST_COEFFICIENT)
        && all_within(limits, MOST_COEFFICIENT)
        && multipliers_fit(multipliers)
        && all_within(potentials, MOST_POTENTIAL)
}
