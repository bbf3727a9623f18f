// Multipliers times numbers that stand some places apart in a list (rules 18.3 and 18.5). No sum overflows: all multipliers together and each number
// are no more than the ranges of rule 18.8 allow.
ghost use Rattle.std.specs.Prelude.{◌≡◌};
ghost use Rattle.facts.specs.Inner.{Weighable, SmallParts, parts_weighed};

use crate::parts::Parts;

// Each multiplier times one number, added up, what is above 0 and what is below: those that stand `stride` places apart, from `start` on. The place is
// worked out: `start` may lie behind the end of a list where there is no multiplier, so no slice begins there.
pub fn weigh(multipliers: &[i64], numbers: &[i64], stride: usize, start: usize) -> Parts
    requires { Weighable multipliers.now numbers.now stride start }
    ensures value { result ≡ parts_weighed multipliers.now numbers.now stride start }
    ensures small_parts { SmallParts result }
{
    let mut sum = Parts { above: 0, below: 0 };
    for (f, multiplier) in multipliers.iter().enumerate() {
        let weight = Parts::from(*multiplier).above;
        let number = Parts::from(numbers[f * stride + start]);
        sum.above += weight * number.above;
        sum.below += weight * number.below;
    }
    sum
}
