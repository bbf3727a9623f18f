// What one visit of a node costs on a side, and what it is left with (rule 18.3). Callers keep that there are classes for a node that is looked at; for all
// nodes, with lists long enough and numbers in their ranges, `Claimed` has them. Nothing is refused here.
ghost use Rattle.std.specs.Prelude.{◌≡◌, ◌+◌, ◌*◌, ◌<◌, ◌≤◌, length};
ghost use Rattle.chart.specs.Geometry.{most_touches};
ghost use Rattle.costs.specs.Costs.{class_cost};
ghost use Rattle.facts.specs.Inner.{SmallParts, SmallLeft};
ghost use Rattle.totals.specs.Inner.{costs_of, classes_cost};
ghost use Rattle.certificate.specs.Bound.{side_rate};
ghost use Rattle.certificate.specs.Inner.{passed_lists, Laid, most_scaled, left_in, left_by};

use chart::Geometry;
use facts::{Parts, Side};
use totals::Tariff;

// The side of a bound, what a hit and a miss cost, and the denominator.
#[derive(Clone, Copy)]
pub(crate) struct Price {
    pub side: Side,
    pub tariff: Tariff,
    pub denominator: u64,
}

impl Price {
    // What a touch of this class counts on the side.
    fn side_rate(self, class: u8) -> u16
        ensures { result ≡ side_rate self.side (costs_of self.tariff) class }
    {
        match self.side {
            Side::High => totals::high_rate(class, self.tariff),
            Side::Low => totals::low_rate(class, self.tariff),
        }
    }

    // The same, and nothing where a node is not reached, or there is no such touch.
    fn touch_cost(self, class: u8) -> u16
        ensures { result ≡ class_cost (side_rate self.side (costs_of self.tariff)) class }
    {
        if (class == classing::UNREACHED) | (class == classing::NONE) {
            return 0;
        }
        self.side_rate(class)
    }

    // What one visit of node n costs.
    fn visit_cost(self, classes: &[u8], n: usize) -> u64
        requires { most_touches * n + 1 < length classes.now }
        ensures value { result ≡ classes_cost (side_rate self.side (costs_of self.tariff)) classes.now n }
        ensures upper_bound { result ≤ 2 * 65535 }
    {
        let first = classes[Geometry::TOUCHES * n];
        let second = classes[Geometry::TOUCHES * n + 1];
        u64::from(self.touch_cost(first)) + u64::from(self.touch_cost(second))
    }
}

// What a visit is left with: its cost times the denominator, above 0 on the high side and below on the low one, less multipliers times coefficients.
fn left_of(side: Side, scaled: u64, weights: Parts) -> Parts
    requires scaled_le_most_scaled { scaled ≤ most_scaled }
    requires small_parts { SmallParts weights }
    ensures value { result ≡ left_in side scaled weights }
    ensures small_left { SmallLeft result }
{
    match side {
        Side::High => Parts {
            above: scaled + weights.below,
            below: weights.above,
        },
        Side::Low => Parts {
            above: weights.below,
            below: scaled + weights.above,
        },
    }
}

// A certificate and coefficients beside the classes of all nodes: lists long enough for so many nodes, and numbers in their ranges.
#[derive(Clone, Copy)]
pub(crate) struct Claimed<'a> {
    pub classes: &'a [u8],
    pub coefficients: &'a [i64],
    pub multipliers: &'a [i64],
    pub potentials: &'a [i64],
    pub price: Price,
    pub nodes: usize,
    pub ghost laid: { Laid price (passed_lists classes coefficients multipliers potentials) nodes },
}

impl Claimed<'_> {
    ghost use Rattle.certificate.specs.Given.{lists_in};

    // What a visit of node n is left with.
    pub(crate) fn left_with(&self, n: usize) -> Parts
        requires n_lt_nodes { n < self.now.nodes }
        ensures value { result ≡ left_by self.now.price (lists_in self.now) self.now.nodes n }
        ensures small_left { SmallLeft result }
    {
        let weights = facts::weigh(self.multipliers, self.coefficients, self.nodes, n);
        let cost = self.price.visit_cost(self.classes, n);
        left_of(self.price.side, self.price.denominator * cost, weights)
    }
}
