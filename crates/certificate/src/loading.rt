// What is charged once for each block that is kept at a node that no fact rules out, and the bound with it (rule 18.6). Callers keep that the plan is
// drawn, that there are classes for all nodes, and coefficients for all facts. Nothing is refused here.
ghost use Rattle.std.specs.Prelude.{◌≡◌, ◌*◌, ◌<◌, ◌≤◌, length};
ghost use Rattle.chart.specs.Geometry.{most_blocks, most_touches};
ghost use Rattle.plan.specs.Listed.{nodes_in};
ghost use Rattle.facts.specs.Certificate.{most_denominator};
ghost use Rattle.facts.specs.Listed.{passed_facts, entry_facts};
ghost use Rattle.facts.specs.Inner.{SmallLeft, FactsLaid};
ghost use Rattle.certificate.specs.Inner.{loads_by, bound_by};

use crate::visiting::Price;
use chart::Geometry;
use facts::{Parts, Side};
use plan::DrawnPlan;
use totals::Tariff;

// What is charged once for each such block, added up.
pub(crate) fn loads_of(
    plan: DrawnPlan,
    classes: &[u8],
    coefficients: &[i64],
    limits: &[i64],
    tariff: Tariff,
    nodes: usize,
) -> u64
    requires nodes_value { (nodes ≡ nodes_in plan.numbers.now) × (most_touches * nodes ≤ length classes.now) }
    requires facts_laid { FactsLaid nodes (passed_facts coefficients limits) }
    requires hit_le_miss { tariff.hit ≤ tariff.miss }
    ensures value { result ≡ loads_by tariff plan.entry.numbers.now classes.now (entry_facts coefficients limits) }
    ensures upper_bound { result ≤ 65535 * most_blocks }
{
    let mut open = [0u16; Geometry::NODES];
    facts::write_openings(coefficients, limits, nodes, &mut open);
    let blocks = totals::charged_blocks(plan, classes, &open);
    totals::charge(tariff, blocks)
}

impl Price {
    // The bound on the side: Z / D rounded down with what is charged, or -Z / D rounded up.
    pub(crate) fn bound_at(self, top: Parts, loads: u64) -> u64
        requires small_left { SmallLeft top }
        requires denominator_nonzero { (0 < self.denominator) × (self.denominator ≤ most_denominator) }
        requires loads_bound { loads ≤ 65535 * most_blocks }
        ensures { result ≡ bound_by self.side self.denominator top loads }
    {
        match self.side {
            Side::High => facts::most_of(top, self.denominator) + loads,
            Side::Low => facts::least_of(top, self.denominator),
        }
    }
}
