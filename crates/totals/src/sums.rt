// Works out both sums over the nodes by their classes (rules 10.2 to 10.4). Callers keep that there is room for the table, and that each node has a
// floor and a ceiling. No sum overflows, since there are no more nodes and blocks than a chart may have, and two touches of each node at most. Nothing is
// refused here.
ghost use Rattle.std.specs.Prelude.{◌≡◌, ◌-◌, ◌*◌, ◌≤◌, length};
ghost use Rattle.chart.specs.Geometry.{most_nodes, most_blocks, most_touches};
ghost use Rattle.plan.specs.Listed.{nodes_in};
ghost use Rattle.plan.specs.AsPlan.{drawn_as};
ghost use Rattle.tables.specs.Lent.{table_of};
ghost use Rattle.tables.specs.AsTable.{lent_as};
ghost use Rattle.costs.specs.Costs.{low_rate, high_rate};
ghost use Rattle.totals.specs.Totals.{entry_figures};
ghost use Rattle.totals.specs.Inner.{costs_of, Small, touch_added, sums_to, both_sums};

use crate::Totals;
use crate::charging::charged_blocks;
use chart::Geometry;
use tables::PlanTable;

// What a hit and what a miss cost.
#[derive(Clone, Copy)]
pub struct Tariff {
    pub hit: u16,
    pub miss: u16,
}

// What the low total counts for a touch of this class: the miss cost for a miss, else the hit cost.
pub fn low_rate(class: u8, tariff: Tariff) -> u16
    ensures { result ≡ low_rate (costs_of tariff) class }
{
    if class == classing::MISS {
        tariff.miss
    } else {
        tariff.hit
    }
}

// What the high total counts for it: the hit cost for a hit and for what is kept, else the miss cost.
pub fn high_rate(class: u8, tariff: Tariff) -> u16
    ensures { result ≡ high_rate (costs_of tariff) class }
{
    if (class == classing::HIT) | (class == classing::KEPT) {
        tariff.hit
    } else {
        tariff.miss
    }
}

// The sums with one touch of this class added; a node that is not reached, and a touch that is not made, hand them back.
fn add_touch(sums: Totals, class: u8, tariff: Tariff, floor: u16, ceiling: u16) -> Totals
    requires { Small (most_touches * most_nodes) sums }
    ensures { result ≡ touch_added (costs_of tariff) class floor ceiling sums }
{
    if (class == classing::UNREACHED) | (class == classing::NONE) {
        return sums;
    }
    let least = low_rate(class, tariff);
    let most = high_rate(class, tariff);
    Totals {
        low: sums.low + floor as u64 * least as u64,
        high: sums.high + ceiling as u64 * most as u64,
    }
}

// The sums over so many nodes by a list of their classes, touch by touch, but for what rule 10.4 adds.
fn sum_classes(
    classes: &[u8],
    nodes: usize,
    tariff: Tariff,
    floors: &[u16],
    ceilings: &[u16],
) -> Totals
    requires nodes_le_most_nodes { (nodes ≤ most_nodes) × (most_touches * nodes ≤ length classes.now) }
    requires nodes_in_bounds { (nodes ≤ length floors.now) × (nodes ≤ length ceilings.now) }
    ensures value { result ≡ sums_to classes.now (entry_figures tariff.hit tariff.miss floors ceilings) nodes }
    ensures small { Small (most_touches * nodes) result }
{
    let mut sums = Totals { low: 0, high: 0 };
    for n in 0..nodes {
        let floor = floors[n];
        let ceiling = ceilings[n];
        let first = classes[Geometry::TOUCHES * n];
        let second = classes[Geometry::TOUCHES * n + 1];
        let once = add_touch(sums, first, tariff, floor, ceiling);
        sums = add_touch(once, second, tariff, floor, ceiling);
    }
    sums
}

// What is charged once for each of so many blocks: the difference between a miss and a hit.
pub fn charge(tariff: Tariff, blocks: usize) -> u64
    requires { (tariff.hit ≤ tariff.miss) × (blocks ≤ most_blocks) }
    ensures { result ≡ (tariff.miss - tariff.hit) * blocks }
{
    (tariff.miss - tariff.hit) as u64 * blocks as u64
}

// The low and the high total of a table: the sums by the classes of its nodes, and in the high one the difference for each block that has a kept touch.
pub(crate) fn sum_nodes(
    table: PlanTable,
    tariff: Tariff,
    floors: &[u16],
    ceilings: &[u16],
) -> Totals
    requires plan_in_bounds { (nodes_in table.plan.numbers.now ≤ length floors.now) × (nodes_in table.plan.numbers.now ≤ length ceilings.now) }
    requires hit_le_miss { tariff.hit ≤ tariff.miss }
    ensures { result ≡ both_sums (drawn_as table.entry.plan) (table_of (drawn_as table.entry.plan) (lent_as table.entry.table)) (entry_figures tariff.hit tariff.miss floors ceilings) }
{
    let plan = table.plan;
    let nodes = plan.nodes();
    let mut classes = [0u8; Geometry::CLASSES];
    classing::write_classes(table, &mut classes);
    let sums = sum_classes(&classes, nodes, tariff, floors, ceilings);
    let blocks = charged_blocks(plan, &classes, ceilings);
    let once = charge(tariff, blocks);
    Totals {
        low: sums.low,
        high: sums.high + once,
    }
}
