// The totals: answers the low and the high total of a lent table, or refuses with the first of 1 to 11 and 13 to 17 that applies. It looks at the
// used parts of the table alone, and writes to nothing that is lent.
#![tactic(auto)]

mod bounds;
mod charging;
mod sums;

ghost use Rattle.std.specs.Prelude.{◌≡◌};
ghost use Rattle.plan.specs.AsPlan.{drawn_as};
ghost use Rattle.tables.specs.AsTable.{lent_as};
ghost use Rattle.tables.specs.Contract.{entry_table};
ghost use Rattle.totals.specs.Totals.{entry_figures, totalled_by, totals, totals_say, total_says};

use crate::bounds::{first_crossed, first_floor_at_unmarked};
use crate::sums::sum_nodes;
pub use charging::charged_blocks;
use plan::DrawnPlan;
use refusals::Refusal;
pub use sums::{Tariff, charge, high_rate, low_rate};
use tables::{PlanTable, Table};

// The low and the high total.
#[derive(Clone, Copy)]
pub struct Totals {
    pub low: u64,
    pub high: u64,
}

// What the totals answer for a table that passes: one of refusals 14 to 17, or the two sums.
fn total_drawn(
    table: PlanTable,
    tariff: Tariff,
    floors: &[u16],
    ceilings: &[u16],
) -> Result<Totals, Refusal>
    ensures { result ≡ totalled_by (drawn_as table.entry.plan) (lent_as table.entry.table) (entry_figures tariff.hit tariff.miss floors ceilings) }
{
    let nodes = table.plan.nodes();
    let whole = (floors.len() == nodes) & (ceilings.len() == nodes);
    if !whole {
        return Err(Refusal::BoundsLength);
    }
    if tariff.miss < tariff.hit {
        return Err(Refusal::MissBelowHit);
    }
    if let Some(node) = first_crossed(floors, ceilings, nodes) {
        return Err(Refusal::FloorAboveCeiling(node));
    }
    if let Some(node) = first_floor_at_unmarked(table.table.marks, floors, nodes) {
        return Err(Refusal::FloorAtUnmarked(node));
    }
    Ok(sum_nodes(table, tariff, floors, ceilings))
}

// Answers for any bytes, lent table, costs, floors and ceilings: the two totals (rules 10.2 to 10.4), or the first of refusals 1 to 11 and 13 to 17
// that applies (rules 12.6 and 12.7).
pub fn total<'a>(
    chart: &[u8],
    must: &'a [u8],
    may: &'a [u8],
    marks: &'a [u8],
    hit: u16,
    miss: u16,
    floors: &[u16],
    ceilings: &[u16],
) -> Result<Totals, Refusal>
    ensures value { result ≡ totals chart.now (entry_table must.now may.now marks.now) (entry_figures hit miss floors ceilings) }
    ensures result_value { totals_say result ≡ total_says chart.now (entry_table must.now may.now marks.now) (entry_figures hit miss floors ceilings) }
{
    let mut columns = [0u8; plan::COLUMNS];
    let mut plan = [0u16; plan::LENGTH];
    drawing::draw(chart, &mut columns, &mut plan).verdict?;
    let drawn = DrawnPlan {
        columns: &columns,
        numbers: &plan,
    };
    let lent = Table {
        must: must,
        may: may,
        marks: marks,
    };
    let passes = checker::check_drawn(drawn, lent)?;
    if !passes {
        return Err(Refusal::NotPassing);
    }
    let table = PlanTable {
        plan: drawn,
        table: lent,
    };
    total_drawn(
        table,
        Tariff {
            hit: hit,
            miss: miss,
        },
        floors,
        ceilings,
    )
}
