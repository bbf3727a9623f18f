// The checker: answers yes or no, whether a lent table passes (rule 7.7), or refuses with the first of 1 to 11 that applies. It looks at the used
// parts of the table alone, and writes to nothing that is lent.
#![tactic(auto)]

mod allowing;
mod fitting;
mod passing;

ghost use Rattle.std.specs.Prelude.{◌≡◌};
ghost use Rattle.plan.specs.AsPlan.{drawn_as};
ghost use Rattle.tables.specs.AsTable.{lent_as};
ghost use Rattle.tables.specs.Contract.{entry_table};
ghost use Rattle.checker.specs.Checker.{passing, checked_by, checked, checked_says, check_says};

use crate::allowing::row_allows;
use crate::passing::nodes_passing;
use plan::DrawnPlan;
use refusals::Refusal;
use rows::Row;
use tables::{PlanTable, Table};

// Whether a table that is long enough passes.
fn table_passing(table: PlanTable) -> bool
    ensures { result ≡ passing (drawn_as table.entry.plan) (lent_as table.entry.table) }
{
    let plan = table.plan;
    let blocks = plan.blocks();
    let entry = plan.entry();
    let start = Row::start(plan.columns, plan.starts_empty());
    let begins = row_allows(table.table, blocks, start, entry);
    begins & nodes_passing(table)
}

// Answers yes or no for a plan, or refuses a table that is shorter than used (11). What looks at the table is handed its used parts alone. Callers
// keep that the two lists hold a plan.
pub fn check_drawn(plan: DrawnPlan, table: Table) -> Result<bool, Refusal>
    ensures { result ≡ checked_by (drawn_as plan.entry) (lent_as table.entry) }
{
    let nodes = plan.nodes();
    let blocks = plan.blocks();
    let used = nodes * blocks;
    let short = (table.must.len() < used)
        | ((table.may.len() < used) | (table.marks.len() < nodes));
    if short {
        return Err(Refusal::ShortBuffer);
    }
    let used_table = Table {
        must: &table.must[..used],
        may: &table.may[..used],
        marks: &table.marks[..nodes],
    };
    Ok(table_passing(PlanTable {
        plan: plan,
        table: used_table,
    }))
}

// Answers for any bytes and any lent table: yes or no, or the first of refusals 1 to 11 that applies (rules 12.5 and 12.7).
pub fn check(chart: &[u8], must: &[u8], may: &[u8], marks: &[u8]) -> Result<bool, Refusal>
    ensures value { result ≡ checked chart.now (entry_table must.now may.now marks.now) }
    ensures result_value { checked_says result ≡ check_says chart.now (entry_table must.now may.now marks.now) }
{
    let mut columns = [0u8; plan::COLUMNS];
    let mut drawn = [0u16; plan::LENGTH];
    drawing::draw(chart, &mut columns, &mut drawn).verdict?;
    let plan = DrawnPlan {
        columns: &columns,
        numbers: &drawn,
    };
    let table = Table {
        must: must,
        may: may,
        marks: marks,
    };
    check_drawn(plan, table)
}
