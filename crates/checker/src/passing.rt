// Works out whether the nodes of a lent table keep rules 7.2 to 7.4 and 7.6; of the entry (rule 7.5) the caller knows. Callers keep that there is
// room for the table of a plan. Nothing is refused here.
ghost use Rattle.std.specs.Prelude.{◌≡◌, ◌<◌};
ghost use Rattle.lists.specs.Choice.{every};
ghost use Rattle.plan.specs.Listed.{nodes_in};
ghost use Rattle.plan.specs.AsPlan.{drawn_as};
ghost use Rattle.tables.specs.AsTable.{lent_as};
ghost use Rattle.checker.specs.Checker.{node_passing};

use crate::allowing::targets_allow;
use crate::fitting::{row_fits, row_zero};
use chart::Geometry;
use rows::Row;
use tables::PlanTable;

// Whether node n's mark is plain, its ages fit, and its row is 0 where it is not marked, or its targets allow its row after its record.
fn node_passing(table: PlanTable, n: usize) -> bool
    requires { n < nodes_in table.plan.numbers.now }
    ensures { result ≡ node_passing (drawn_as table.entry.plan) (lent_as table.entry.table) n }
{
    let plan = table.plan;
    let ages = table.table;
    let blocks = plan.blocks();
    let fits = row_fits(plan.columns, ages.must, ages.may, blocks, n);
    if ages.marks[n] == 0 {
        return fits & row_zero(ages.must, ages.may, blocks, n);
    }
    let node = plan.node(n);
    let planned = node.what;
    let targets = node.targets;
    let mut musts = [0u8; Geometry::BLOCKS];
    let mut mays = [0u8; Geometry::BLOCKS];
    tables::row_after(
        ages.must,
        ages.may,
        plan.columns,
        blocks,
        n,
        planned,
        &mut musts,
        &mut mays,
    );
    let allowed = targets_allow(
        ages,
        blocks,
        Row {
            must: musts,
            may: mays,
        },
        targets,
    );
    (ages.marks[n] <= 1) & (fits & allowed)
}

// Whether every node passes; the first that fails decides.
pub(crate) fn nodes_passing(table: PlanTable) -> bool
    ensures { result ≡ every (nodes_in table.entry.plan.numbers.now) (node_passing (drawn_as table.entry.plan) (lent_as table.entry.table)) }
{
    (0..table.plan.nodes()).all(|n| node_passing(table, n))
}
