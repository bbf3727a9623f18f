// Works out the two classes of each node of a lent table (rules 8.1 and 8.2), for the analysis, which leaves them, and the totals, which sum by them:
// first by the ages alone, and then what is unsure by the sets since. Callers keep that there is room for the table, and for the classes. Nothing is
// refused here.
#![tactic(auto)]

mod refining;
mod wanting;

ghost use Rattle.std.specs.Prelude.{◌≡◌, ◌*◌, ◌≤◌, ◌<◌, length, false};
ghost use Rattle.lists.specs.Lists.{written};
ghost use Rattle.chart.specs.Geometry.{most_blocks, most_touches};
ghost use Rattle.flow.specs.Flow.{cell_at};
ghost use Rattle.plan.specs.Listed.{nodes_in};
ghost use Rattle.plan.specs.AsPlan.{drawn_as};
ghost use Rattle.tables.specs.Lent.{table_of};
ghost use Rattle.tables.specs.AsTable.{lent_as};
ghost use Rattle.classes.specs.Class.{class_by, table_classes};
ghost use Rattle.classing.specs.Both.{pair_at, class_after, both_by_ages, age_table};

use crate::refining::refine_all;
use crate::wanting::wanted_columns;
use chart::Geometry;
use tables::PlanTable;

// The numbers of the classes (rule 8.1).
pub const UNREACHED: u8 = 0;

pub const HIT: u8 = 1;

pub const MISS: u8 = 2;

pub const UNSURE: u8 = 3;

pub const NONE: u8 = 4;

pub const KEPT: u8 = 5;

// The class of a touch by its block's must and may age and the most that its must age can be: hit, miss or unsure.
fn class_of(limit: u8, must: u8, may: u8) -> u8
    ensures { result ≡ class_by limit must may false }
{
    if must < limit {
        return HIT;
    }
    if may == limit {
        return MISS;
    }
    UNSURE
}

// The must and the may age of one block.
#[derive(Clone, Copy)]
pub(crate) struct Pair {
    pub must: u8,
    pub may: u8,
}

// The ages at a place of the two lists.
fn pair_at(must: &[u8], may: &[u8], place: usize) -> Pair
    requires { (place < length must.now) × (place < length may.now) }
    ensures { result ≡ pair_at must.now may.now place }
{
    Pair {
        must: must[place],
        may: may[place],
    }
}

// The class of a touch of the block in column `upper`, just after one of the block in another column, `lower` (rule 8.2), by the ages of the two
// before that: `first` of the lower, `second` of the upper.
fn class_after(columns: &[u8], lower: usize, upper: usize, first: Pair, second: Pair) -> u8
    requires lower_lt_most_blocks { (lower < most_blocks) × (upper < most_blocks) }
    requires most_blocks_in_bounds { 3 * most_blocks ≤ length columns.now }
    ensures { result ≡ class_after columns.now lower upper first second }
{
    let same = columns[upper] == columns[lower];
    let must = rows::must_age(same, first.must, second.must);
    let may = rows::may_age(
        columns[plan::MAY_LIMITS + upper],
        same,
        first.may,
        second.may,
    );
    class_of(columns[plan::MUST_LIMITS + upper], must, may)
}

// The two classes of a node, that of its first touch first.
#[derive(Clone, Copy)]
pub(crate) struct Classes {
    pub first: u8,
    pub second: u8,
}

// The classes of node n by its ages alone: unreached where it is not marked, none for a touch that it does not make, else those of its touches in
// turn.
fn classes_at(table: PlanTable, n: usize) -> Classes
    requires { n < nodes_in table.plan.numbers.now }
    ensures { result ≡ both_by_ages (drawn_as table.entry.plan) n (cell_at (table_of (drawn_as table.entry.plan) (lent_as table.entry.table)) n) }
{
    let plan = table.plan;
    let ages = table.table;
    if ages.marks[n] == 0 {
        return Classes {
            first: UNREACHED,
            second: UNREACHED,
        };
    }
    let node = plan.node(n);
    let planned = node.what;
    let Some(reference) = planned else {
        return Classes {
            first: NONE,
            second: NONE,
        };
    };
    let lower = reference.lower;
    let upper = reference.upper;
    let blocks = plan.blocks();
    let row = n * blocks;
    let before = pair_at(ages.must, ages.may, row + lower);
    let other = pair_at(ages.must, ages.may, row + upper);
    let first = class_of(
        plan.columns[plan::MUST_LIMITS + lower],
        before.must,
        before.may,
    );
    if lower == upper {
        return Classes {
            first: first,
            second: NONE,
        };
    }
    let second = class_after(plan.columns, lower, upper, before, other);
    Classes {
        first: first,
        second: second,
    }
}

// Writes the two classes of each node by its ages alone over the start of `classes`, which keeps the rest.
fn put_classes(table: PlanTable, classes: &mut [u8])
    requires { most_touches * nodes_in table.plan.numbers.now ≤ length classes.old }
    ensures { classes.new ≡ written (age_table (drawn_as table.entry.plan) (table_of (drawn_as table.entry.plan) (lent_as table.entry.table))) classes.old }
{
    let nodes = table.plan.nodes();
    for n in 0..nodes {
        let both = classes_at(table, n);
        let first = Geometry::TOUCHES * n;
        classes[first] = both.first;
        classes[first + 1] = both.second;
    }
}

// Writes the two classes of each node over the start of `classes`, which keeps the rest. What is kept is worked out only of the blocks of touches
// that are unsure by their ages.
pub fn write_classes(table: PlanTable, classes: &mut [u8])
    requires { most_touches * nodes_in table.plan.numbers.now ≤ length classes.old }
    ensures { classes.new ≡ written (table_classes (drawn_as table.entry.plan) (table_of (drawn_as table.entry.plan) (lent_as table.entry.table))) classes.old }
{
    let plan = table.plan;
    put_classes(table, classes);
    let wanted = wanted_columns(plan.numbers, classes);
    if wanted == 0 {
        return;
    }
    let mut stays = [0u8; Geometry::CLASSES];
    keeping::write_stays(plan.columns, plan.numbers, wanted, &mut stays);
    refine_all(&stays, classes, Geometry::TOUCHES * plan.nodes());
}
