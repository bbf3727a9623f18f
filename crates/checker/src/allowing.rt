// Works out whether rows of a lent table allow the ages that come to them (rules 7.5 and 7.6). Callers keep that these rows and their marks are
// there, and that a row has no more blocks than a chart may have. Nothing is refused here.
ghost use Rattle.std.specs.Prelude.{◌≡◌};
ghost use Rattle.lists.specs.Choice.{every_of};
ghost use Rattle.chart.specs.Record.{arrows_of};
ghost use Rattle.rows.specs.Rows.{ages_in};
ghost use Rattle.tables.specs.AsTable.{lent_as};
ghost use Rattle.checker.specs.Checker.{allows};
ghost use Rattle.checker.specs.Inner.{RowIn, TargetsIn};

use chart::Targets;
use rows::Row;
use tables::Table;

// Whether node t is marked, and has no must age below that of a row and no may age above it.
// By places, since four lists are looked at at once, and without a jump.
pub(crate) fn row_allows(table: Table, blocks: usize, row: Row, t: usize) -> bool
    requires { RowIn blocks (lent_as table) t }
    ensures { result ≡ allows blocks (lent_as table.entry) (ages_in row) t }
{
    let base = t * blocks;
    let must = table.must;
    let may = table.may;
    let row_must = row.must;
    let row_may = row.may;
    let mut covers = true;
    for k in 0..blocks {
        covers = covers & ((row_must[k] <= must[base + k]) & (may[base + k] <= row_may[k]));
    }
    (table.marks[t] != 0) & covers
}

// Whether all targets of a node allow a row; true of a node without arrows.
pub(crate) fn targets_allow(table: Table, blocks: usize, row: Row, targets: Targets) -> bool
    requires { TargetsIn blocks (lent_as table) targets }
    ensures { result ≡ every_of (allows blocks (lent_as table.entry) (ages_in row)) (arrows_of targets) }
{
    let outs = targets.outs;
    let first = targets.first;
    let second = targets.second;
    if outs == 0 {
        return true;
    }
    let one = row_allows(table, blocks, row, first);
    if outs == 1 {
        return one;
    }
    let other = row_allows(table, blocks, row, second);
    one & other
}
