// The sounding of the totals, through the code: the loop of docs/RULES.md, its table, its totals at 1 for a hit and 10 for a miss, and a deadline.
// Beside it a record that writes, and that every slice of bytes has numbers below 256. Each function promises what it answers; none refuses.
ghost use Rattle.std.specs.Prelude.{◌≡◌, [], ◌∷◌, ◌<◌, true};
ghost use Rattle.analysis.specs.Analysis.{table_in};
ghost use Rattle.clock.specs.Sounded.{number};
ghost use Rattle.demands.specs.Timely.{least, most};
ghost use Rattle.chart.specs.Bytes.{AreBytes};
ghost use Rattle.chart.specs.Sounded.{three_kinds, node_out};
ghost use Rattle.demands.specs.Charts.{loop_chart};
ghost use Rattle.demands.specs.Soundings.{after};
ghost use Rattle.deadline.specs.Deadline.{judged_with};
ghost use Rattle.totals.specs.Totals.{totals_between};

use chart::{Geometry, Node, Reference};
use clock::{ClockSheet, Deadline};
use deadline::Judged;
use refusals::Refusal;
use totals::Totals;

// The loop chart's table, with room for its three nodes and for two blocks.
#[derive(Drop)]
struct Table {
    must: [u8; 6],
    may: [u8; 6],
    marks: [u8; 3],
}

// The bytes of the loop chart.
fn loop_chart() -> [u8; 32]
    ensures { result ≡ loop_chart }
{
    *b"\x01\x40\x24\x00\x00\x30\x00\x00\
       \x00\x00\x00\x00\x10\x01\x00\x00\
       \x40\x00\x00\x00\x20\x01\x00\x20\
       \x40\x00\x00\x00\x00\x00\x00\x00"
}

// The table that the analysis of the loop chart leaves in buffers of zeros.
fn loop_table() -> Table
    ensures { record { must = result.must; may = result.may; marks = result.marks } ≡ table_in (after loop_chart) }
{
    let chart = loop_chart();
    let mut blocks = [0u32; 2];
    let mut must = [0u8; 6];
    let mut may = [0u8; 6];
    let mut marks = [0u8; 3];
    let mut classes = [0u8; 6];
    let _ = analysis::analyse(
        &chart,
        Geometry::PASSES,
        &mut blocks,
        &mut must,
        &mut may,
        &mut marks,
        &mut classes,
    );
    Table {
        must: must,
        may: may,
        marks: marks,
    }
}

// What the checker answers for that table.
pub(crate) fn loop_checked() -> Result<bool, Refusal>
    ensures { result ≡ (Ok true) }
{
    let chart = loop_chart();
    let table = loop_table();
    let must = table.must;
    let may = table.may;
    let marks = table.marks;
    checker::check(&chart, &must, &may, &marks)
}

// What the totals answer for that table and the sounding's costs, floors and ceilings.
pub(crate) fn loop_totals() -> Result<Totals, Refusal>
    ensures { result ≡ totals_between 2 20 }
{
    let chart = loop_chart();
    let table = loop_table();
    let must = table.must;
    let may = table.may;
    let marks = table.marks;
    let floors = [1u16, 1, 1];
    let ceilings = [1u16, 10, 1];
    totals::total(&chart, &must, &may, &marks, 1, 10, &floors, &ceilings)
}

// What is answered for that table and those costs at 0.125 microseconds a cycle and an overhead of 2, against 4.5, which is the figure of 20 cycles.
pub(crate) fn loop_judged() -> Result<Judged, Refusal>
    ensures { result ≡ judged_with true (number least) (number most) }
{
    let chart = loop_chart();
    let table = loop_table();
    let must = table.must;
    let may = table.may;
    let marks = table.marks;
    let fewest = [1u16, 1, 1];
    let most = [1u16, 10, 1];
    let sheet = ClockSheet {
        period: 0.125,
        overhead: 2.0,
    };
    deadline::judge(
        &chart,
        &must,
        &may,
        &marks,
        1,
        10,
        &fewest,
        &most,
        sheet,
        Deadline::Latest(4.5),
    )
}

// Bytes that hold a read, a write and a step; they are no chart, since there are fewer records than their header says.
pub(crate) fn three_kinds() -> [u8; 32]
    ensures { result ≡ three_kinds }
{
    *b"\x01\x53\x64\x00\x0F\xF1\x23\x00\
       \x77\xAB\x6F\xBB\xE1\x23\x45\x60\
       \xB7\xAB\x6F\xBB\xE1\x23\x45\x61\
       \x37\xAB\x6F\xBB\xE1\x23\x45\x60"
}

// What the record of node 1 in them says.
pub(crate) fn written_node() -> Node<Reference>
    ensures { node_out result ≡ 2 ∷ 0xDEADBEEF ∷ 0xDEADBEF0 ∷ 2 ∷ 0x123 ∷ 0x456 ∷ [] }
{
    let chart = three_kinds();
    chart::node_at(&chart, 1)
}

// Whatever bytes are lent are numbers below 256, which is all that demand 1 asks where it goes byte by byte.
pub(crate) fn are_bytes(lent: &[u8])
    ensures { AreBytes lent.now }
{
    for byte in lent {
        u64::from(*byte);
    }
}
