// Answers the report of any input, as text. Of a longer input only the first `TAKEN` bytes count (rule 13.1). Nothing is refused but in a report that
// says so.
ghost use Rattle.std.specs.Prelude.{◌≡◌, ◌≤◌};
ghost use Rattle.chart.specs.Header.{header_read};
ghost use Rattle.chart.specs.Geometry.{most_nodes, most_blocks, all_passes};
ghost use Rattle.analysis.specs.Analysis.{analysed};
ghost use Rattle.report.specs.Report.{zero_buffers, report as defined};
ghost use Rattle.report.specs.Ending.{refuses};
ghost use Rattle.report.specs.Written.{most_text, text_of, text_left, nodes_read};

use crate::text::{Text, written};
use chart::Geometry;

// The bytes of the longest chart, and one more, which tells a longer input from it.
pub const TAKEN: usize = Geometry::LONGEST + 1;

// The number of nodes in the header of any bytes, or 0 where it is refused.
fn nodes_of(chart: &[u8]) -> usize
    ensures { (result ≤ most_nodes) × (result ≡ nodes_read (header_read chart.now)) }
{
    chart::read_header(chart).map_or(0, |header| header.nodes)
}

// The report of any bytes, analysed in buffers of zeros for the largest chart. Put in place where it is called, its text would stand on the stack once
// more beside the caller's.
#[inline(never)]
fn report_bytes(chart: &[u8]) -> Text
    ensures value { result ≡ text_left chart.now (analysed chart.now all_passes (zero_buffers most_nodes most_blocks)) }
    ensures size_le_most_text { result.size ≤ most_text }
{
    let mut blocks = [0u32; Geometry::BLOCKS];
    let mut must = [0u8; Geometry::AGES];
    let mut may = [0u8; Geometry::AGES];
    let mut marks = [0u8; Geometry::NODES];
    let mut classes = [0u8; Geometry::CLASSES];
    let answer = analysis::analyse(
        chart,
        Geometry::PASSES,
        &mut blocks,
        &mut must,
        &mut may,
        &mut marks,
        &mut classes,
    );
    let nodes = nodes_of(chart);
    written(nodes, &classes, answer)
}

// Answers the text for any input, and whether that is a refusal: of its first `TAKEN` bytes, with `Geometry::PASSES` passes (rules 13.1 and 13.2).
pub fn report(input: &[u8]) -> Text
    ensures value { result ≡ text_of (defined input.now) (refuses input.now) }
    ensures size_le_most_text { result.size ≤ most_text }
{
    let taken = TAKEN.min(input.len());
    report_bytes(&input[..taken])
}
