// The blocks of a chart (rule 3.4): how many there are, and they themselves in an array, or refusal 10. Callers keep bytes that hold every record,
// references that end within 32 bits, and an array of zeros.
ghost use Rattle.std.specs.Prelude.{◌≡◌, [], ◌≤◌, length, take};
ghost use Rattle.lists.specs.Lists.{padded};
ghost use Rattle.blocks.specs.Blocks.{insert_all};
ghost use Rattle.blocks.specs.Listing.{Listing, Laid};
ghost use Rattle.chart.specs.Geometry.{most_blocks};
ghost use Rattle.chart.specs.Layout.{chart_length};
ghost use Rattle.chart.specs.Record.{touches_of, blocks_of, Ends};
ghost use Rattle.chart.specs.Chart.{records_in};
ghost use Rattle.chart.specs.Inner.{AllEnd, Gathers};

use crate::records::{Reference, node_at};
use crate::shape::Geometry;
use blocks::put_block;
use refusals::Refusal;

// Puts the blocks that a record touches into the first `count` of the array, as `put_block` does one. Where the lower block is one too many
// already, the upper one is not put in.
fn put_record(
    blocks: &mut [u32],
    count: usize,
    geometry: Geometry,
    what: Option<Reference>,
) -> Option<usize>
    requires listing { Listing most_blocks count blocks.old }
    requires ends { Ends what }
    ensures { Laid most_blocks (insert_all (blocks_of (touches_of geometry what)) (take count blocks.old)) result blocks.new }
{
    let Some(reference) = what else {
        return Some(count);
    };
    let lower = geometry.block_of(reference.address);
    let upper = geometry.block_of(reference.last as u32);
    let more = put_block(blocks, Geometry::BLOCKS, count, lower)?;
    if lower == upper {
        return Some(more);
    }
    put_block(blocks, Geometry::BLOCKS, more, upper)
}

// Gathers the blocks of all nodes into an array of zeros, and answers how many there are; or refuses with the first node that brings one too many
// (rule 11.10), and then what the array holds is not said.
pub fn gather(
    chart: &[u8],
    geometry: Geometry,
    nodes: usize,
    blocks: &mut [u32],
) -> Result<usize, Refusal>
    requires nodes_in_bounds { chart_length nodes ≤ length chart.now }
    requires blocks_value { blocks.old ≡ padded most_blocks [] }
    requires all_end { AllEnd (records_in chart.now) nodes }
    ensures { Gathers (records_in chart.now) geometry nodes result blocks.new }
{
    let mut count = 0;
    for n in 0..nodes {
        let what = node_at(chart, n).what;
        count = put_record(blocks, count, geometry, what).ok_or(Refusal::TooManyBlocks(n))?;
    }
    Ok(count)
}
