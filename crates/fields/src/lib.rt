// What stands in a chart, for callers who want to see it: `read_node` answers the fields of one node's record, and `read_blocks` the list of the
// blocks. Both read the whole chart first, and refuse what `chart::read` refuses; `read_blocks` gives 11 too, for a list that is too short.
#![tactic(auto)]

ghost use Rattle.std.specs.Prelude.{◌≡◌};
ghost use Rattle.fields.specs.Fields.{node_read, node_says, read_node_says, blocks_read, blocks_say, read_blocks_say, exit_blocks};

use blocks::write_blocks;
use chart::RecordFields;
use refusals::Refusal;

// The fields of node n's record, if n is below N, and else none; or the first of refusals 1 to 10 that applies (rule 15.1).
pub fn read_node(chart: &[u8], n: usize) -> Result<Option<RecordFields>, Refusal>
    ensures value { result ≡ node_read chart.now n }
    ensures result_value { node_says result ≡ read_node_says chart.now n }
{
    let accepted = chart::read(chart).verdict?;
    let nodes = accepted.header.nodes;
    if nodes <= n {
        return Ok(None);
    }
    Ok(Some(chart::fields_at(chart, n)))
}

// The blocks of a chart at the start of a lent list, and how many there are; or the first of refusals 1 to 11 that applies, and then the list
// stays as it was (rule 15.2).
pub fn read_blocks(chart: &[u8], blocks: &mut [u32]) -> Result<usize, Refusal>
    ensures result_value { exit_blocks blocks result ≡ blocks_read chart.now blocks.old }
    ensures result_value_2 { blocks_say result ≡ read_blocks_say chart.now blocks.old }
{
    let reading = chart::read(chart);
    let accepted = reading.verdict?;
    let count = accepted.blocks;
    if blocks.len() < count {
        return Err(Refusal::ShortBuffer);
    }
    write_blocks(&reading.blocks, count, blocks);
    Ok(count)
}
