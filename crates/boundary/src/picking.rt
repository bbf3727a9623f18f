// One node of a chart, and the list of its blocks, as functions for C. Each returns the refusal's number, 0 for none, and leaves what the functions of
// `fields` leave; without room for its answer, or for a node's fields, it returns 11, and has done nothing.
ghost use Rattle.std.specs.Prelude.{◌≡◌, ◌≤◌, length};
ghost use Rattle.fields.specs.Fields.{node_read, node_says, read_node_says, blocks_read, blocks_say, read_blocks_say};
ghost use Rattle.boundary.specs.Told.{node_short, blocks_short, returned, left, told, node_numbers, fields_told, blocks_numbers};

use crate::telling::{no_room, refused, tell};
use chart::RecordFields;
use refusals::Refusal;

// The numbers of the answer for a node.
fn node_numbers(answer: Result<Option<RecordFields>, Refusal>) -> [u64; 3]
    ensures { result ≡ node_numbers (node_says answer) }
{
    match answer {
        Ok(Some(_)) => [0, 0, 1],
        Ok(None) => [0, 0, 0],
        Err(refusal) => refused(refusal),
    }
}

// The numbers of the answer for the blocks.
fn blocks_numbers(answer: Result<usize, Refusal>) -> [u64; 3]
    ensures { result ≡ blocks_numbers (blocks_say answer) }
{
    match answer {
        Ok(count) => [0, 0, count as u64],
        Err(refusal) => refused(refusal),
    }
}

// Tells the fields of a node that there is in a lent list; else the list stays as it was.
fn tell_fields(answer: Result<Option<RecordFields>, Refusal>, lent: &mut [u64])
    requires { 6 ≤ length lent.old }
    ensures { lent.new ≡ fields_told answer lent.old }
{
    if let Ok(Some(fields)) = answer {
        let numbers = [
            fields.kind,
            fields.address,
            fields.size,
            fields.outs,
            fields.first,
            fields.second,
        ];
        tell(&numbers, lent);
    }
}

// Tells what `fields::read_node` answers: number, place, and 1 for a node that there is or 0 for one that there is not, and the node's fields in a
// list of its own (rule 12.9). Returns the number, 0 for no refusal; or 11 for fewer than three places or fewer than six for the fields, and then
// all that is lent stays as it was.
pub fn veilbuzz_node(chart: &[u8], node: usize, fields: &mut [u64], answer: &mut [u64]) -> u64
    ensures value { result ≡ returned (node_short fields.old answer.old) (read_node_says chart.now node).number }
    ensures fields_after { fields.new ≡ left (node_short fields.old answer.old) fields.old (fields_told (node_read chart.now node) fields.old) }
    ensures answer_after { answer.new ≡ told (node_short fields.old answer.old) (node_numbers (read_node_says chart.now node)) answer.old }
{
    let short = (fields.len() < 6) | (answer.len() < 3);
    if short {
        return no_room();
    }
    let given = fields::read_node(chart, node);
    tell_fields(given, fields);
    let numbers = node_numbers(given);
    tell(&numbers, answer);
    numbers[0]
}

// Tells what `fields::read_blocks` answers: number, place and B (rule 12.9). Returns the number, 0 for no refusal; or 11 for fewer than three
// places, and then all that is lent stays as it was.
pub fn veilbuzz_blocks(chart: &[u8], blocks: &mut [u32], answer: &mut [u64]) -> u64
    ensures value { result ≡ returned (blocks_short answer.old) (read_blocks_say chart.now blocks.old).number }
    ensures blocks_after { blocks.new ≡ left (blocks_short answer.old) blocks.old (blocks_read chart.now blocks.old).blocks }
    ensures answer_after { answer.new ≡ told (blocks_short answer.old) (blocks_numbers (read_blocks_say chart.now blocks.old)) answer.old }
{
    if answer.len() < 3 {
        return no_room();
    }
    let numbers = blocks_numbers(fields::read_blocks(chart, blocks));
    tell(&numbers, answer);
    numbers[0]
}
