// The nodes in six lists, one for each field: whether the lists are as long as N, and their records packed as words. Callers keep lists of the right
// length; a record that breaks its rules is refused.
ghost use Rattle.std.specs.Prelude.{◌≡◌, ◌≤◌, ◌<◌, length};
ghost use Rattle.chart.specs.Geometry.{most_nodes};
ghost use Rattle.chart.specs.Layout.{chart_length};
ghost use Rattle.writer.specs.Given.{all_long, listed, AllLong};
ghost use Rattle.writer.specs.Held.{lists_in};
ghost use Rattle.writer.specs.Contract.{Packs};

use crate::packing::{pack_record, put_word};
use chart::{RecordFields, record_keeps};
use refusals::Refusal;

// The nodes in six lists, one for each field.
#[derive(Clone, Copy)]
pub(crate) struct Lists<'a> {
    pub kinds: &'a [u64],
    pub addresses: &'a [u64],
    pub sizes: &'a [u64],
    pub outs: &'a [u64],
    pub firsts: &'a [u64],
    pub seconds: &'a [u64],
}

impl Lists<'_> {
    // Whether each list has N numbers (rule 15.4).
    pub(crate) fn all_long(&self, nodes: u64) -> bool
        ensures { result ≡ all_long nodes (lists_in self.now) }
    {
        self.kinds.len() as u64 == nodes
            && self.addresses.len() as u64 == nodes
            && self.sizes.len() as u64 == nodes
            && self.outs.len() as u64 == nodes
            && self.firsts.len() as u64 == nodes
            && self.seconds.len() as u64 == nodes
    }

    // The fields of node n's record.
    fn fields_given(&self, n: usize) -> RecordFields
        requires { (n < length self.now.kinds.now) × ((n < length self.now.addresses.now) × ((n < length self.now.sizes.now) × ((n < length self.now.outs.now) × ((n < length self.now.firsts.now) × (n < length self.now.seconds.now))))) }
        ensures { result ≡ listed (lists_in self.now) n }
    {
        RecordFields {
            kind: self.kinds[n],
            address: self.addresses[n],
            outs: self.outs[n],
            first: self.firsts[n],
            second: self.seconds[n],
            size: self.sizes[n],
        }
    }

    // Packs the records behind the header, or refuses the first that breaks its rules with 9 (rules 1.1 and 11.9): what is packed then is not said.
    pub(crate) fn pack_records(&self, nodes: usize, chart: &mut [u8]) -> Result<(), Refusal>
        requires all_long { AllLong nodes (lists_in self.now) }
        requires nodes_le_most_nodes { nodes ≤ most_nodes }
        requires nodes_in_bounds { chart_length nodes ≤ length chart.old }
        ensures { Packs (listed (lists_in self.now)) nodes chart.old result chart.new }
    {
        for n in 0..nodes {
            let fields = self.fields_given(n);
            if !record_keeps(nodes, fields) {
                return Err(Refusal::BrokenRecord(n));
            }
            put_word(chart, n + 1, pack_record(fields));
        }
        Ok(())
    }
}
