// A node's record: what it does, where its arrows lead, and whether it keeps rules 2.1, 2.3, 2.4, 2.9, 2.11 and 2.12. `first_broken` answers the
// first node whose record does not; nothing else here refuses, and a record that breaks a rule reads as something too. Callers keep bytes that hold
// the record.
ghost use Rattle.std.specs.Prelude.{◌≡◌, ◌+◌, ◌^◌, ◌≤◌, ◌<◌, length};
ghost use Rattle.lists.specs.Choice.{found};
ghost use Rattle.chart.specs.Layout.{chart_length};
ghost use Rattle.chart.specs.Record.{record_fields, arrow_keeps, twins, bytes_of, record_keeps, record_of, node_of};
ghost use Rattle.chart.specs.Chart.{records_in, node_at, first_broken};

use crate::words::{bits, word_at};

// A record's fields. They are as wide as a word, so that the rules can be asked of values that do not fit their field.
#[derive(Clone, Copy)]
pub struct RecordFields {
    pub kind: u64,
    pub address: u64,
    pub outs: u64,
    pub first: u64,
    pub second: u64,
    pub size: u64,
}

// A read or a write (rule 2.2), from its first byte to its last (rule 2.10). A record that is refused may end past 32 bits.
#[derive(Clone, Copy)]
pub struct Reference {
    pub write: bool,
    pub address: u32,
    pub last: u64,
}

// How many arrows lead out of a node, and where to.
#[derive(Clone, Copy)]
pub struct Targets {
    pub outs: usize,
    pub first: usize,
    pub second: usize,
}

// What a node does, a reference or a bare step, and where its arrows lead.
#[derive(Clone, Copy)]
pub struct Node<R> {
    pub what: Option<R>,
    pub targets: Targets,
}

// The fields of the record in a word.
fn record_fields(word: u64) -> RecordFields
    ensures { result ≡ record_fields word }
{
    RecordFields {
        kind: bits(word, 62, 2),
        address: bits(word, 30, 32),
        outs: bits(word, 28, 2),
        first: bits(word, 16, 12),
        second: bits(word, 4, 12),
        size: bits(word, 0, 4),
    }
}

// The fields of record n of any bytes that hold it.
pub fn fields_at(chart: &[u8], n: usize) -> RecordFields
    requires { chart_length (n + 1) ≤ length chart.now }
    ensures { result ≡ records_in chart.now n }
{
    record_fields(word_at(chart, n + 1))
}

// How many bytes a size code says (rule 2.10); four for a code that there is not.
fn bytes_of(size: u64) -> u64
    ensures { (result ≡ bytes_of size) × ((1 ≤ result) × (result ≤ 4)) }
{
    if size == 0 {
        return 1;
    }
    if size == 1 {
        return 2;
    }
    4
}

// What the record of these fields does.
fn record_of(fields: RecordFields) -> Option<Reference>
    requires { fields.address < 2 ^ 32 }
    ensures { result ≡ record_of fields }
{
    let kind = fields.kind;
    if kind == 0 {
        return None;
    }
    let address = fields.address;
    let bytes = bytes_of(fields.size);
    Some(Reference {
        write: kind == 2,
        address: address as u32,
        last: address + bytes - 1,
    })
}

// The node whose record has these fields.
fn node_of(fields: RecordFields) -> Node<Reference>
    requires { fields.address < 2 ^ 32 }
    ensures { result ≡ node_of fields }
{
    let what = record_of(fields);
    Node {
        what: what,
        targets: Targets {
            outs: fields.outs as usize,
            first: fields.first as usize,
            second: fields.second as usize,
        },
    }
}

// The node whose record is number n of any bytes that hold it, whether or not it keeps its rules: that is `read`'s to judge.
pub fn node_at(chart: &[u8], n: usize) -> Node<Reference>
    requires { chart_length (n + 1) ≤ length chart.now }
    ensures { result ≡ node_at chart.now n }
{
    node_of(fields_at(chart, n))
}

// Whether an arrow that is used leads below `nodes`, and one that is not is 0 (rule 2.4).
fn arrow_keeps(nodes: usize, used: bool, target: u64) -> bool
    ensures { result ≡ arrow_keeps nodes used target }
{
    if used {
        target < nodes as u64
    } else {
        target == 0
    }
}

// Whether two arrows are used and both lead to one node, which rule 2.9 forbids.
fn twins(fields: RecordFields) -> bool
    ensures { result ≡ twins fields }
{
    (1 < fields.outs) & (fields.first == fields.second)
}

// Whether a record of these fields keeps its rules in a chart of so many nodes.
pub fn record_keeps(nodes: usize, fields: RecordFields) -> bool
    ensures { result ≡ record_keeps nodes fields }
{
    let kind = fields.kind;
    let address = fields.address;
    let outs = fields.outs;
    let first = arrow_keeps(nodes, 0 < outs, fields.first);
    let second = arrow_keeps(nodes, 1 < outs, fields.second);
    let alike = twins(fields);
    let size = fields.size;
    let bytes = bytes_of(size);
    let fits = address <= 4294967296 - bytes;
    let refers = (kind != 0) | ((address == 0) & (size == 0));
    (kind <= 2) & (fits & (refers & ((outs <= 2) & (first & (second & (!alike & (size <= 2)))))))
}

// The first node whose record breaks its rules, if there is one (rule 11.9).
pub(crate) fn first_broken(chart: &[u8], nodes: usize) -> Option<usize>
    requires { chart_length nodes ≤ length chart.now }
    ensures { result ≡ found nodes (first_broken (records_in chart.now) nodes) }
{
    for n in 0..nodes {
        let keeps = record_keeps(nodes, fields_at(chart, n));
        if !keeps {
            return Some(n);
        }
    }
    None
}
