// Fields packed into a word, and a word stored as eight bytes (rule 1.1). Callers keep values that fit their fields, and bytes that hold the word.
// Nothing is refused here.
ghost use Rattle.std.specs.Prelude.{◌≡◌, ◌+◌, ◌*◌, ◌≤◌, length};
ghost use Rattle.lists.specs.Loops.{patch};
ghost use Rattle.chart.specs.Layout.{field, header_widths, record_widths};
ghost use Rattle.writer.specs.Packing.{packed, Fit, header_values, record_values, byte_widths};

use chart::{HeaderFields, RecordFields};

// The header's word: edition, shape, start and spare bits in its first half, N, entry and spare bits in its second.
pub(crate) fn pack_header(fields: HeaderFields) -> u64
    requires { Fit header_widths (header_values fields) }
    ensures { result ≡ packed header_widths (header_values fields) }
{
    let shape = fields.edition * 16777216
        + fields.line * 1048576
        + fields.sets * 65536
        + fields.ways * 4096
        + fields.start * 1024
        + fields.first_spare;
    let nodes = fields.nodes * 1048576 + fields.entry * 256 + fields.second_spare;
    shape * 4294967296 + nodes
}

// A record's word.
pub(crate) fn pack_record(fields: RecordFields) -> u64
    requires { Fit record_widths (record_values fields) }
    ensures { result ≡ packed record_widths (record_values fields) }
{
    fields.kind * 4611686018427387904
        + fields.address * 1073741824
        + fields.outs * 268435456
        + fields.first * 65536
        + fields.second * 16
        + fields.size
}

// Stores word n, the most significant byte first.
pub(crate) fn put_word(chart: &mut [u8], n: usize, word: u64)
    requires { 8 * n + 8 ≤ length chart.old }
    ensures { chart.new ≡ patch chart.old (8 * n) 8 (λ k. field byte_widths k word) }
{
    let place = 8 * n;
    chart[place..place + 8].copy_from_slice(&word.to_be_bytes());
}
