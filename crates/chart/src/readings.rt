// The reader as a whole: for any bytes the header, the number of blocks and the blocks, or the first of refusals 1 to 10 that applies.
ghost use Rattle.std.specs.Prelude.{◌≡◌, length};
ghost use Rattle.chart.specs.Layout.{chart_length};
ghost use Rattle.chart.specs.Chart.{refused, records_in, records_read};
ghost use Rattle.chart.specs.Reading.{reading_of, reading, verdict_says, read_says};

use crate::gathering::gather;
use crate::headers::{Header, read_header};
use crate::records::first_broken;
use crate::shape::Geometry;
use refusals::Refusal;

// An accepted chart's header, and how many blocks it has.
#[derive(Clone, Copy)]
pub struct Outline {
    pub header: Header,
    pub blocks: usize,
}

// The blocks stand at the start of the array, zeros after them; after a refusal there are zeros only (rule 12.1).
#[derive(Drop)]
pub struct Reading {
    pub verdict: Result<Outline, Refusal>,
    pub blocks: [u32; Geometry::BLOCKS],
}

fn refuse(refusal: Refusal) -> Reading
    ensures { result ≡ reading_of (refused refusal) }
{
    Reading {
        verdict: Err(refusal),
        blocks: [0u32; Geometry::BLOCKS],
    }
}

// The records under a header, or the first of refusals 9 and 10 that applies.
fn read_records(chart: &[u8], header: Header) -> Reading
    requires { length chart.now ≡ chart_length header.nodes }
    ensures { result ≡ reading_of (records_read (records_in chart.now) header) }
{
    let geometry = header.geometry;
    let nodes = header.nodes;
    if let Some(node) = first_broken(chart, nodes) {
        return refuse(Refusal::BrokenRecord(node));
    }
    let mut blocks = [0u32; Geometry::BLOCKS];
    match gather(chart, geometry, nodes, &mut blocks) {
        Err(refusal) => refuse(refusal),
        Ok(count) => Reading {
            verdict: Ok(Outline {
                header: header,
                blocks: count,
            }),
            blocks: blocks,
        },
    }
}

// What any bytes read as: a chart's header and blocks, or the first of refusals 1 to 10 that applies and no block (rule 12.1).
pub fn read(chart: &[u8]) -> Reading
    ensures value { result ≡ reading chart.now }
    ensures verdict_value { verdict_says result.verdict ≡ read_says chart.now }
{
    let header = read_header(chart);
    match header {
        Ok(header) => read_records(chart, header),
        Err(refusal) => refuse(refusal),
    }
}
