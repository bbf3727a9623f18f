// The header of any bytes: the cache's shape, the start, the number of nodes and the entry, or the first of refusals 1 to 8 that applies.
// `header_of` and the functions below it take any fields, and ask in the order of rule 11.0.
ghost use Rattle.std.specs.Prelude.{◌≡◌, true};
ghost use Rattle.lists.specs.Choice.{first_case};
ghost use Rattle.chart.specs.Geometry.{shape_allowed};
ghost use Rattle.chart.specs.Header.{header_fields, geometry_of, start_code, StartRead, header_of, header_cases, header_read, header_says, read_header_says};

use crate::shape::Geometry;
use crate::words::{bits, word_at};
use refusals::Refusal;

// The header's fields. They are as wide as a word, so that the rules can be asked of values that do not fit their field.
#[derive(Clone, Copy)]
pub struct HeaderFields {
    pub edition: u64,
    pub line: u64,
    pub sets: u64,
    pub ways: u64,
    pub start: u64,
    pub first_spare: u64,
    pub nodes: u64,
    pub entry: u64,
    pub second_spare: u64,
}

// What the cache holds when a walk begins.
#[derive(Clone, Copy)]
pub enum Start {
    Unknown,
    Empty,
}

impl Start {
    // Its code in the header (rule 1.2): 0 or 1.
    pub fn code(self) -> u16
        ensures { result ≡ start_code self }
    {
        match self {
            Start::Unknown => 0,
            Start::Empty => 1,
        }
    }
}

// The start of a code, or refusal 4 where there is none.
impl TryFrom<u64> for Start {
    type Error = Refusal;

    ghost try_from_gives = { StartRead };

    fn try_from(code: u64) -> Result<Self, Refusal> {
        match code {
            0 => Ok(Start::Unknown),
            1 => Ok(Start::Empty),
            _ => Err(Refusal::StartCode),
        }
    }
}

// What a header says that is accepted.
#[derive(Clone, Copy)]
pub struct Header {
    pub geometry: Geometry,
    pub start: Start,
    pub nodes: usize,
    pub entry: usize,
}

// The fields in the chart's first word.
fn header_fields(word: u64) -> HeaderFields
    ensures { result ≡ header_fields word }
{
    HeaderFields {
        edition: bits(word, 56, 8),
        line: bits(word, 52, 4),
        sets: bits(word, 48, 4),
        ways: bits(word, 44, 4),
        start: bits(word, 42, 2),
        first_spare: bits(word, 32, 10),
        nodes: bits(word, 20, 12),
        entry: bits(word, 8, 12),
        second_spare: bits(word, 0, 8),
    }
}

// Whether L, S and A are what rule 1.2 allows.
fn shape_allowed(fields: HeaderFields) -> bool
    ensures { result ≡ shape_allowed (geometry_of fields) }
{
    let line = fields.line;
    let sets = fields.sets;
    let ways = fields.ways;
    ((Geometry::LINE_FROM as u64 <= line) & (line <= Geometry::LINE_TO as u64))
        & ((sets <= Geometry::SETS_TO as u64) & ((1 <= ways) & (ways <= Geometry::WAYS as u64)))
}

fn geometry_of(fields: HeaderFields) -> Geometry
    requires { shape_allowed (geometry_of fields) ≡ true }
    ensures { result ≡ geometry_of fields }
{
    Geometry {
        line: fields.line as u8,
        sets: fields.sets as u8,
        ways: fields.ways as u8,
    }
}

// The header of these fields, or the first of refusals 2 to 8 that applies; `long` says whether the length is the one for them.
pub fn header_of(fields: HeaderFields, long: bool) -> Result<Header, Refusal>
    ensures { result ≡ first_case Err (header_cases fields long) (Ok (header_of fields)) }
{
    let edition = fields.edition;
    if edition != 1 {
        return Err(Refusal::Edition);
    }
    let allowed = shape_allowed(fields);
    if !allowed {
        return Err(Refusal::CacheShape);
    }
    let start = Start::try_from(fields.start)?;
    let nodes = fields.nodes;
    let counted = (1 <= nodes) & (nodes <= Geometry::NODES as u64);
    if !counted {
        return Err(Refusal::NodeCount);
    }
    let entry = fields.entry;
    if nodes <= entry {
        return Err(Refusal::EntryNode);
    }
    let clear = (fields.first_spare == 0) & (fields.second_spare == 0);
    if !clear {
        return Err(Refusal::SpareBits);
    }
    if !long {
        return Err(Refusal::Length);
    }
    let geometry = geometry_of(fields);
    Ok(Header {
        geometry: geometry,
        start: start,
        nodes: nodes as usize,
        entry: entry as usize,
    })
}

// The header of any bytes, or the first of refusals 1 to 8 that applies (rule 12.1). Records are not looked at.
pub fn read_header(chart: &[u8]) -> Result<Header, Refusal>
    ensures value { result ≡ header_read chart.now }
    ensures result_value { header_says result ≡ read_header_says chart.now }
{
    if chart.len() < 8 {
        return Err(Refusal::TooShort);
    }
    let fields = header_fields(word_at(chart, 0));
    let nodes = fields.nodes as usize;
    header_of(fields, chart.len() == 8 + 8 * nodes)
}
