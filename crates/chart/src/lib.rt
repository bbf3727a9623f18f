// From any bytes to a chart: `read` answers its header and its blocks, or the first of refusals 1 to 10 that applies, and `read_header` the
// header alone, or the first of refusals 1 to 8. `node_at` answers what a node does, and `fields_at` its record's fields, of bytes that hold it.
// `header_of` and `record_keeps` ask the rules of any fields, and `gather` lists the blocks of records that keep them. `Geometry` answers, for any
// shape, which block an address lies in and which set a block belongs to.
#![tactic(auto)]

mod gathering;
mod headers;
mod readings;
mod records;
mod shape;
mod words;

pub use gathering::gather;
pub use headers::{Header, HeaderFields, Start, header_of, read_header};
pub use readings::{Outline, Reading, read};
pub use records::{Node, RecordFields, Reference, Targets, fields_at, node_at, record_keeps};
pub use shape::Geometry;
