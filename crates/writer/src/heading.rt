// What a caller says of a chart beside its nodes (rule 15.3). Nothing is refused here.
ghost use Rattle.std.specs.Prelude.{◌≡◌};
ghost use Rattle.writer.specs.Given.{header_given};

use chart::HeaderFields;

// The cache's shape, the start code, the number of nodes and the entry. They are as wide as a word, so that values which do not fit are refused and
// not cut.
#[derive(Clone, Copy)]
pub struct Heading {
    pub line: u64,
    pub sets: u64,
    pub ways: u64,
    pub start: u64,
    pub nodes: u64,
    pub entry: u64,
}

// The fields of the header: edition 1, and no spare bit set.
pub(crate) fn header_given(heading: Heading) -> HeaderFields
    ensures { result ≡ header_given heading }
{
    HeaderFields {
        edition: 1,
        line: heading.line,
        sets: heading.sets,
        ways: heading.ways,
        start: heading.start,
        first_spare: 0,
        nodes: heading.nodes,
        entry: heading.entry,
        second_spare: 0,
    }
}
