// The cache's shape, the limits that go with it (rule 1.4), and which block an address lies in and which set a block belongs to. Both answer
// for any shape that the type can hold, allowed or not.
ghost use Rattle.std.specs.Prelude.{◌≡◌};
ghost use Rattle.chart.specs.Geometry.{block_of, set_of};

// A line is 2^line bytes, there are 2^sets sets of `ways` ways.
#[derive(Clone, Copy)]
pub struct Geometry {
    pub line: u8,
    pub sets: u8,
    pub ways: u8,
}

impl Geometry {
    // The most nodes of a chart, blocks of a chart and ways of a set.
    pub const NODES: usize = 1024;

    pub const BLOCKS: usize = 64;

    pub const WAYS: u8 = 8;

    // The most touches of a node: its reference is within one line, or goes into the next.
    pub const TOUCHES: usize = 2;

    // What follows of them: the most ages of one kind and the most classes, the bytes of the longest chart, and the passes that are enough for
    // every chart.
    pub const AGES: usize = Geometry::NODES * Geometry::BLOCKS;

    pub const CLASSES: usize = Geometry::TOUCHES * Geometry::NODES;

    pub const LONGEST: usize = 8 + 8 * Geometry::NODES;

    pub const PASSES: usize = Geometry::NODES * (1 + 2 * Geometry::BLOCKS * Geometry::WAYS as usize)
        + 1;

    // The least and the most that a line's and the sets' exponents may be.
    pub const LINE_FROM: u8 = 2;

    pub const LINE_TO: u8 = 8;

    pub const SETS_TO: u8 = 8;

    // The block that holds an address (rule 3.1).
    pub fn block_of(self, address: u32) -> u32
        ensures { result ≡ block_of self address }
    {
        let line = self.line;
        if line < 32 { address >> line } else { 0 }
    }

    // The set that a block belongs to (rule 3.2).
    pub fn set_of(self, block: u32) -> u32
        ensures { result ≡ set_of self block }
    {
        let sets = self.sets;
        if sets < 32 {
            block % (1 << sets)
        } else {
            block
        }
    }
}
