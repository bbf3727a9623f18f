// The report as a value: its bytes in an array, how many there are, and whether they are a refusal's line. Callers keep that there are no more
// nodes than a chart may have, each with its classes: then every report fits. Nothing is refused here.
ghost use Rattle.std.specs.Prelude.{◌≡◌, ◌*◌, ◌≤◌, length};
ghost use Rattle.chart.specs.Geometry.{most_nodes, most_touches};
ghost use Rattle.report.specs.Report.{report_of};
ghost use Rattle.report.specs.Ending.{refused_by};
ghost use Rattle.report.specs.Written.{most_text, text_of};

use crate::puts::Line;
use analysis::{SettledAfter, Unanalysed};
use chart::Geometry;

// The text stands at the start of the array, zeros after it.
#[derive(Drop)]
pub struct Text {
    pub bytes: [u8; Text::MOST],
    pub size: usize,
    pub refused: bool,
}

impl Text {
    // The most digits of a number.
    pub(crate) const DIGITS: usize = 20;

    // The most bytes of a settled chart's first line, with three numbers.
    const FIRST: usize = 23 + 3 * Text::DIGITS;

    // The most bytes of a node's line, with a number, two classes of at most 9 letters, two spaces and a line feed.
    const NODE: usize = Text::DIGITS + Geometry::TOUCHES * 10 + 1;

    // The most bytes of a report.
    pub const MOST: usize = Text::FIRST + Text::NODE * Geometry::NODES;
}

// Answers the report of an analysis that gave this answer and these classes for a chart of so many nodes; after a refusal only the answer counts.
pub(crate) fn written(
    nodes: usize,
    classes: &[u8],
    answer: Result<SettledAfter, Unanalysed>,
) -> Text
    requires nodes_le_most_nodes { nodes ≤ most_nodes }
    requires nodes_in_bounds { most_touches * nodes ≤ length classes.now }
    ensures value { result ≡ text_of (report_of nodes classes.now answer) (refused_by answer) }
    ensures size_le_most_text { result.size ≤ most_text }
{
    let refused = answer.is_err();
    let mut bytes = [0u8; Text::MOST];
    let mut line = Line {
        text: &mut bytes,
        size: 0,
    };
    line.put_report(nodes, classes, answer);
    let size = line.size;
    Text {
        bytes,
        size,
        refused,
    }
}
