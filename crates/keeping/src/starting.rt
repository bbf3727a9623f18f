// What words are worked out from: the entry alone, which finds the nodes that can be reached; and where these are marked, those that touch one of the
// blocks. Callers keep that the lists hold a plan. Nothing is refused here.
ghost use Rattle.std.specs.Prelude.{◌≡◌, ◌≤◌, ◌<◌, length};
ghost use Rattle.chart.specs.Geometry.{most_nodes};
ghost use Rattle.plan.specs.Listed.{nodes_in, blocks_in, node_place, RecordIn, Drawn};
ghost use Rattle.keeping.specs.Columns.{GroupIn, RecordsIn};
ghost use Rattle.keeping.specs.Flood.{FloodedIn};
ghost use Rattle.keeping.specs.Starting.{due_by, due_all, ReachedIn, ZerosFor};

use crate::putting::Work;
use crate::words::Group;
use plan::ColumnTouches;

impl Group<'_> {
    // Whether a node that has this mark and this record is due: it is marked and touches one of the blocks.
    fn due_by(&self, mark: u8, planned: Option<ColumnTouches>) -> bool
        requires { RecordIn (length self.now.chosen) planned }
        ensures { result ≡ due_by self.now.chosen mark planned }
    {
        let Some(reference) = planned else {
            return false;
        };
        let lower = reference.lower;
        let upper = reference.upper;
        if mark == 0 {
            return false;
        }
        (usize::from(self.chosen[lower]) == lower) | (usize::from(self.chosen[upper]) == upper)
    }
}

impl Work {
    // Marks the entry, and what can be reached from it, while it works out words.
    pub(crate) fn reach(&mut self, group: &Group, plan: &[u16])
        requires drawn_in { Drawn group.now.columns.now plan.now }
        requires group_in { GroupIn group.now plan.now × (0 < blocks_in plan.now) }
        requires zeros_for { ZerosFor (nodes_in plan.now) self.old }
        ensures { FloodedIn group.now plan.now self.new }
    {
        let entry = plan::entry_in(plan);
        self.marks[entry] = 1;
        self.due[entry] = true;
        self.flood(group, plan, entry, entry + 1);
    }

    // Writes for the first `nodes` nodes whether they are due.
    fn mark_due(&mut self, group: &Group, plan: &[u16], nodes: usize)
        requires nodes_in_bounds { (node_place nodes ≤ length plan.now) × (nodes ≤ most_nodes) }
        requires records_in { RecordsIn (length group.now.chosen) plan.now nodes }
        ensures { self.new ≡ record self.old { due = due_all plan.now group.now.chosen self.old.marks nodes self.old.due } }
    {
        for n in 0..nodes {
            let node = plan::node_in(plan, n);
            self.due[n] = group.due_by(self.marks[n], node.what);
        }
    }

    // Works out the words of the blocks that are chosen, where the nodes that can be reached are marked: those that touch one of the blocks are due
    // at first.
    pub(crate) fn flood_again(&mut self, group: &Group, plan: &[u16])
        requires drawn_in { Drawn group.now.columns.now plan.now }
        requires group_in { GroupIn group.now plan.now × (0 < blocks_in plan.now) }
        requires reached_in { ReachedIn group.now.columns.now plan.now self.old.marks }
        ensures { FloodedIn group.now plan.now self.new }
    {
        let nodes = plan::nodes_in(plan);
        self.words[..nodes].fill(0);
        self.mark_due(group, plan, nodes);
        self.flood(group, plan, 0, nodes);
    }
}
