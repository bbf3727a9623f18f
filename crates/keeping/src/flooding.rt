// Sends words along arrows until nothing changes. A node is due if what it sends is not known to have arrived; only such nodes are
// taken. Callers keep that the lists hold a plan and the blocks that share words, and the work tables of these. Nothing is written past the nodes.
// Nothing is refused here.
ghost use Rattle.std.specs.Prelude.{◌≡◌, ◌<◌};
ghost use Rattle.plan.specs.Listed.{nodes_in, blocks_in, Drawn};
ghost use Rattle.keeping.specs.Columns.{GroupIn, group_at};
ghost use Rattle.keeping.specs.Work.{span_to, visited, work_at};
ghost use Rattle.keeping.specs.Flood.{StandIn, SweptTo, FloodedIn};

use crate::putting::Work;
use crate::span::Span;
use crate::words::Group;
use chart::Geometry;

impl Work {
    // Takes node n if it is due: its word after its record is worked out once and sent to its targets.
    fn visit(&mut self, group: &Group, plan: &[u16], n: usize, span: Span) -> Span
        requires drawn_in { Drawn group.now.columns.now plan.now }
        requires group_in { GroupIn group.now plan.now }
        requires n_bound { n < nodes_in plan.now }
        ensures { work_at self.new result ≡ visited (group_at group.now) plan.now n (work_at self.old span) }
    {
        if !self.due[n] {
            return span;
        }
        self.due[n] = false;
        let node = plan::node_in(plan, n);
        let out = group.step_word(node.what, self.words[n]);
        self.send_word(span, n, node.targets, out)
    }

    // Takes the nodes from `from` to before `to` that are due, and those ahead that become due meanwhile: the end moves on with these. Answers where
    // others are that have become due.
    fn sweep(&mut self, group: &Group, plan: &[u16], from: usize, to: usize) -> Span
        requires drawn_in { Drawn group.now.columns.now plan.now }
        requires group_in { GroupIn group.now plan.now × (0 < blocks_in plan.now) }
        requires stand_in { StandIn group.now plan.now from (work_at self.old (span_to to)) }
        ensures { SweptTo group.now plan.now (work_at self.old (span_to to)) (work_at self.new result) }
    {
        let mut span = Span {
            to: to,
            low: Geometry::NODES,
            high: 0,
        };
        let mut n = from;
        while n < span.to {
            span = self.visit(group, plan, n, span);
            n += 1;
        }
        span
    }

    // Takes nodes until none is due, where all that are stand from `from` to before `to`: then they hold the tightest table of each block (rule
    // 16.6).
    pub(crate) fn flood(&mut self, group: &Group, plan: &[u16], from: usize, to: usize)
        requires drawn_in { Drawn group.now.columns.now plan.now }
        requires group_in { GroupIn group.now plan.now × (0 < blocks_in plan.now) }
        requires stand_in { StandIn group.now plan.now from (work_at self.old (span_to to)) }
        ensures { FloodedIn group.now plan.now self.new }
    {
        let mut low = from;
        let mut high = to;
        while low < high {
            let span = self.sweep(group, plan, low, high);
            low = span.low;
            high = span.high;
        }
    }
}
