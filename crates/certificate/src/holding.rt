// Finds the first node at which a certificate does not hold (rule 18.4). Callers keep that the plan is drawn; that lists are long enough and numbers in
// their ranges, `Claimed` has. Nothing is refused here.
ghost use Rattle.std.specs.Prelude.{not, ◌||◌, ◌≡◌, ◌<◌, ◌≤◌, eqb, length};
ghost use Rattle.lists.specs.Choice.{every_of, first, found};
ghost use Rattle.chart.specs.Record.{Leads, arrows_of};
ghost use Rattle.plan.specs.Listed.{nodes_in};
ghost use Rattle.facts.specs.Certificate.{start_holds, arrow_holds, holds_at};
ghost use Rattle.certificate.specs.Inner.{PlanLaid};
ghost use Rattle.certificate.specs.Given.{plain_claim_in, plan_claim_in};

use crate::visiting::Claimed;
use chart::Targets;

impl Claimed<'_> {
    // Whether n is not the entry, or its potential is no less than what its visit is left with.
    fn entry_holds(&self, entry: usize, n: usize) -> bool
        requires n_lt_nodes { n < self.now.nodes }
        ensures { result ≡ (not (eqb n entry) || start_holds (plain_claim_in self.now) n) }
    {
        if n != entry {
            return true;
        }
        let left = self.left_with(n);
        facts::start_holds(left, self.potentials, n)
    }

    // Whether the potential of t is no less than that of n and what a visit of t is left with.
    fn arrow_holds(&self, n: usize, t: usize) -> bool
        requires n_lt_nodes { (n < self.now.nodes) × (t < self.now.nodes) }
        ensures { result ≡ arrow_holds (plain_claim_in self.now) n t }
    {
        let left = self.left_with(t);
        facts::arrow_holds(left, self.potentials, n, t)
    }

    // Whether that is so of all targets of node n; true of a node without arrows.
    fn targets_hold(&self, n: usize, targets: Targets) -> bool
        requires n_lt_nodes { n < self.now.nodes }
        requires leads { Leads self.now.nodes targets }
        ensures { result ≡ every_of (arrow_holds (plain_claim_in self.now) n) (arrows_of targets) }
    {
        let outs = targets.outs;
        let first = targets.first;
        let second = targets.second;
        if outs == 0 {
            return true;
        }
        let one = self.arrow_holds(n, first);
        if outs == 1 {
            return one;
        }
        let other = self.arrow_holds(n, second);
        one & other
    }

    // Whether the certificate holds at node n.
    fn node_holds(&self, plan: &[u16], marks: &[u8], n: usize) -> bool
        requires plan_laid { PlanLaid plan.now }
        requires nodes_value { self.now.nodes ≡ nodes_in plan.now }
        requires n_bound { (n < nodes_in plan.now) × (n < length marks.now) }
        ensures { result ≡ holds_at (plan_claim_in self.now plan.now marks.now) n }
    {
        let entry = plan::entry_in(plan);
        let starts = self.entry_holds(entry, n);
        if !starts {
            return false;
        }
        if marks[n] == 0 {
            return true;
        }
        let node = plan::node_in(plan, n);
        let targets = node.targets;
        self.targets_hold(n, targets)
    }

    // The first node at which it does not hold, if there is one.
    pub(crate) fn first_failing(&self, plan: &[u16], marks: &[u8]) -> Option<usize>
        requires plan_laid { PlanLaid plan.now }
        requires nodes_value { self.now.nodes ≡ nodes_in plan.now }
        requires nodes_in_bounds { self.now.nodes ≤ length marks.now }
        ensures { result ≡ found self.now.nodes (first self.now.nodes (λ n. not (holds_at (plan_claim_in self.now plan.now marks.now) n))) }
    {
        for n in 0..self.nodes {
            let holds = self.node_holds(plan, marks, n);
            if !holds {
                return Some(n);
            }
        }
        None
    }
}
