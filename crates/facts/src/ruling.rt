// Which nodes the facts rule out (rule 18.7). Callers keep that each fact has a coefficient for each node.
ghost use Rattle.std.specs.Prelude.{cond, ◌≡◌, ◌+◌, ◌*◌, ◌<◌, ◌≤◌, length, ltb};
ghost use Rattle.lists.specs.Lists.{written};
ghost use Rattle.facts.specs.Parts.{above};
ghost use Rattle.facts.specs.Facts.{openings};
ghost use Rattle.facts.specs.Listed.{passed_facts, entry_facts};
ghost use Rattle.facts.specs.Inner.{FactsLaid, none_below, is_ruling, closed};

// Facts in lent lists: fact after fact, a coefficient for each node, and a limit.
#[derive(Clone, Copy)]
struct Listed<'a> {
    coefficients: &'a [i64],
    limits: &'a [i64],
    nodes: usize,
    ghost laid: { length coefficients.now ≡ length limits.now * nodes },
}

impl Listed<'_> {
    ghost use Rattle.facts.specs.Given.{facts_in};

    // Whether no coefficient of fact f is below 0.
    fn none_below(&self, f: usize) -> bool
        requires { f < length self.now.limits.now }
        ensures { result ≡ none_below self.now.nodes self.now.coefficients.now f }
    {
        let own = &self.coefficients[f * self.nodes..f * self.nodes + self.nodes];
        own.iter().all(|coefficient| 0 <= *coefficient)
    }

    // Whether fact f rules out what it counts: its limit is not above 0, and no coefficient is below.
    fn is_ruling(&self, f: usize) -> bool
        requires { f < length self.now.limits.now }
        ensures { result ≡ is_ruling self.now.nodes (facts_in self.now) f }
    {
        self.limits[f] <= 0 && self.none_below(f)
    }

    // Writes 0 for each node that fact f rules out, and leaves all else: whether the fact rules at all is asked once for all nodes.
    fn close(&self, f: usize, out: &mut [u16])
        requires f_in_bounds { f < length self.now.limits.now }
        requires nodes_in_bounds { self.now.nodes ≤ length out.old }
        ensures { out.new ≡ written (closed self.now.nodes (facts_in self.now) f out.old) out.old }
    {
        if !self.is_ruling(f) {
            return;
        }
        let own = &self.coefficients[f * self.nodes..f * self.nodes + self.nodes];
        for (n, open) in out[..self.nodes].iter_mut().enumerate() {
            *open = left_open(*open, own[n]);
        }
    }
}

// What stands for a node that a ruling fact counts so often: 0, or what stood there.
fn left_open(before: u16, coefficient: i64) -> u16
    ensures { result ≡ cond (ltb 0 (above coefficient)) 0 before }
{
    if 0 < coefficient { 0 } else { before }
}

// Writes 0 for each node that is ruled out, and 1 for each other.
pub fn write_openings(coefficients: &[i64], limits: &[i64], nodes: usize, out: &mut [u16])
    requires facts_laid { FactsLaid nodes (passed_facts coefficients limits) }
    requires nodes_in_bounds { nodes ≤ length out.old }
    ensures { out.new ≡ written (openings nodes (entry_facts coefficients limits)) out.old }
{
    let facts = Listed {
        coefficients,
        limits,
        nodes,
    };
    out[..nodes].fill(1);
    for f in 0..limits.len() {
        facts.close(f, out);
    }
}
