// The lines of a report, put behind what stands in a lent buffer. Callers keep that there is room for the most that it can be. Nothing is refused
// here.
ghost use Rattle.std.specs.Prelude.{◌+◌, ◌*◌, ◌≤◌, ◌<◌, length};
ghost use Rattle.lists.specs.Lists.{list_of, joined};
ghost use Rattle.chart.specs.Geometry.{most_nodes, most_touches};
ghost use Rattle.report.specs.Report.{class_word, spaced_word, node_line, report_of, refusal_line};
ghost use Rattle.report.specs.Written.{most_letters, most_first, most_spaced, most_node, most_refused, most_text, Put};
ghost use Rattle.analysis.specs.Analysis.{settled_after};

use crate::puts::Line;
use analysis::{SettledAfter, Unanalysed};
use chart::Geometry;
use refusals::Refusal;

impl Line<'_> {
    // Puts the word of a class (rule 14.2); one that there is not reads as none.
    fn put_class(&mut self, class: u8)
        requires { self.old.size + most_letters ≤ length self.old.text.now }
        ensures { Put most_letters self.old (class_word class) self.new }
    {
        match class {
            0 => self.put_word(b"unreached"),
            1 => self.put_word(b"hit"),
            2 => self.put_word(b"miss"),
            3 => self.put_word(b"unsure"),
            5 => self.put_word(b"kept"),
            _ => self.put_word(b"none"),
        }
    }

    // Puts a space and the word of a class.
    fn put_spaced(&mut self, class: u8)
        requires { self.old.size + most_spaced ≤ length self.old.text.now }
        ensures { Put most_spaced self.old (spaced_word class) self.new }
    {
        self.put_byte(b' ');
        self.put_class(class);
    }

    // Puts the line of a node, as `0 none none`.
    fn put_node(&mut self, n: usize, classes: &[u8])
        requires most_node_in_bounds { self.old.size + most_node ≤ length self.old.text.now }
        requires n_in_bounds { most_touches * n + 1 < length classes.now }
        ensures { Put most_node self.old (node_line classes.now n) self.new }
    {
        self.put_decimal(n as u64);
        self.put_spaced(classes[Geometry::TOUCHES * n]);
        self.put_spaced(classes[Geometry::TOUCHES * n + 1]);
        self.put_byte(b'\n');
    }

    // Puts the lines of the first `nodes` nodes.
    fn put_nodes(&mut self, nodes: usize, classes: &[u8])
        requires nodes_in_bounds { self.old.size + most_node * nodes ≤ length self.old.text.now }
        requires nodes_in_bounds_2 { most_touches * nodes ≤ length classes.now }
        ensures { Put (most_node * nodes) self.old (joined (list_of nodes (node_line classes.now))) self.new }
    {
        for n in 0..nodes {
            self.put_node(n, classes);
        }
    }

    // Puts the whole report of a chart that settled: the first line, as `nodes 3 blocks 1 passes 2` (rule 14.1), and the nodes' lines.
    fn put_settled(&mut self, nodes: usize, classes: &[u8], passes: usize, blocks: usize)
        requires nodes_in_bounds { self.old.size + (most_first + most_node * nodes) ≤ length self.old.text.now }
        requires nodes_in_bounds_2 { most_touches * nodes ≤ length classes.now }
        ensures { Put (most_first + most_node * nodes) self.old (report_of nodes classes.now (settled_after passes blocks)) self.new }
    {
        self.put_named(b"nodes ", nodes as u64);
        self.put_named(b" blocks ", blocks as u64);
        self.put_named(b" passes ", passes as u64);
        self.put_byte(b'\n');
        self.put_nodes(nodes, classes);
    }

    // Puts the whole report of a refusal (rule 14.3), as `refused 9 at 2`.
    fn put_refused(&mut self, refusal: Refusal)
        requires { self.old.size + most_refused ≤ length self.old.text.now }
        ensures { Put most_refused self.old (refusal_line refusal) self.new }
    {
        self.put_named(b"refused ", refusal.number());
        self.put_named(b" at ", refusal.place() as u64);
        self.put_byte(b'\n');
    }

    // Puts the report of an analysis that gave this answer and these classes; after a refusal only the answer counts.
    pub(crate) fn put_report(
        &mut self,
        nodes: usize,
        classes: &[u8],
        answer: Result<SettledAfter, Unanalysed>,
    )
        requires nodes_le_most_nodes { nodes ≤ most_nodes }
        requires text_in_bounds { self.old.size + most_text ≤ length self.old.text.now }
        requires nodes_in_bounds { most_touches * nodes ≤ length classes.now }
        ensures { Put most_text self.old (report_of nodes classes.now answer) self.new }
    {
        match answer {
            Ok(settled) => self.put_settled(nodes, classes, settled.passes, settled.blocks),
            Err(error) => self.put_refused(error.refusal()),
        }
    }
}
