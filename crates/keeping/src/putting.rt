// What is worked on while words are sent along arrows, and a word joined into those of targets. Callers keep that arrows lead to nodes. Nothing is
// refused here.
ghost use Rattle.std.specs.Prelude.{◌≡◌, ◌<◌};
ghost use Rattle.chart.specs.Geometry.{most_nodes};
ghost use Rattle.chart.specs.Record.{arrows_of, Leads};
ghost use Rattle.keeping.specs.Work.{nothing_done, put_word, sent_all, work_at};

use crate::span::Span;
use chart::{Geometry, Targets};

// Of each node its mark, its word and whether it is due. The span of those that are due is handed on by itself: as a field here it would be stored and
// loaded at each node, which is slower.
#[derive(Drop)]
pub struct Work {
    pub marks: [u8; Geometry::NODES],
    pub words: [u64; Geometry::NODES],
    pub due: [bool; Geometry::NODES],
}

impl Work {
    // Nothing is marked, touched or due.
    pub(crate) fn new() -> Work
        ensures { result ≡ nothing_done }
    {
        Work {
            marks: [0u8; Geometry::NODES],
            words: [0u64; Geometry::NODES],
            due: [false; Geometry::NODES],
        }
    }

    // Joins a word into that of node t (rule 16.5), and marks t. Where anything has changed, t is due.
    fn put_word(&mut self, span: Span, n: usize, t: usize, out: u64) -> Span
        requires { t < most_nodes }
        ensures { work_at self.new result ≡ put_word n out t (work_at self.old span) }
    {
        let old = self.words[t];
        let new = old | out;
        if (new != old) | (self.marks[t] == 0) {
            self.words[t] = new;
            self.marks[t] = 1;
            self.due[t] = true;
            return span.span_with(n, t);
        }
        span
    }

    // Joins a word into that of the first target of node n and then of the second.
    pub(crate) fn send_word(&mut self, span: Span, n: usize, targets: Targets, out: u64) -> Span
        requires { Leads most_nodes targets }
        ensures { work_at self.new result ≡ sent_all n out (arrows_of targets) (work_at self.old span) }
    {
        if targets.outs == 0 {
            return span;
        }
        let sent = self.put_word(span, n, targets.first, out);
        if targets.outs == 1 {
            return sent;
        }
        self.put_word(sent, n, targets.second, out)
    }
}
