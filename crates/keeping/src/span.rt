// Where nodes stand that are due, and a node more. Nothing is refused here.
ghost use Rattle.std.specs.Prelude.{◌≡◌, ◌+◌, ◌^◌, ◌<◌};
ghost use Rattle.keeping.specs.Work.{span_with};

// Where nodes that are due stand: from the node at hand to before `to`, or from `low` to before `high`.
#[derive(Clone, Copy)]
pub struct Span {
    pub to: usize,
    pub low: usize,
    pub high: usize,
}

impl Span {
    // A span that has node t too, where node n is at hand: one ahead is met in the same turn, another in the next.
    pub(crate) fn span_with(self, n: usize, t: usize) -> Span
        requires { t + 1 < 2 ^ 64 }
        ensures { result ≡ span_with n t self }
    {
        if n < t {
            return Span {
                to: self.to.max(t + 1),
                low: self.low,
                high: self.high,
            };
        }
        Span {
            to: self.to,
            low: self.low.min(t),
            high: self.high.max(t + 1),
        }
    }
}
