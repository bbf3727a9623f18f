// Tells of the touches of the blocks that share words whether they would be kept. Callers keep that there is room for two places a node. Nothing is
// written past them. Nothing is refused here.
ghost use Rattle.std.specs.Prelude.{◌≡◌, ◌*◌, ◌≤◌, length};
ghost use Rattle.chart.specs.Geometry.{most_touches};
ghost use Rattle.plan.specs.Listed.{node_place};
ghost use Rattle.keeping.specs.Words.{Touchable, TouchableBy};
ghost use Rattle.keeping.specs.Columns.{RecordsTouchable, group_at};
ghost use Rattle.keeping.specs.Telling.{told_by, told_of, told_all};

use crate::words::Group;
use chart::Geometry;
use plan::ColumnTouches;

impl Group<'_> {
    // What is told of a touch of a column where this word is held: anew if the column is one of the blocks, else as it was.
    fn told_by(&self, word: u64, column: usize, old: u8) -> u8
        requires { Touchable (group_at self.now) column }
        ensures { result ≡ told_by (group_at self.now) word column old }
    {
        if usize::from(self.chosen[column]) == column {
            return u8::from(self.stays_in(word, column));
        }
        old
    }

    // What is told of the first touch of a record, by the word on arrival (rule 8.2).
    fn first_told(&self, planned: Option<ColumnTouches>, word: u64, old: u8) -> u8
        requires { TouchableBy (group_at self.now) planned }
        ensures { result ≡ told_of (group_at self.now) planned word 0 old }
    {
        let Some(reference) = planned else {
            return old;
        };
        self.told_by(word, reference.lower, old)
    }

    // What is told of the second, if there is one, by the word after the first.
    fn second_told(&self, planned: Option<ColumnTouches>, word: u64, old: u8) -> u8
        requires { TouchableBy (group_at self.now) planned }
        ensures { result ≡ told_of (group_at self.now) planned word 1 old }
    {
        let Some(reference) = planned else {
            return old;
        };
        let lower = reference.lower;
        let upper = reference.upper;
        if lower == upper {
            return old;
        }
        let touched = self.touch_word(word, lower);
        self.told_by(touched, upper, old)
    }

    // Tells of all touches of the blocks that are chosen.
    pub(crate) fn tell_chosen(&self, plan: &[u16], words: &[u64], stays: &mut [u8], nodes: usize)
        requires nodes_in_bounds { (node_place nodes ≤ length plan.now) × ((nodes ≤ length words.now) × (most_touches * nodes ≤ length stays.old)) }
        requires records_touchable { RecordsTouchable (group_at self.now) plan.now nodes }
        ensures { stays.new ≡ told_all (group_at self.now) plan.now words.now nodes stays.old }
    {
        for n in 0..nodes {
            let node = plan::node_in(plan, n);
            let planned = node.what;
            let word = words[n];
            let first = Geometry::TOUCHES * n;
            let second = first + 1;
            stays[first] = self.first_told(planned, word, stays[first]);
            stays[second] = self.second_told(planned, word, stays[second]);
        }
    }
}
