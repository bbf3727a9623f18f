// What is held of some blocks as a word: a touch, a node's touches, and whether few enough blocks are in a set. Callers keep that columns are below
// the most that there can be, and that the lists reach as far. Nothing is refused here.
ghost use Rattle.std.specs.Prelude.{◌≡◌};
ghost use Rattle.keeping.specs.Words.{word_touched, word_after, stays_in, Touchable, TouchableBy};
ghost use Rattle.keeping.specs.Columns.{group_at};

use chart::Geometry;
use plan::ColumnTouches;

// The blocks that share words, one of each cache set: the columns, for each set key the columns of that cache set, as bits, and for each column the
// block of its cache set.
#[derive(Drop)]
pub struct Group<'a> {
    pub columns: &'a [u8],
    pub sets: &'a [u64; Group::KEYS],
    pub chosen: [u8; Geometry::BLOCKS],
}

impl Group<'_> {
    // How many set keys a byte can tell apart.
    pub(crate) const KEYS: usize = 256;

    // The word after a touch of column m (rule 16.3).
    pub(crate) fn touch_word(&self, word: u64, m: usize) -> u64
        requires { Touchable (group_at self.now) m }
        ensures { result ≡ word_touched (group_at self.now) m word }
    {
        let block = usize::from(self.chosen[m]);
        if block == m {
            let key = usize::from(self.columns[m]);
            return (word ^ (word & self.sets[key])) | (1 << m);
        }
        if (word >> block) % 2 == 1 {
            return word | (1 << m);
        }
        word
    }

    // The word after a node's touches, in turn (rules 16.3 and 16.4).
    pub(crate) fn step_word(&self, planned: Option<ColumnTouches>, word: u64) -> u64
        requires { TouchableBy (group_at self.now) planned }
        ensures { result ≡ word_after (group_at self.now) planned word }
    {
        let Some(reference) = planned else {
            return word;
        };
        let lower = reference.lower;
        let upper = reference.upper;
        let once = self.touch_word(word, lower);
        if lower == upper {
            return once;
        }
        self.touch_word(once, upper)
    }

    // Whether fewer blocks are in the set than the limit of the block's column (rule 8.1).
    pub(crate) fn stays_in(&self, word: u64, block: usize) -> bool
        requires { Touchable (group_at self.now) block }
        ensures { result ≡ stays_in (group_at self.now) block word }
    {
        let key = usize::from(self.columns[block]);
        let members = word & self.sets[key];
        let own = (members >> block) % 2;
        let others = u64::from(members.count_ones()) - own;
        others < u64::from(self.columns[plan::MAY_LIMITS + block])
    }
}
