// A chart as words of 64 bits, and the fields of a word (rule 1.1). Callers keep bytes that hold the word, and fields that lie in it. Nothing is
// refused here.
ghost use Rattle.std.specs.Prelude.{◌≡◌, ◌+◌, ◌*◌, ◌/◌, ◌%◌, ◌^◌, ◌≤◌, ◌<◌, length};
ghost use Rattle.chart.specs.Layout.{number_at, word_at};

// Four bytes from a place on, the first the most significant.
fn half_at(chart: &[u8], place: usize) -> u64
    requires { place + 4 ≤ length chart.now }
    ensures { (result ≡ number_at chart.now place 4) × (result < 4294967296) }
{
    u64::from(chart[place]) * 16777216
        + u64::from(chart[place + 1]) * 65536
        + u64::from(chart[place + 2]) * 256
        + u64::from(chart[place + 3])
}

// The eight bytes of word n, the first the most significant.
pub(crate) fn word_at(chart: &[u8], n: usize) -> u64
    requires { 8 * n + 8 ≤ length chart.now }
    ensures { result ≡ word_at chart.now n }
{
    let place = 8 * n;
    half_at(chart, place) * 4294967296 + half_at(chart, place + 4)
}

// The `width` bits of a word that have `behind` bits behind them.
pub(crate) fn bits(word: u64, behind: u32, width: u32) -> u64
    requires { (behind < 64) × (width < 64) }
    ensures { result ≡ word / 2 ^ behind % 2 ^ width }
{
    (word >> behind) % (1 << width)
}
