// Tests of the ages in a row of a lent table: that they fit (rule 7.3), and that they are 0 (rule 7.4). Callers keep that the row is there.
// Nothing is refused here.
ghost use Rattle.std.specs.Prelude.{◌≡◌, ℕ, ◌+◌, ◌*◌, ◌≤◌, eqb, length};
ghost use Rattle.std.specs.List.{list_all};
ghost use Rattle.rows.specs.Rows.{columns_by};
ghost use Rattle.tables.specs.Inner.{Loads};
ghost use Rattle.checker.specs.Checker.{fits, zeroed, row_ages};

// Whether the ages of row n are at most the limits of their columns. By places, since four lists are looked at at once, and without a jump.
pub(crate) fn row_fits(columns: &[u8], must: &[u8], may: &[u8], blocks: usize, n: usize) -> bool
    requires { Loads columns.now must.now may.now blocks n }
    ensures { result ≡ fits (columns_by columns.now blocks) (row_ages blocks must.now may.now n) }
{
    let base = n * blocks;
    let mut fit = true;
    for k in 0..blocks {
        let must_fits = must[base + k] <= columns[plan::MUST_LIMITS + k];
        let may_fits = may[base + k] <= columns[plan::MAY_LIMITS + k];
        fit = fit & (must_fits & may_fits);
    }
    fit
}

// Whether so many ages are all 0. Each is looked at, and without a jump: so sixteen go at once.
fn all_zero(ages: &[u8]) -> bool
    ensures { result ≡ list_all (λ (age : ℕ). eqb age 0) ages.now }
{
    let mut zero = true;
    for age in ages {
        zero = zero & (*age == 0);
    }
    zero
}

// Whether the ages of row n are all 0.
pub(crate) fn row_zero(must: &[u8], may: &[u8], blocks: usize, n: usize) -> bool
    requires { (n * blocks + blocks ≤ length must.now) × (n * blocks + blocks ≤ length may.now) }
    ensures { result ≡ zeroed blocks (row_ages blocks must.now may.now n) }
{
    let base = n * blocks;
    all_zero(&must[base..base + blocks]) && all_zero(&may[base..base + blocks])
}
