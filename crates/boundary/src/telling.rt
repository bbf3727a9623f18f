// Tells numbers at the start of a lent list, which keeps the rest. Callers keep that it is long enough; where it is not, they return `no_room`.
ghost use Rattle.std.specs.Prelude.{◌≡◌, ◌≤◌, length};
ghost use Rattle.refusals.specs.declared.Refusal.TheVariants.{ShortBuffer};
ghost use Rattle.refusals.specs.Refusals.{number_of};
ghost use Rattle.lists.specs.Lists.{written};
ghost use Rattle.boundary.specs.Told.{refused_numbers};

use refusals::Refusal;

// What is returned where a list is too short for what is told in it: 11.
pub(crate) fn no_room() -> u64
    ensures { result ≡ number_of ShortBuffer }
{
    let refusal = Refusal::ShortBuffer;
    refusal.number()
}

// The numbers of a refusal in so many places: its number, its place, and 0 for what there is not (rule 12.8).
pub(crate) fn refused<const N: usize>(refusal: Refusal) -> [u64; N]
    requires { 2 ≤ N }
    ensures { result ≡ refused_numbers N refusal }
{
    let mut numbers = [0; N];
    numbers[0] = refusal.number();
    numbers[1] = refusal.place() as u64;
    numbers
}

// The numbers at the start of a lent list.
pub(crate) fn tell(numbers: &[u64], lent: &mut [u64])
    requires { length numbers.now ≤ length lent.old }
    ensures { lent.new ≡ written numbers.now lent.old }
{
    lent[..numbers.len()].copy_from_slice(numbers);
}
