// Lists of numbers: a part of one, and the same numbers in another width.
ghost use Rattle.std.specs.Prelude.{◌≡◌, length, slice_range, IsTrue};
ghost use Rattle.recorded.specs.Inner.{Converts};

// The part from a place up to another; nothing where there is none.
pub(crate) fn part<T>(l: &[T], from: usize, to: usize) -> &[T]
    ensures { result.now ≡ slice_range l.now from to }
{
    let end = to.min(l.len());
    &l[from.min(end)..end]
}

// Puts numbers into as many places, in their width, and says whether each one fits.
pub(crate) fn narrow<T: TryFrom<u64> + Drop>(l: &[u64], out: &mut [T]) -> bool
where
    T::Error: Drop,
    requires { length l.now ≡ length out.old }
    ensures { IsTrue result → Converts T.try_from_gives l.now out.new }
{
    for (i, x) in l.iter().enumerate() {
        match T::try_from(*x) {
            Ok(y) => out[i] = y,
            Err(_) => return false,
        }
    }
    true
}
