// A case over a file, and what a call says held against its row.
ghost use Rattle.std.specs.Prelude.{◌≡◌, ◌%◌, ℕ, List, [], ◌∷◌, ◌++◌, map, slice_index, IsTrue};
ghost use Rattle.std.specs.List.{range_with_len, AllZip};
ghost use Rattle.recorded.specs.Calls.{marks_given};

#[derive(Clone, Copy)]
pub(crate) struct Case<'a> {
    pub(crate) file: &'a [u8],
    // The numbers that the call is given.
    pub(crate) given: &'a [u64],
    // The row that is recorded of it.
    pub(crate) row: &'a [u64],
}

impl Case<'_> {
    // Given number i; 0 where there is none.
    pub(crate) fn number(&self, i: usize) -> u64
        ensures { result ≡ slice_index self.now.given.now i }
    {
        self.given.get(i).copied().unwrap_or(0)
    }

    // The same as a place or a count.
    pub(crate) fn place(&self, i: usize) -> usize
        ensures { result ≡ slice_index self.now.given.now i }
    {
        self.number(i) as usize
    }

    // The low byte of given number i.
    pub(crate) fn byte(&self, i: usize) -> u8
        ensures { result ≡ slice_index self.now.given.now i % 256 }
    {
        (self.number(i) % 256) as u8
    }

    // The first given numbers.
    pub(crate) fn numbers<const N: usize>(&self) -> [u64; N]
        ensures { result ≡ map (slice_index self.now.given.now) (range_with_len 0 N) }
    {
        std::array::from_fn(|i| self.number(i))
    }

    // The low bytes of the first given numbers.
    pub(crate) fn marks(&self) -> [u8; 9]
        ensures { result ≡ marks_given self.now.given.now }
    {
        std::array::from_fn(|i| self.byte(i))
    }

    // Whether the row is the number that a call returned, and nothing else.
    pub(crate) fn is_number(&self, returned: u64) -> bool
        ensures { IsTrue result → self.now.row.now ≡ returned ∷ [] }
    {
        self.row == [returned].as_slice()
    }

    // Whether the row is the number that a call returned, its place, the numbers of its answer and the lent memory.
    pub(crate) fn is_told<T: Copy + Into<u64>>(
        &self,
        returned: u64,
        place: u64,
        answer: &[u64],
        lent: &[T],
    ) -> bool
        ensures { IsTrue result → (after : List ℕ) × AllZip (λ (x : T) n. T.converts x n) lent.now after × (self.now.row.now ≡ returned ∷ place ∷ (answer.now ++ after)) }
    {
        let Some(rest) = self.row.strip_prefix(&[returned, place]) else {
            return false;
        };
        let Some(after) = rest.strip_prefix(answer) else {
            return false;
        };
        is_same(lent, after)
    }
}

// Whether numbers of any width are others.
fn is_same<T: Copy + Into<u64>>(l: &[T], wide: &[u64]) -> bool
    ensures { IsTrue result → AllZip (λ (x : T) n. T.converts x n) l.now wide.now }
{
    l.len() == wide.len() && l.iter().zip(wide).all(|(x, n)| (*x).into() == *n)
}
