// The text: cut at a mark, and its numbers.
ghost use Rattle.std.specs.Prelude.{◌≡◌, IfSome, IfNone, take};
ghost use Rattle.text.specs.Marks.{before, past};
ghost use Rattle.recorded.specs.Text.{numbers_in};
ghost use Rattle.recorded.specs.Inner.{IsPrefixLen, NoMark, SplitsAt, BeginsWith, Converts};

use text::digits::number_of;

// What is before the first mark and what is past it, where there is one.
fn split_once(l: &[u8], mark: u8) -> Option<(&[u8], &[u8])>
    ensures none { IfNone result (NoMark l.now mark) }
    ensures some { IfSome result (λ r. SplitsAt l.now mark r.0.now r.1.now) }
{
    let end = l.iter().position(|b| *b == mark)?;
    Some((&l[..end], &l[end + 1..]))
}

// The same, where all is before a mark that there is not.
pub(crate) fn cut(l: &[u8], mark: u8) -> (&[u8], &[u8])
    ensures front { result.0.now ≡ before mark l.now }
    ensures back { result.1.now ≡ past mark l.now }
{
    split_once(l, mark).unwrap_or((l, &[]))
}

// The number that a text begins with, below 2^64, with a space after it; and what follows. No digit at all is 0.
fn first_number(l: &[u8]) -> Option<(u64, &[u8])>
    ensures { IfSome result (λ r. BeginsWith l.now r.0 r.1.now) }
{
    let (digits, rest) = split_once(l, b' ')?;
    let value = if digits.is_empty() {
        0
    } else {
        number_of(digits)?
    };
    Some((value as u64, rest))
}

// Puts the numbers of a text at the start of `out`, in its width, and answers how many these are; nothing where one
// is none or does not fit, or there are too many. (Counted by hand: `split` has one piece more, past the last mark, which is no number.)
pub(crate) fn numbers_of<T: TryFrom<u64>>(l: &[u8], out: &mut [T]) -> Option<usize>
where
    T::Error: Drop,
    T: Drop,
    ensures prefix_len { IfSome result (λ n. IsPrefixLen n out.new) }
    ensures out_after { IfSome result (λ n. Converts T.try_from_gives (numbers_in l.now) (take n out.new)) }
{
    let mut rest = l;
    let mut count: usize = 0;
    while !rest.is_empty() {
        let (value, after) = first_number(rest)?;
        if count == out.len() {
            return None;
        }
        out[count] = T::try_from(value).ok()?;
        count += 1;
        rest = after;
    }
    Some(count)
}
