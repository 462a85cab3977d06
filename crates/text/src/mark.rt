// A list of bytes cut at a mark.
ghost use Rattle.std.specs.Prelude.{◌≡◌, ◌+◌, length, drop};
ghost use Rattle.text.specs.Marks.{before};

// The place of the first mark from a place on, or the end where there is none; a place past the end is the answer.
pub fn mark_from(l: &[u8], mark: u8, from: usize) -> usize
    ensures { result ≡ from + length (before mark (drop from l.now)) }
{
    let Some(rest) = l.get(from..) else {
        return from;
    };
    let before = rest.iter().position(|b| *b == mark).unwrap_or(rest.len());
    from + before
}
