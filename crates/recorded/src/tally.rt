// The cases of a section, held one after the other.
ghost use Rattle.std.specs.Prelude.{◌≤◌, []};
ghost use Rattle.recorded.specs.Text.{lines_in};
ghost use Rattle.recorded.specs.Agreed.{agreed_in};

use crate::case::case_agrees;
use crate::reading::{cut, numbers_of};

// How many agreed, and the line that was the last, counted from 1; none where all lines were read.
#[derive(Clone, Copy)]
pub(crate) struct Counted {
    pub(crate) agreed: u64,
    pub(crate) lost: Option<u64>,
}

// It ends at the first case that does not agree, or at a file that cannot be read. (A `while`: `split` has one
// piece more, past the last mark, which is no line.)
pub(crate) fn tally(text: &[u8]) -> Counted
    ensures { result.agreed ≤ agreed_in [] (lines_in text.now) }
{
    // The file of the cases that follow: fixed memory, of which the first n bytes count.
    let mut file = [0u8; 98304];
    let mut n: usize = 0;
    let mut agreed: u64 = 0;
    let mut number: u64 = 0;
    let mut rest = text;
    while !rest.is_empty() {
        let (line, after) = cut(rest, b'\n');
        rest = after;
        number += 1;
        if let Some(numbers) = line.strip_prefix(b"=") {
            let Some(bytes) = numbers_of(numbers, &mut file) else {
                return Counted {
                    agreed,
                    lost: Some(number),
                };
            };
            n = bytes;
        } else if case_agrees(&file[..n], line) {
            agreed += 1;
        } else {
            return Counted {
                agreed,
                lost: Some(number),
            };
        }
    }
    Counted { agreed, lost: None }
}
