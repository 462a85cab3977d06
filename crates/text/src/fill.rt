// Texts with holes: a lent buffer is filled from its start with a text in whose holes numbers stand.
ghost use Rattle.std.specs.Prelude.{◌≡◌, ◌+◌, ◌≤◌, length};
ghost use Rattle.std.proofs.lemmas.List.Edits.{sets};
ghost use Rattle.text.specs.Text.{decimal, filled, longest, filled_outcome, with_filled};
ghost use Rattle.text.specs.Shown.{shown_text, text_len};

use wire::refusal::{Refusal, Refused};

// Stands in a text where a number goes.
const HOLE: u8 = b'#';

// The most bytes of a text with holes: 20 digits for each of them are still counted.
const LONGEST: usize = 1 << 59;

// How many digits a number has.
#[tactic(auto, using(crate::proofs::Decimals::digits_of, crate::proofs::Decimals::one_digit))]
fn digit_count(n: usize) -> usize
    ensures { (result ≡ length (decimal n)) × (result ≤ 20) }
{
    n.checked_ilog10().unwrap_or(0) as usize + 1
}

// Stores a number's digits from `at` on, and answers the place after them. The last digit is stored first: it goes
// by place, from the end back.
fn put_decimal(out: &mut [u8], at: usize, n: usize) -> usize
    requires { at + length (decimal n) ≤ length out.old }
    ensures value { result ≡ at + length (decimal n) }
    ensures out_after { out.new ≡ sets out.old at (decimal n) }
{
    let end = at + digit_count(n);
    let mut rest = n;
    for p in (at..end).rev() {
        out[p] = b'0' + (rest % 10) as u8;
        rest /= 10;
    }
    end
}

// How many bytes a text takes with its holes filled, each by the next number, and by 0 where there is none.
fn filled_len(text: &[u8], numbers: &[usize]) -> usize
    requires { length text.now ≤ longest }
    ensures { result ≡ length (filled text.now numbers.now) }
{
    let mut numbers = numbers.iter();
    let mut len: usize = 0;
    for &b in text {
        len += if b == HOLE {
            digit_count(numbers.next().copied().unwrap_or(0))
        } else {
            1
        };
    }
    len
}

// Stores a text with its holes filled from the start of the buffer on.
fn fill_in(text: &[u8], numbers: &[usize], out: &mut [u8])
    requires { length (filled text.now numbers.now) ≤ length out.old }
    ensures { out.new ≡ sets out.old 0 (filled text.now numbers.now) }
{
    let mut numbers = numbers.iter();
    let mut at: usize = 0;
    for &b in text {
        if b == HOLE {
            at = put_decimal(out, at, numbers.next().copied().unwrap_or(0));
        } else {
            out[at] = b;
            at += 1;
        }
    }
}

// The same, where it fits: how many bytes were written. Else ROOM with the bytes needed, or OVERFLOW with the bytes of a text too long,
// and nothing is changed.
#[tactic(auto, using(crate::proofs::Texts::writes))]
pub fn write_filled(text: &[u8], numbers: &[usize], out: &mut [u8]) -> Result<usize, Refused<usize>>
    ensures result_value { shown_text result ≡ filled_outcome out.old text.now numbers.now }
    ensures out_after { out.new ≡ with_filled out.old text.now numbers.now }
{
    if LONGEST < text.len() {
        return Err(Refused {
            why: Refusal::Overflow,
            at: text.len(),
        });
    }
    let len = filled_len(text, numbers);
    if out.len() < len {
        return Err(Refused {
            why: Refusal::Room,
            at: len,
        });
    }
    fill_in(text, numbers, out);
    Ok(len)
}

// The number that an answer holds: of a text that was written, or had no room, how long it is.
pub fn text_len(t: Result<usize, Refused<usize>>) -> usize
    ensures { result ≡ text_len (shown_text t) }
{
    match t {
        Ok(n) => n,
        Err(refused) => refused.at,
    }
}
