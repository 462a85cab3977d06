// Holds recorded answers against the functions that C has. Standard input is sections: `@`, a title, and
// lines. A line that begins with `=` is the file of the cases after it, as numbers; any other line is a
// case: the call and the numbers that it is given, the memory that is lent, and the row that is recorded,
// three groups with `;` between two. A number is in decimal, with a space after it. How many cases of each
// section agree is printed with its title, up to the first that does not; specs/Agreed.antt says when one does.
//
// Limits: 3,000,000 bytes of text, 98,304 of a file, 4,096 numbers given and lent, 8,192 recorded. A case
// beyond them does not agree. The program ends with an error where it cannot read or write.
#![tactic(auto)]

ghost use Rattle.std.specs.Prelude.{◌<◌, length, take, IfOk, ℕ, ◌≤◌, OnErr};
ghost use Rattle.std.specs.Io.{ReadsAtMost};
ghost use Rattle.std.specs.Io.KnownBytes.{Consumes, IsAtEnd};

use std::io;
use std::io::Read;

mod case;
mod digests;
mod files;
mod lists;
mod map;
mod numbers;
mod reading;
mod tally;
mod told;
mod written;

use reading::cut;
use tally::tally;

// Where a case does not agree, its line is named.
fn print_section(rt: &impl Print, section: &[u8]) -> io::Result<u64> {
    let (title, lines) = cut(section, b'\n');
    let counted = tally(lines);
    print!(rt; "{} agree: ", counted.agreed)?;
    rt.write_all(title)?;
    if let Some(line) = counted.lost {
        print!(rt; ", but not line {line}")?;
    }
    println!(rt; "")?;
    Ok(counted.agreed)
}

// What comes before the first `@` is no section. (A `while`: `split` has one piece more, past the
// last mark.)
fn print_all(rt: &impl Print, text: &[u8]) -> io::Result<()> {
    let mut agreed: u64 = 0;
    let (_, mut rest) = cut(text, b'@');
    while !rest.is_empty() {
        let (section, after) = cut(rest, b'@');
        agreed = agreed.wrapping_add(print_section(rt, section)?);
        rest = after;
    }
    println!(rt; "{agreed} agree in all")
}

// Reads until the buffer is full or the input ends, and answers how many bytes it put at the start of the
// buffer. An error is the input's own: what came before it stands at the buffer's start. (`read_exact` refuses a
// shorter input; `mast_layout` has this loop with more promised, and a crate of both for nine lines is no plainer.)
fn read_full<R: Read>(input: &mut R, buf: &mut [u8]) -> io::Result<usize>
    ensures bound { ReadsAtMost result buf.new }
    ensures bytes { IfOk result (λ n. Consumes (R.remaining input.old) (R.remaining input.new) (take n buf.new)) }
    ensures end { IfOk result (λ n. n < length buf.new → IsAtEnd (R.remaining input.new)) }
    ensures lost { OnErr result ((n : ℕ) × (n ≤ length buf.new) × Consumes (R.remaining input.old) (R.remaining input.new) (take n buf.new)) }
{
    let mut done: usize = 0;
    while done < buf.len() {
        let n = input.read(&mut buf[done..])?;
        if n == 0 {
            return Ok(done);
        }
        done += n;
    }
    Ok(done)
}

// A function of its own, so that a proof knows the array by its length alone.
fn room() -> [u8; 3000001] {
    [0; 3000001]
}

fn main(rt: HostRuntime) -> io::Result<()> {
    let mut text = room();
    let n = read_full(&mut rt.stdin(), &mut text)?;
    if n == 3000001 {
        return rt.write_all(b"more than 3000000 bytes: nothing is held\n");
    }
    print_all(&rt, &text[..n])
}
