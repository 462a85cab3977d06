// Prints the layout of the file on standard input: seven lines, or one refusal.
//
//     mast_layout [MAGIC VERSION HASHLESS RESERVED MAXIMUM]
//
// The five words replace the stand-in format facts: magic in 8 hexadecimal digits, version in 6, the two
// masks in 2 each, the node maximum in decimal. Wrong words give one line on standard error, and nothing
// is read. What is said, and where, is the proved function `program` of the crate page: this file moves bytes,
// into rooms that `read_words` and `read_input` fix. The status is 0, and 1 where what is said could not be written.
#![tactic(auto)]

ghost use Rattle.std.specs.Prelude.{◌≡◌, ℕ, ◌+◌, ◌*◌, ◌<◌, ◌≤◌, true, false, length, take, Ok, IfOk, OnErr};
ghost use Rattle.std.specs.Io.KnownBytes.{Consumes, IsAtEnd};
ghost use Rattle.page.specs.Answer.{most};

use page::program::{Said, program, words_wrong};
use std::env::FillError;
use std::io;
use std::io::{Read, Write};
use std::rt::Env;

// The most bytes of a word.
const WORD: usize = 64;

// Puts the words of the command into the buffer, each with a zero after it, and answers how many bytes these
// are. It stops where there is no room for one more word of 64 bytes: the buffer has room for six with their zeros, so that
// more than five are seen to be more. A longer word is put as an
// empty one, which is wrong. (A `while`: the room ends it, or the words, and neither is counted beforehand.)
fn read_words(env: &impl Env, buf: &mut [u8]) -> usize
    requires { length buf.old ≡ 6 * (64 + 1) }
    ensures { result ≤ length buf.new }
{
    let mut at: usize = 0;
    let mut i: usize = 1;
    while WORD < buf.len() - at {
        let end = at + WORD;
        let n = match env.arg(i, &mut buf[at..end]) {
            Ok(n) => n,
            Err(FillError::TooLong) => 0,
            Err(FillError::NotPresent) => return at,
        };
        let zero = at + n;
        buf[zero] = 0;
        at = zero + 1;
        i += 1;
    }
    at
}

// Reads the input to its end, or until the room is full, and answers how many bytes these are; or nothing,
// where it is not wanted. The room is for a byte more than is taken, so that a longer input is seen to be longer. An error is
// the input's own: what came before it stands at the room's start. (std's `read_exact` refuses a shorter input, and
// `read_to_end` takes a `Vec`.)
fn read_input<R: Read>(input: &mut R, buf: &mut [u8], unwanted: bool) -> io::Result<usize>
    requires { (most < length buf.old) × (length buf.old ≤ most + 1) }
    ensures bound { IfOk result (λ n. n ≤ length buf.new) }
    ensures bytes { IfOk result (λ n. Consumes (R.remaining input.old) (R.remaining input.new) (take n buf.new)) }
    ensures end { IfOk result (λ n. unwanted ≡ false → n < length buf.new → IsAtEnd (R.remaining input.new)) }
    ensures lost { OnErr result ((n : ℕ) × (n ≤ length buf.new) × Consumes (R.remaining input.old) (R.remaining input.new) (take n buf.new)) }
    ensures unread { unwanted ≡ true → (result ≡ Ok 0) × (input.new ≡ input.old) × (buf.new ≡ buf.old) }
{
    if unwanted {
        return Ok(0);
    }
    let mut n: usize = 0;
    while n < buf.len() {
        let more = input.read(&mut buf[n..])?;
        if more == 0 {
            return Ok(n);
        }
        n += more;
    }
    Ok(n)
}

// The system's words for an error, which is shown with its number after them.
fn words_of(shown: &str) -> &str {
    match shown.split_once(" (os error ") {
        Some((words, _)) => words,
        None => shown,
    }
}

// Says on standard error why the input could not be read.
fn say_unread(rt: &(impl Eprint + AllocGlobal), error: io::Error) -> io::Result<()> {
    let shown = format!(in rt.alloc(); "{error}")?;
    let words = words_of(shown.as_str());
    eprintln!(rt; "mast_layout: standard input: {words}")
}

fn main(rt: HostRuntime) -> io::Result<()> {
    let mut words = [0u8; 390];
    let mut file = [0u8; 65537];
    let mut out = [0u8; 512];
    let len = read_words(&rt, &mut words);
    let words = &words[..len];
    let size = match read_input(&mut rt.stdin(), &mut file, words_wrong(words)) {
        Ok(size) => size,
        Err(error) => return say_unread(&rt, error),
    };
    match program(words, &file[..size], &mut out) {
        Said::Output(k) => rt.stdout().write_all(&out[..k]),
        Said::Error(k) => rt.stderr().write_all(&out[..k]),
    }
}
