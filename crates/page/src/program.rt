// The small program: from the words of its command and the bytes of its input to what it says, and where.
ghost use Rattle.std.specs.Prelude.{◌≡◌};
ghost use Rattle.page.specs.Program.{word_at, word_count, command_check, command_wrong, complaint_text, program_says, said, text_first};

use crate::answer::layout_page;
use crate::words::{WrongWords, read_facts, stand_in_facts};
use layout::facts::FormatFacts;
use text::fill::{text_len, write_filled};

// The stream, and how many bytes of the lent buffer are to be written to it. (No `Result`: a refusal is no error here, it is told on
// standard output.)
#[derive(Clone, Copy)]
pub enum Said {
    Output(usize),
    Error(usize),
}

// Word k, counted from 0, of words that each end in a zero; an empty one where there are fewer.
fn word_at(words: &[u8], k: usize) -> &[u8]
    ensures { result.now ≡ word_at k words.now }
{
    words.split(|b| *b == 0).nth(k).unwrap_or(&[])
}

// How many words there are.
fn word_count(words: &[u8]) -> usize
    ensures { result ≡ word_count words.now }
{
    words.iter().filter(|b| **b == 0).count()
}

// The facts of a command's words, or what is wrong with them.
#[tactic(auto, unfolding(crate::specs::Program::command_check), using(wire::proofs::Ladder::ladder))]
fn command(words: &[u8]) -> Result<FormatFacts, WrongWords>
    ensures { result ≡ command_check words.now }
{
    match word_count(words) {
        0 => Ok(stand_in_facts()),
        5 => read_facts(
            word_at(words, 0),
            word_at(words, 1),
            word_at(words, 2),
            word_at(words, 3),
            word_at(words, 4),
        ),
        _ => Err(WrongWords::Count),
    }
}

// The complaint about wrong words.
#[tactic(auto, unfolding(crate::specs::Program::complaint_text, text::specs::Text::bytes))]
fn complaint(wrong: WrongWords) -> &'static [u8]
    ensures { result.now ≡ complaint_text wrong }
{
    match wrong {
        WrongWords::Count => {
            b"mast_layout: give no words, or five: MAGIC VERSION HASHLESS RESERVED MAXIMUM\n"
        }
        WrongWords::Magic => b"mast_layout: the magic is not 8 hexadecimal digits\n",
        WrongWords::Version => b"mast_layout: the version is not 6 hexadecimal digits\n",
        WrongWords::Hashless => b"mast_layout: the hashless mask is not 2 hexadecimal digits\n",
        WrongWords::Reserved => b"mast_layout: the reserved mask is not 2 hexadecimal digits\n",
        WrongWords::Maximum => {
            b"mast_layout: the node maximum is not a decimal number below 2^64\n"
        }
    }
}

// Whether the words are wrong: then what is said is the same for any input.
#[tactic(auto, unfolding(crate::specs::Program::command_wrong))]
pub fn words_wrong(words: &[u8]) -> bool
    ensures { result ≡ command_wrong words.now }
{
    command(words).is_err()
}

// The whole program, over the words and the file. No text is longer than the buffer.
pub fn program(words: &[u8], file: &[u8], out: &mut [u8; 512]) -> Said
    ensures value { result ≡ said (program_says words.now file.now) }
    ensures out_after { out.new ≡ text_first (program_says words.now file.now).text out.old }
{
    match command(words) {
        Ok(facts) => {
            let mut keys = [0u64; 2048];
            Said::Output(text_len(layout_page(file, facts, &mut keys, out)))
        }
        Err(wrong) => Said::Error(text_len(write_filled(complaint(wrong), &[], out))),
    }
}
