// Rows of a section by their number: where a row lies, the entry in a row, and the pass over all
// entries, of a file or of words. The pass is quick where nothing is wrong: strips of nodes are surveyed
// without a branch, and the plain loop goes on from the first strip in doubt, so a doubt costs time and
// never truth.
#![tactic(auto)]

ghost use Rattle.std.specs.Prelude.{◌≡◌, ◌↔◌, ℕ, ◌+◌, ◌*◌, ◌/◌, ◌%◌, ◌^◌, ◌<◌, ◌≤◌, length, IsTrue, IfSome};
ghost use Rattle.wire.specs.Table.{Outcome};
ghost use Rattle.wire.specs.Le.{le_at};
ghost use Rattle.info.specs.declared.MastNodeEntry.{MastNodeEntry};
ghost use Rattle.rows.specs.Rows.{row_place, row_outcome, word_read, external_one, entry_pass, Begun, Onward, Strip, Narrow, beside, Clear};
ghost use Rattle.rows.specs.Shown.{shown_row, shown_pass};

use info::node::is_external;
use info::{MastNodeEntry, decode_entry, read_entry};
use wire::refusal::{Refusal, Refused};
use wire::units::ByteOffset;

// Nodes to a strip of the survey.
const STRIP: usize = 4096;

// The least upper half of a word with a tag that there is not.
const NO_TAG: u32 = 0x9000_0000;

// Where row `index` of rows of `size` bytes starts; nothing if its end is above 2^64 - 1.
#[tactic(auto, using(crate::proofs::RowLaws::past_last))]
pub fn row_place(section: ByteOffset, size: usize, index: usize) -> Option<ByteOffset>
    ensures { result ≡ row_place section.0 size index }
{
    let from = section.0;
    // The last row is the same for each, so a loop works it out once: with a product and two sums that
    // are tested in each row, the checks of all nodes took a sixth more time. Of rows of no bytes any is there.
    let room = (usize::MAX - from).checked_sub(size)?;
    let last = room.checked_div(size).unwrap_or(usize::MAX);
    if last < index {
        return None;
    }
    Some(ByteOffset(from + size * index))
}

// The entry in row i of the rows from `first` on, or why there is none, with the row's number.
#[tactic(auto, using(crate::proofs::RowLaws::placed_over, crate::proofs::RowLaws::row_over_lem))]
pub fn row_entry(s: &[u8], first: ByteOffset, i: usize) -> Result<MastNodeEntry, Refused<usize>>
    ensures { shown_row result ≡ row_outcome s.now first.0 i }
{
    let Some(at) = row_place(first, 8, i) else {
        return Err(Refused {
            why: Refusal::Overflow,
            at: i,
        });
    };
    let (entry, _) = read_entry(s, at).map_err(|refused| refused.told_at(i))?;
    Ok(entry)
}

// 1 for an External, else 0.
pub fn external_one(entry: MastNodeEntry) -> usize
    ensures { result ≡ external_one entry }
{
    usize::from(is_external(entry))
}

// Nodes by their number.
trait Nodes {
    // how many there are, and what each reads as
    ghost count: { Self → ℕ };

    ghost read: { Self → ℕ → Outcome MastNodeEntry };

    fn len(&self) -> usize
        ensures { result ≡ count self.now };

    fn entry(&self, i: usize) -> Result<MastNodeEntry, Refused<usize>>
        requires { i < count self.now }
        ensures { shown_row result ≡ read self.now i };

    // Where a strip of nodes from `from` on ends, every one of which has an entry, and how many of them are External.
    fn survey(&self, from: usize) -> Option<(usize, u32)>
        requires { from < count self.now }
        ensures { IfSome result (Strip (read self.now) from (count self.now)) };
}

// The n rows of a file from `first` on, and whether they are known to lie in the file.
#[derive(Clone, Copy)]
struct Rows<'a> {
    s: &'a [u8],
    first: ByteOffset,
    n: usize,
    inside: bool,
    ghost fit: { IsTrue inside → first.0 + 8 * n ≤ length s.now },
}

impl<'a> Rows<'a> {
    fn new(s: &'a [u8], first: ByteOffset, n: usize) -> Self
        ensures { (result.s.now ≡ s.now) × ((result.first ≡ first) × (result.n ≡ n)) }
    {
        let inside = first.0 <= s.len() && n <= (s.len() - first.0) / 8;
        Rows {
            s,
            first,
            n,
            inside,
        }
    }
}

impl<'a> Nodes for Rows<'a> {
    ghost count = { λ rows. rows.n };

    ghost read = { λ rows. row_outcome rows.s.now rows.first.0 };

    fn len(&self) -> usize {
        self.n
    }

    fn entry(&self, i: usize) -> Result<MastNodeEntry, Refused<usize>> {
        row_entry(self.s, self.first, i)
    }

    fn survey(&self, from: usize) -> Option<(usize, u32)> {
        if !self.inside {
            return None;
        }
        let to = from + STRIP.min(self.n - from);
        let externals = survey_rows(self.s, self.first, from, to)?;
        Some((to, externals))
    }
}

// The words of entries that no file holds yet.
#[derive(Clone, Copy)]
struct Words<'a> {
    words: &'a [u64],
}

impl<'a> Nodes for Words<'a> {
    ghost count = { λ nodes. length nodes.words.now };

    ghost read = { λ nodes. word_read nodes.words.now };

    fn len(&self) -> usize {
        self.words.len()
    }

    fn entry(&self, i: usize) -> Result<MastNodeEntry, Refused<usize>> {
        decode_entry(self.words[i]).map_err(|refused| refused.told_at(i))
    }

    fn survey(&self, from: usize) -> Option<(usize, u32)> {
        let n = (STRIP / 2).min((self.words.len() - from) / 2);
        if n == 0 {
            return None;
        }
        let externals = survey_words(self.words, from, n)?;
        Some((from + n + n, externals))
    }
}

// The plain pass from node `from` on, after `before` externals: one entry at a time.
#[tactic(auto, using(crate::proofs::Pass::external_le))]
fn read_from<N: Nodes>(nodes: &N, from: usize, before: usize) -> Result<usize, Refused<usize>>
    requires { (from ≤ N.count nodes.now) × Begun (N.read nodes.now) from before }
    ensures { shown_pass result ≡ entry_pass (N.read nodes.now) (N.count nodes.now) }
{
    let mut externals = before;
    for i in from..nodes.len() {
        externals += external_one(nodes.entry(i)?);
    }
    Ok(externals)
}

// The quick pass: strip by strip, and plainly what no survey is sure of. (A `while`: a survey says where its strip ends.)
#[tactic(auto, using(crate::proofs::Pass::pass_none))]
fn read_quickly<N: Nodes>(nodes: &N) -> Result<usize, Refused<usize>>
    ensures { shown_pass result ≡ entry_pass (N.read nodes.now) (N.count nodes.now) }
{
    let mut externals: usize = 0;
    let mut from = 0;
    // no `for`: each strip ends where its survey says
    while from < nodes.len() {
        let Some((to, more)) = nodes.survey(from) else {
            return read_from(nodes, from, externals);
        };
        externals += more as usize;
        from = to;
    }
    Ok(externals)
}

// How many of the n rows from `first` on are External, by the plain pass alone; or the first refusal, with the row's number.
#[tactic(auto, using(crate::proofs::Pass::pass_none))]
pub fn read_each(s: &[u8], first: ByteOffset, n: usize) -> Result<usize, Refused<usize>>
    ensures { shown_pass result ≡ entry_pass (row_outcome s.now first.0) n }
{
    read_from(&Rows::new(s, first, n), 0, 0)
}

// The same by the quick pass.
pub fn read_entries(s: &[u8], first: ByteOffset, n: usize) -> Result<usize, Refused<usize>>
    ensures { shown_pass result ≡ entry_pass (row_outcome s.now first.0) n }
{
    read_quickly(&Rows::new(s, first, n))
}

// The same of words that no file holds yet.
pub fn read_words(words: &[u64]) -> Result<usize, Refused<usize>>
    ensures { shown_pass result ≡ entry_pass (word_read words.now) (length words.now) }
{
    read_quickly(&Words { words })
}

// The upper half of a row's word, with no test of room, which would keep the survey from becoming vector code. The tag, which is
// the kind, with its bit of External, and all of a payload that can be too long lie there.
#[tactic(auto, using(wire::proofs::Numbers::eight_bytes))]
fn upper(s: &[u8], at: usize) -> u32
    requires { at + 8 ≤ length s.now }
    ensures { result ≡ le_at s.now at 8 / 2 ^ 32 }
{
    u32::from_le_bytes([s[at + 4], s[at + 5], s[at + 6], s[at + 7]])
}

// The upper half where the tag is 2 to 5, whose payload has 32 bits; else a number whose lower bits say nothing. A clamp is
// one step less than two tests.
fn single(half: u32) -> u32
    ensures { 2 * 2 ^ 28 ≤ half → half < 6 * 2 ^ 28 → result ≡ half }
{
    half.clamp(0x2000_0000, 0x6000_0000)
}

// A strip of rows inside the file, with no branch and no early end, so that it compiles to vector code.
// What it gathers can only show that all is well, and that is all it promises. (By number: the loop that was measured
// as vector code; and not one loop with `survey_words`, which takes its rows in pairs: the vectors differ.)
fn survey_rows(s: &[u8], first: ByteOffset, from: usize, to: usize) -> Option<u32>
    requires { (from ≤ to) × ((to ≤ from + 4096) × (first.0 + 8 * to ≤ length s.now)) }
    ensures { IfSome result (Onward (row_outcome s.now first.0) from to) }
{
    let base = first.0;
    let mut externals: u32 = 0;
    let mut singles: u32 = 0;
    let mut top: u32 = 0;
    for i in from..to {
        let half = upper(s, base + 8 * i);
        externals += half / 0x8000_0000;
        singles |= single(half);
        top = top.max(half);
    }
    if singles % 0x1000_0000 == 0 && top < NO_TAG {
        Some(externals)
    } else {
        None
    }
}

// The upper halves of two words side by side.
fn side_by_side(low: u64, high: u64) -> u64
    ensures { result ≡ beside (low / 2 ^ 32) (high / 2 ^ 32) }
{
    high / 0x1_0000_0000 * 0x1_0000_0000 + low / 0x1_0000_0000
}

// Half of each. What is left free above it takes the carry of a sum.
#[tactic(auto, using(crate::proofs::Pairs::pair_halved))]
fn halved(pair: u64) -> u64
    ensures { result ≡ beside (pair % 2 ^ 32 / 2) (pair / 2 ^ 32 / 2) }
{
    (pair / 2) & 0x7FFF_FFFF_7FFF_FFFF
}

// The top bit of each.
#[tactic(auto, using(crate::proofs::Pairs::pair_tops))]
fn top_bits(pair: u64) -> u64
    ensures { result ≡ beside (pair % 2 ^ 32 / 2 ^ 31) (pair / 2 ^ 32 / 2 ^ 31) }
{
    (pair / 0x8000_0000) & 0x1_0000_0001
}

// Bit 29 of each is set where the tag is 2 to 5 and the payload is wide: the first sum has it for these tags and no other below 9,
// the second for these payloads. Sums, since the vectors of x86-64 have no comparison of unsigned numbers.
#[tactic(auto, using(crate::proofs::Pairs::pair_masked, crate::proofs::Pairs::clear_narrow))]
fn wide_marks(pair: u64, halves: u64) -> u64
    requires { halves ≡ beside (pair % 2 ^ 32 / 2) (pair / 2 ^ 32 / 2) }
    ensures { Clear 29 result → Narrow (pair % 2 ^ 32) × Narrow (pair / 2 ^ 32) }
{
    (halves + 0x1000_0000_1000_0000) & ((pair & 0x0FFF_FFFF_0FFF_FFFF) + 0x1FFF_FFFF_1FFF_FFFF)
}

// Bit 31 of each is set where the tag is above 8.
fn high_marks(pair: u64, halves: u64) -> u64
    requires { halves ≡ beside (pair % 2 ^ 32 / 2) (pair / 2 ^ 32 / 2) }
    ensures { Clear 31 result → (pair % 2 ^ 32 < 9 * 2 ^ 28) × (pair / 2 ^ 32 < 9 * 2 ^ 28) }
{
    halves + 0x3800_0000_3800_0000
}

// Whether a bit is set in neither.
fn is_clear(pair: u64, bit: u32) -> bool
    requires { bit < 32 }
    ensures { IsTrue result ↔ Clear bit pair }
{
    pair >> bit & 1 == 0 && pair >> (bit + 32) & 1 == 0
}

// A strip of 2 n words, as `survey_rows`; the words of its two halves go by in pairs, so that four fill a vector: by number, since
// a pair is two places.
fn survey_words(words: &[u64], from: usize, n: usize) -> Option<u32>
    requires { (n ≤ 2048) × (from + n + n ≤ length words.now) }
    ensures { IfSome result (Onward (word_read words.now) from (from + n + n)) }
{
    let mut externals: u64 = 0;
    let mut wides: u64 = 0;
    let mut highs: u64 = 0;
    for i in 0..n {
        let pair = side_by_side(words[from + i], words[from + n + i]);
        let halves = halved(pair);
        externals += top_bits(pair);
        wides |= wide_marks(pair, halves);
        highs |= high_marks(pair, halves);
    }
    if is_clear(wides, 29) && is_clear(highs, 31) {
        Some((externals % 0x1_0000_0000 + externals / 0x1_0000_0000) as u32)
    } else {
        None
    }
}
