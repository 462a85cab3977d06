// Calls over numbers: counts, entries, the version.
ghost use Rattle.std.specs.Prelude.{IsTrue};
ghost use Rattle.recorded.specs.Inner.{Records};

use crate::told::Case;
use vekalumist::counts::{veka_raw_read_count, veka_shortest_len};
use vekalumist::entries::{veka_decode_entry, veka_encode_entry};
use vekalumist::veka_version;

pub(crate) fn count_agrees(case: &Case, lent: &[u64]) -> bool
    ensures { IsTrue result → Records case.now 1 lent.now }
{
    let mut answer = [901u64, 902, 903, 904];
    let mut place: u64 = 900;
    let r = veka_raw_read_count(case.file, case.place(0), &mut answer, &mut place);
    case.is_told(r, place, &answer, lent)
}

#[tactic(auto, unfolding(crate::specs::Calls::call_row))]
pub(crate) fn length_agrees(case: &Case, lent: &[u64]) -> bool
    ensures { IsTrue result → Records case.now 2 lent.now }
{
    case.is_number(veka_shortest_len(case.number(0)))
}

pub(crate) fn decoded_agrees(case: &Case, lent: &[u64]) -> bool
    ensures { IsTrue result → Records case.now 3 lent.now }
{
    let mut answer = [901u64, 902, 903];
    let mut place: u64 = 900;
    let r = veka_decode_entry(case.number(0), &mut answer, &mut place);
    case.is_told(r, place, &answer, lent)
}

pub(crate) fn encoded_agrees(case: &Case, lent: &[u64]) -> bool
    ensures { IsTrue result → Records case.now 4 lent.now }
{
    let mut word: u64 = 901;
    let mut place: u64 = 900;
    let r = veka_encode_entry(&case.numbers(), &mut word, &mut place);
    case.is_told(r, place, &[word], lent)
}

#[tactic(auto, unfolding(crate::specs::Calls::call_row))]
pub(crate) fn version_agrees(case: &Case, lent: &[u64]) -> bool
    ensures { IsTrue result → Records case.now 23 lent.now }
{
    case.is_number(veka_version())
}
