// Digests, and the calls that lend a slot table.
ghost use Rattle.std.specs.Prelude.{IsTrue};
ghost use Rattle.recorded.specs.Inner.{Records};

use crate::lists::narrow;
use crate::told::Case;
use vekalumist::digests::{veka_raw_digest, veka_raw_digest_with_table, veka_raw_slots};

pub(crate) fn digest_agrees(case: &Case, lent: &[u64]) -> bool
    ensures { IsTrue result → Records case.now 11 lent.now }
{
    let mut answer = [901u64, 902, 903, 904];
    let mut place: u64 = 900;
    let r = veka_raw_digest(
        case.file,
        &case.numbers(),
        case.place(12),
        &mut answer,
        &mut place,
    );
    case.is_told(r, place, &answer, lent)
}

pub(crate) fn table_agrees(case: &Case, lent: &[u64]) -> bool
    ensures { IsTrue result → Records case.now 12 lent.now }
{
    let mut room = [0u32; 4096];
    let Some(table) = room.get_mut(..lent.len()) else {
        return false;
    };
    if !narrow(lent, table) {
        return false;
    }
    let mut answer = [901u64, 902, 903, 904];
    let mut place: u64 = 900;
    let r = veka_raw_digest_with_table(
        case.file,
        &case.numbers(),
        case.place(12),
        table,
        &mut answer,
        &mut place,
    );
    case.is_told(r, place, &answer, table)
}

pub(crate) fn filled_agrees(case: &Case, lent: &[u64]) -> bool
    ensures { IsTrue result → Records case.now 13 lent.now }
{
    let mut room = [0u32; 4096];
    let Some(table) = room.get_mut(..lent.len()) else {
        return false;
    };
    if !narrow(lent, table) {
        return false;
    }
    let mut answer = [901u64, 902];
    let mut place: u64 = 900;
    let r = veka_raw_slots(
        case.file,
        &case.numbers(),
        &[case.number(12), case.number(13)],
        table,
        &mut answer,
        &mut place,
    );
    case.is_told(r, place, &answer, table)
}
