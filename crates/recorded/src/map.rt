// Calls over the map and its key table.
ghost use Rattle.std.specs.Prelude.{IsTrue};
ghost use Rattle.recorded.specs.Inner.{Records};

use crate::told::Case;
use vekalumist::map::{
    veka_raw_key, veka_raw_lookup, veka_raw_map_entry, veka_raw_places, veka_raw_values,
    veka_raw_walk,
};

#[tactic(auto, unfolding(crate::specs::Calls::call_row))]
pub(crate) fn places_agrees(case: &Case, keys: &[u64]) -> bool
    ensures { IsTrue result → Records case.now 20 keys.now }
{
    case.is_number(veka_raw_places(case.file, case.place(0)))
}

pub(crate) fn walk_agrees(case: &Case, keys: &mut [u64]) -> bool
    ensures { IsTrue result → Records case.now 15 keys.old }
{
    let mut answer = [901u64, 902, 903, 904];
    let mut place: u64 = 900;
    let r = veka_raw_walk(case.file, case.place(0), keys, &mut answer, &mut place);
    case.is_told(r, place, &answer, keys)
}

pub(crate) fn key_agrees(case: &Case, keys: &[u64]) -> bool
    ensures { IsTrue result → Records case.now 21 keys.now }
{
    let mut answer = [901u64, 902, 903, 904];
    let mut place: u64 = 900;
    let r = veka_raw_key(case.file, keys, case.place(0), &mut answer, &mut place);
    case.is_told(r, place, &answer, keys)
}

pub(crate) fn map_entry_agrees(case: &Case, keys: &[u64]) -> bool
    ensures { IsTrue result → Records case.now 22 keys.now }
{
    let mut answer = [901u64, 902, 903, 904, 905, 906];
    let mut place: u64 = 900;
    let r = veka_raw_map_entry(case.file, keys, case.place(0), &mut answer, &mut place);
    case.is_told(r, place, &answer, keys)
}

pub(crate) fn lookup_agrees(case: &Case, keys: &[u64]) -> bool
    ensures { IsTrue result → Records case.now 16 keys.now }
{
    let mut answer = [901u64, 902, 903, 904];
    let mut place: u64 = 900;
    let r = veka_raw_lookup(
        case.file,
        keys,
        case.place(4),
        &case.numbers(),
        &mut answer,
        &mut place,
    );
    case.is_told(r, place, &answer, keys)
}

pub(crate) fn values_agrees(case: &Case, keys: &[u64]) -> bool
    ensures { IsTrue result → Records case.now 17 keys.now }
{
    let mut answer = [901u64, 902, 903];
    let mut place: u64 = 900;
    let r = veka_raw_values(
        case.file,
        keys,
        case.place(4),
        &case.numbers(),
        &mut answer,
        &mut place,
    );
    case.is_told(r, place, &answer, keys)
}
