// Calls over a file: its flags, its layout, roots and entries by index, the checks of all nodes.
ghost use Rattle.std.specs.Prelude.{IsTrue};
ghost use Rattle.recorded.specs.Inner.{Records};

use crate::told::Case;
use vekalumist::entries::veka_raw_entry;
use vekalumist::files::{
    veka_raw_children, veka_raw_flags, veka_raw_order, veka_raw_root, veka_raw_scan,
    veka_raw_strict,
};

pub(crate) fn flags_agrees(case: &Case, lent: &[u64]) -> bool
    ensures { IsTrue result → Records case.now 19 lent.now }
{
    let mut flags: u8 = 91;
    let mut place: u64 = 900;
    let r = veka_raw_flags(case.file, &mut flags, &mut place);
    case.is_told(r, place, &[u64::from(flags)], lent)
}

pub(crate) fn scan_agrees(case: &Case, lent: &[u64]) -> bool
    ensures { IsTrue result → Records case.now 5 lent.now }
{
    let mut answer = [
        901u64, 902, 903, 904, 905, 906, 907, 908, 909, 910, 911, 912, 913,
    ];
    let mut place: u64 = 900;
    let r = veka_raw_scan(
        case.file,
        &case.marks(),
        case.place(9),
        case.number(10) != 0,
        &[case.number(11), case.number(12)],
        &mut answer,
        &mut place,
    );
    case.is_told(r, place, &answer, lent)
}

pub(crate) fn root_agrees(case: &Case, lent: &[u64]) -> bool
    ensures { IsTrue result → Records case.now 6 lent.now }
{
    let mut root: u32 = 901;
    let mut place: u64 = 900;
    let r = veka_raw_root(
        case.file,
        &case.numbers(),
        case.place(12),
        &mut root,
        &mut place,
    );
    case.is_told(r, place, &[u64::from(root)], lent)
}

pub(crate) fn entry_agrees(case: &Case, lent: &[u64]) -> bool
    ensures { IsTrue result → Records case.now 7 lent.now }
{
    let mut answer = [901u64, 902, 903];
    let mut place: u64 = 900;
    let r = veka_raw_entry(
        case.file,
        &case.numbers(),
        case.place(12),
        &mut answer,
        &mut place,
    );
    case.is_told(r, place, &answer, lent)
}

// (The three checks differ in the call alone; a closure for it would need clauses of its own, and be longer than these.)
pub(crate) fn children_agrees(case: &Case, lent: &[u64]) -> bool
    ensures { IsTrue result → Records case.now 8 lent.now }
{
    let mut place: u64 = 900;
    let r = veka_raw_children(case.file, &case.numbers(), &mut place);
    case.is_told(r, place, &[], lent)
}

pub(crate) fn order_agrees(case: &Case, lent: &[u64]) -> bool
    ensures { IsTrue result → Records case.now 9 lent.now }
{
    let mut place: u64 = 900;
    let r = veka_raw_order(case.file, &case.numbers(), &mut place);
    case.is_told(r, place, &[], lent)
}

pub(crate) fn strict_agrees(case: &Case, lent: &[u64]) -> bool
    ensures { IsTrue result → Records case.now 10 lent.now }
{
    let mut place: u64 = 900;
    let r = veka_raw_strict(case.file, &case.numbers(), &mut place);
    case.is_told(r, place, &[], lent)
}
