// Calls that lend bytes to be written: a count, and a file of parts.
ghost use Rattle.std.specs.Prelude.{IsTrue};
ghost use Rattle.recorded.specs.Inner.{Records};

use crate::lists::{narrow, part};
use crate::told::Case;
use vekalumist::counts::veka_raw_write_count;
use vekalumist::write::veka_raw_write;

pub(crate) fn stored_agrees(case: &Case, lent: &[u64]) -> bool
    ensures { IsTrue result → Records case.now 14 lent.now }
{
    let mut room = [0u8; 4096];
    let Some(out) = room.get_mut(..lent.len()) else {
        return false;
    };
    if !narrow(lent, out) {
        return false;
    }
    let mut next: u64 = 901;
    let mut place: u64 = 900;
    let r = veka_raw_write_count(out, case.place(0), case.number(1), &mut next, &mut place);
    case.is_told(r, place, &[next], out)
}

// The parts that are bytes of the file, or given numbers; roots are 32 bits wide. What is claimed of the order of keys comes last.
pub(crate) fn written_agrees(case: &Case, lent: &[u64]) -> bool
    ensures { IsTrue result → Records case.now 18 lent.now }
{
    let mut room = [0u8; 4096];
    let Some(out) = room.get_mut(..lent.len()) else {
        return false;
    };
    let given = part(case.given, case.place(16), case.place(17));
    let mut wide = [0u32; 4096];
    let Some(roots) = wide.get_mut(..given.len()) else {
        return false;
    };
    if !narrow(lent, out) || !narrow(given, roots) {
        return false;
    }
    let mut size: u64 = 901;
    let mut place: u64 = 900;
    let r = veka_raw_write(
        &case.marks(),
        case.place(9),
        case.byte(10),
        roots,
        part(case.file, 0, case.place(11)),
        part(case.given, 19, case.place(13)),
        part(case.file, case.place(11), case.place(12)),
        part(case.file, case.place(12), case.file.len()),
        part(case.given, case.place(13), case.place(14)),
        part(case.given, case.place(14), case.place(15)),
        part(case.given, case.place(15), case.place(16)),
        part(case.given, case.place(17), case.place(18)),
        out,
        &mut size,
        &mut place,
    );
    case.is_told(r, place, &[size], out)
}
