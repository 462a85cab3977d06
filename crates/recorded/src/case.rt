// A line that is a case, over a file.
ghost use Rattle.std.specs.Prelude.{◌≡◌, true, IsTrue};
ghost use Rattle.recorded.specs.Agreed.{agrees};
ghost use Rattle.recorded.specs.Inner.{Records};

use crate::digests::{digest_agrees, filled_agrees, table_agrees};
use crate::files::{
    children_agrees, entry_agrees, flags_agrees, order_agrees, root_agrees, scan_agrees,
    strict_agrees,
};
use crate::map::{
    key_agrees, lookup_agrees, map_entry_agrees, places_agrees, values_agrees, walk_agrees,
};
use crate::numbers::{count_agrees, decoded_agrees, encoded_agrees, length_agrees, version_agrees};
use crate::reading::{cut, numbers_of};
use crate::told::Case;
use crate::written::{stored_agrees, written_agrees};

// The call's number comes from the text, and is matched once. (A function for each call, since each differs in the function called
// and in what its answer is: for one over a closure there would be as many closures.)
fn call_agrees(call: u64, case: &Case, lent: &mut [u64]) -> bool
    ensures { IsTrue result → Records case.now call lent.old }
{
    match call {
        1 => count_agrees(case, lent),
        2 => length_agrees(case, lent),
        3 => decoded_agrees(case, lent),
        4 => encoded_agrees(case, lent),
        5 => scan_agrees(case, lent),
        6 => root_agrees(case, lent),
        7 => entry_agrees(case, lent),
        8 => children_agrees(case, lent),
        9 => order_agrees(case, lent),
        10 => strict_agrees(case, lent),
        11 => digest_agrees(case, lent),
        12 => table_agrees(case, lent),
        13 => filled_agrees(case, lent),
        14 => stored_agrees(case, lent),
        15 => walk_agrees(case, lent),
        16 => lookup_agrees(case, lent),
        17 => values_agrees(case, lent),
        18 => written_agrees(case, lent),
        19 => flags_agrees(case, lent),
        20 => places_agrees(case, lent),
        21 => key_agrees(case, lent),
        22 => map_entry_agrees(case, lent),
        23 => version_agrees(case, lent),
        _ => false,
    }
}

// A line has three groups of numbers: the call and what it is given, the memory that is lent, and the recorded row. (Fixed memory,
// of which the first numbers count: the program's limits are said at its head.)
pub(crate) fn case_agrees(file: &[u8], line: &[u8]) -> bool
    ensures { IsTrue result → agrees file.now line.now ≡ true }
{
    let (first, rest) = cut(line, b';');
    let (middle, last) = cut(rest, b';');
    let mut given = [0u64; 4096];
    let mut lent = [0u64; 4096];
    let mut row = [0u64; 8192];
    let Some(n) = numbers_of(first, &mut given) else {
        return false;
    };
    let Some(m) = numbers_of(middle, &mut lent) else {
        return false;
    };
    let Some(k) = numbers_of(last, &mut row) else {
        return false;
    };
    let Some((call, given)) = given[..n].split_first() else {
        return false;
    };
    let case = Case {
        file,
        given,
        row: &row[..k],
    };
    call_agrees(*call, &case, &mut lent[..m])
}
