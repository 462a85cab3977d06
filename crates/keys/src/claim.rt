// Keys by their number in a lent slice, four numbers each, and a claim on their order: the number of each key, as the keys
// rise. Anyone may make it, so it is looked at in one pass.
ghost use Rattle.std.specs.Prelude.{◌≡◌};
ghost use Rattle.keys.specs.Claim.{key_at, claimed};

use std::cmp::Ordering;
use wire::word::word_order;

// What a claim tells: nothing, or that all keys differ, or the first key that is an earlier one again. Three cases with
// names: an Option of an Option would not show which is which.
#[derive(Clone, Copy)]
pub enum Claim {
    Wrong,
    Apart,
    Repeat(usize),
}

// Key i; zeros where its four numbers are not all there. (Number by number: a part made an array by `try_from` would have
// a failure that cannot be.)
pub fn key_at(keys: &[u64], i: usize) -> [u64; 4]
    ensures { result ≡ key_at keys.now i }
{
    if keys.len() / 4 <= i {
        return [0; 4];
    }
    let k = 4 * i;
    [keys[k], keys[k + 1], keys[k + 2], keys[k + 3]]
}

// Along a true claim a key that stands twice follows its like, so the least number that follows its like is the first such
// key in the keys' own order.
pub fn check_claim(keys: &[u64], order: &[u64]) -> Claim
    ensures { result ≡ claimed keys.now order.now }
{
    let n = order.len();
    if keys.len() != 4 * n {
        return Claim::Wrong;
    }
    let Some((first, rest)) = order.split_first() else {
        return Claim::Apart;
    };
    let mut a = *first;
    if n as u64 <= a {
        return Claim::Wrong;
    }
    let mut best: Option<u64> = None;
    for &b in rest {
        if n as u64 <= b {
            return Claim::Wrong;
        }
        match word_order(key_at(keys, a as usize), key_at(keys, b as usize)) {
            Ordering::Less => {}
            Ordering::Equal if a < b => best = Some(best.map_or(b, |x| x.min(b))),
            _ => return Claim::Wrong,
        }
        a = b;
    }
    match best {
        None => Claim::Apart,
        Some(b) => Claim::Repeat(b as usize),
    }
}
