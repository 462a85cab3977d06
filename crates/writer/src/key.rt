// The keys of the map, four numbers each: every one of elements, and none an earlier one again. Where a claim on their
// order is true, it tells the first that is. Else keys that rise cost one comparison each, and a key below an earlier one is
// held against all of them.
ghost use Rattle.std.specs.Prelude.{◌≡◌, [], ◌*◌, length};
ghost use Rattle.wire.specs.Table.{checked};
ghost use Rattle.wire.specs.Shown.{shown_by};
ghost use Rattle.wire.specs.Words.{not_elements};
ghost use Rattle.keys.specs.Keys.{seen_key};
ghost use Rattle.keys.specs.Claim.{keys_before};
ghost use Rattle.writer.specs.Writer.{key_rules};
ghost use Rattle.writer.specs.Inner.{Top, Told, FirstTwice};

use keys::claim::{Claim, check_claim, key_at};
use std::cmp::Ordering;
use wire::refusal::{Refusal, Refused};
use wire::word::{is_element, word_order};

// How a key stands to those before it.
#[derive(Clone, Copy)]
enum Standing {
    Highest,
    Between,
    Repeated,
}

// Whether one of the key's numbers is no element.
fn not_elements(key: [u64; 4]) -> bool
    ensures { result ≡ not_elements key }
{
    key.iter().any(|&x| !is_element(x))
}

// Whether the key is one of the first n, the nearest compared first.
fn is_seen(keys: &[u64], n: usize, key: [u64; 4]) -> bool
    ensures { result ≡ seen_key (keys_before keys.now n) key }
{
    (0..n).rev().any(|j| key_at(keys, j) == key)
}

// Key i among those before it, of which the one at `top` is the highest.
#[tactic(auto, using(keys::proofs::Lent::seen_none, keys::proofs::Lent::one_seen, crate::proofs::Keys::above_all))]
fn key_standing(keys: &[u64], i: usize, top: usize, key: [u64; 4]) -> Standing
    requires { Top keys.now i top }
    ensures { Told result keys.now i top key }
{
    if i == 0 {
        return Standing::Highest;
    }
    match word_order(key_at(keys, top), key) {
        Ordering::Less => Standing::Highest,
        Ordering::Equal => Standing::Repeated,
        Ordering::Greater => {
            if is_seen(keys, i, key) {
                Standing::Repeated
            } else {
                Standing::Between
            }
        }
    }
}

// Each key in turn: ELEMENT, then DUPLICATE of an earlier one, which is searched for. (By number: it is the refusal's place, and
// keys are four numbers each of one list, so that an iterator would be counted beside.)
#[tactic(auto, using(crate::proofs::Keys::left_all, crate::proofs::Keys::left_none, crate::proofs::Keys::no_word))]
fn check_keys(keys: &[u64], lengths: &[u64]) -> Result<(), Refused<usize>>
    requires { length keys.now ≡ 4 * length lengths.now }
    ensures { shown_by (λ u. u) result ≡ checked (key_rules 0 [] keys.now lengths.now) }
{
    let mut top = 0;
    for i in 0..lengths.len() {
        let key = key_at(keys, i);
        if not_elements(key) {
            return Err(Refused {
                why: Refusal::Element,
                at: i,
            });
        }
        match key_standing(keys, i, top, key) {
            Standing::Repeated => {
                return Err(Refused {
                    why: Refusal::Duplicate,
                    at: i,
                });
            }
            Standing::Highest => top = i,
            Standing::Between => {}
        }
    }
    Ok(())
}

// The same where it is known which key is the first to be an earlier one again. (A loop of its own: the one above hands on the
// highest key so far; a closure for both would carry and change it, which is no plainer.)
#[tactic(auto, using(crate::proofs::Keys::left_all, crate::proofs::Keys::left_none, crate::proofs::Keys::no_word))]
fn check_keys_known(keys: &[u64], lengths: &[u64], twice: usize) -> Result<(), Refused<usize>>
    requires { (length keys.now ≡ 4 * length lengths.now) × FirstTwice keys.now (length lengths.now) twice }
    ensures { shown_by (λ u. u) result ≡ checked (key_rules 0 [] keys.now lengths.now) }
{
    for i in 0..lengths.len() {
        if not_elements(key_at(keys, i)) {
            return Err(Refused {
                why: Refusal::Element,
                at: i,
            });
        }
        if i == twice {
            return Err(Refused {
                why: Refusal::Duplicate,
                at: i,
            });
        }
    }
    Ok(())
}

// The same, whatever is claimed of the keys' order. (Where there is none the number of keys stands for it, which no turn meets and
// `FirstTwice` allows: an Option would be compared whole in each turn. And that keys are four a length is asked by each of these, since lent parts
// may be any: `check` finds out.)
pub(crate) fn check_keys_claimed(
    keys: &[u64],
    lengths: &[u64],
    order: &[u64],
) -> Result<(), Refused<usize>>
    requires { length keys.now ≡ 4 * length lengths.now }
    ensures { shown_by (λ u. u) result ≡ checked (key_rules 0 [] keys.now lengths.now) }
{
    match check_claim(keys, order) {
        Claim::Wrong => check_keys(keys, lengths),
        Claim::Apart => check_keys_known(keys, lengths, lengths.len()),
        Claim::Repeat(twice) => check_keys_known(keys, lengths, twice),
    }
}
