// What is judged before a byte is counted: the format, the flags, the entry words, how the parts fit
// together, and the keys.
ghost use Rattle.std.specs.Prelude.{◌≡◌, ◌-◌, ◌^◌, ◌≤◌, eqb, length};
ghost use Rattle.wire.specs.Table.{checked};
ghost use Rattle.wire.specs.Shown.{shown_by};
ghost use Rattle.writer.specs.Shown.{lent_parts};
ghost use Rattle.writer.specs.Writer.{sum};
ghost use Rattle.writer.specs.Inner.{head_rules, part_rules, fit_outcome};

use crate::key::check_keys_claimed;
use crate::parts::Parts;
use layout::facts::{FormatFacts, bad_format, hash_count};
use rows::read_words;
use wire::refusal::{Refusal, Refused};

#[tactic(auto, unfolding(wire::specs::Table::first_met, crate::specs::Inner::head_rules))]
fn check_head(f: FormatFacts, flags: u8, nodes: usize) -> Result<(), Refused<usize>>
    ensures { shown_by (λ u. u) result ≡ checked (head_rules f flags nodes) }
{
    if bad_format(f) {
        return Err(Refused {
            why: Refusal::Format,
            at: 0,
        });
    }
    if flags & f.reserved != 0 {
        return Err(Refused {
            why: Refusal::Flags,
            at: 4,
        });
    }
    if f.max_nodes < nodes {
        return Err(Refused {
            why: Refusal::TooMany,
            at: 0,
        });
    }
    Ok(())
}

// Whether the lengths' sum is so many values. What is left is lessened, so that no sum wraps.
fn lengths_sum_to(values: usize, lengths: &[u64]) -> bool
    ensures { result ≡ eqb values (sum lengths.now) }
{
    let mut left = values as u64;
    for &n in lengths {
        let Some(rest) = left.checked_sub(n) else {
            return false;
        };
        left = rest;
    }
    left == 0
}

impl Parts<'_> {
    // PARTS 1 to 4, by the lengths of the parts.
    #[tactic(auto, unfolding(wire::specs::Table::first_met, crate::specs::Inner::part_rules))]
    fn check_lengths(&self, hashless: bool, externals: usize) -> Result<(), Refused<usize>>
        requires { (externals ≤ length self.now.words.now) × (length self.now.words.now ≤ 2 ^ 30) }
        ensures { shown_by (λ u. u) result ≡ checked (part_rules hashless (length self.now.words.now - externals) externals (length self.now.external.now) (length self.now.hashes.now) (length self.now.keys.now) (length self.now.values.now) self.now.lengths.now) }
    {
        let why = Refusal::Parts;
        if self.external.len() != 32 * externals {
            return Err(Refused { why, at: 1 });
        }
        if self.hashes.len() != 32 * hash_count(hashless, self.words.len() - externals) {
            return Err(Refused { why, at: 2 });
        }
        if self.keys.len() != 4 * self.lengths.len() {
            return Err(Refused { why, at: 3 });
        }
        if !lengths_sum_to(self.values.len(), self.lengths) {
            return Err(Refused { why, at: 4 });
        }
        Ok(())
    }

    // All that is judged before the size, and how many nodes are External. Roots and blocks are not judged. `order` is a
    // claim on the keys' order.
    #[tactic(auto, using(crate::proofs::Fits::few_nodes, crate::proofs::Fits::few_externals, crate::proofs::Fits::keys_whole))]
    pub(crate) fn check(&self, f: FormatFacts, order: &[u64]) -> Result<usize, Refused<usize>>
        ensures { shown_by (λ n. n) result ≡ fit_outcome f (lent_parts self.now) }
    {
        check_head(f, self.flags, self.words.len())?;
        let externals = read_words(self.words)?;
        self.check_lengths(self.flags & f.hashless != 0, externals)?;
        check_keys_claimed(self.keys, self.lengths, order)?;
        Ok(externals)
    }
}
