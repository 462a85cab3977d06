// The size of the file, before a byte is written. A sum of lent parts may be above 2^64 - 1.
ghost use Rattle.std.specs.Prelude.{◌≡◌, ◌^◌, ◌<◌, ◌≤◌, map, length, SomeIff, IfOk};
ghost use Rattle.wire.specs.Table.{first_met};
ghost use Rattle.wire.specs.Rows.{Below};
ghost use Rattle.wire.specs.Counts.{shortest_len};
ghost use Rattle.wire.specs.Shown.{shown_by};
ghost use Rattle.writer.specs.Shown.{lent_parts};
ghost use Rattle.writer.specs.Writer.{sum};
ghost use Rattle.writer.specs.Inner.{file_size, room_rules, Numbered};

use crate::parts::Parts;
use wire::count::shortest_len;
use wire::refusal::{Refusal, Refused};

// The bytes of some counts, each in its shortest form.
fn counts_size(counts: &[u64]) -> usize
    ensures size { result ≡ sum (map shortest_len counts.now) }
    ensures numbered { Below (2 ^ 64) counts.now }
{
    counts.iter().map(|&n| shortest_len(n)).sum()
}

// A sum of sizes, where it is below 2^64.
fn checked_sum(sizes: &[usize]) -> Option<usize>
    ensures { SomeIff result (sum sizes.now < 2 ^ 64) (sum sizes.now) }
{
    let mut total: usize = 0;
    for &n in sizes {
        total = total.checked_add(n)?;
    }
    Some(total)
}

impl Parts<'_> {
    // The header, the counts that are not lengths of values, and what they count; None above 2^64 - 1.
    fn file_size(&self, externals: usize) -> Option<usize>
        requires { externals ≤ length self.now.words.now }
        ensures size { SomeIff result (file_size 8 (lent_parts self.now) externals < 2 ^ 64) (file_size 8 (lent_parts self.now) externals) }
        ensures numbered { Numbered (lent_parts self.now) }
    {
        let counts = [
            (self.words.len() - externals) as u64,
            externals as u64,
            self.roots.len() as u64,
            self.blocks.len() as u64,
            self.lengths.len() as u64,
        ];
        checked_sum(&[
            8,
            counts_size(&counts),
            4 * self.roots.len(),
            self.blocks.len(),
            8 * self.words.len(),
            self.external.len(),
            self.hashes.len(),
            8 * self.keys.len(),
            counts_size(self.lengths),
            8 * self.values.len(),
        ])
    }

    // The same, where an output of so many bytes has room for it.
    #[tactic(auto, unfolding(wire::specs::Table::first_met, crate::specs::Inner::room_rules))]
    pub(crate) fn size_within(&self, externals: usize, room: usize) -> Result<usize, Refused<usize>>
        requires { externals ≤ length self.now.words.now }
        ensures numbered { Numbered (lent_parts self.now) }
        ensures there { IfOk result (λ size. (size ≡ file_size 8 (lent_parts self.now) externals) × (size ≤ room)) }
        ensures size { shown_by (λ n. n) result ≡ first_met (room_rules (file_size 8 (lent_parts self.now) externals) room) (file_size 8 (lent_parts self.now) externals) }
    {
        let Some(size) = self.file_size(externals) else {
            return Err(Refused {
                why: Refusal::Overflow,
                at: 0,
            });
        };
        if room < size {
            return Err(Refused {
                why: Refusal::Room,
                at: size,
            });
        }
        Ok(size)
    }
}
