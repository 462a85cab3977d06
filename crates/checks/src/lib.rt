// The checks of all nodes: children, order, strict entries. Each reads the nodes from 0 on, one at a
// time, and judges a node before it reads the next.
#![tactic(auto)]

ghost use Rattle.std.specs.Prelude.{◌≡◌, ℕ, [], ◌∷◌};
ghost use Rattle.wire.specs.Table.{Outcome, accepted, checked};
ghost use Rattle.wire.specs.Shown.{shown_by};
ghost use Rattle.rows.specs.Rows.{row_outcome, node_pass};
ghost use Rattle.resolved.specs.Nodes.{node_entry};
ghost use Rattle.info.specs.declared.MastNodeEntry.{MastNodeEntry};
ghost use Rattle.info.specs.Node.{children_of};
ghost use Rattle.info.specs.Shown.{shown_children, shown_class};
ghost use Rattle.checks.specs.Checks.{AllBelow, Judges, child_rules, judge_order, judge_strict, children_outcome, order_outcome, strict_outcome};
ghost use Rattle.checks.specs.Shown.{shown_check};

use info::node::{Children, Class, children_of, class_of};
use info::{MastNodeEntry, canonical_word};
use layout::forest::ForestLayout;
use rows::row_entry;
use wire::number::u64_at;
use wire::refusal::{Refusal, Refused};
use wire::units::ByteOffset;

// One child: below the node count, and below its parent.
#[tactic(auto, unfolding(wire::specs::Table::first_met, crate::specs::Checks::child_rules))]
fn judge_child(nodes: usize, parent: usize, id: u32) -> Result<(), Refused<usize>>
    ensures { shown_check result ≡ checked (child_rules nodes parent (id ∷ [])) }
{
    let child = id as usize;
    if nodes <= child {
        return Err(Refused {
            why: Refusal::ChildRange,
            at: parent,
        });
    }
    if parent <= child {
        return Err(Refused {
            why: Refusal::Forward,
            at: parent,
        });
    }
    Ok(())
}

// A number above every child, 0 where there is none: one to compare, whatever the kind.
fn above_all(children: Children) -> usize
    ensures { AllBelow (shown_children children) result }
{
    match children {
        Children::None => 0,
        Children::One(child) => child as usize + 1,
        Children::Two(left, right) => left.max(right) as usize + 1,
    }
}

// The children of one entry, the left one first. Where all are below the parent, and that is a node, nothing is refused; the rules are
// asked only of the others.
#[tactic(auto, unfolding(wire::specs::Table::first_met, crate::specs::Checks::child_rules))]
fn judge_children(nodes: usize, parent: usize, entry: MastNodeEntry) -> Result<(), Refused<usize>>
    ensures { shown_check result ≡ checked (child_rules nodes parent (children_of entry)) }
{
    let children = children_of(entry);
    if parent < nodes && above_all(children) <= parent {
        return Ok(());
    }
    match children {
        Children::None => Ok(()),
        Children::One(child) => judge_child(nodes, parent, child),
        Children::Two(left, right) => {
            judge_child(nodes, parent, left)?;
            judge_child(nodes, parent, right)
        }
    }
}

// The class of a node, which may not be below its predecessor's.
#[tactic(auto, unfolding(wire::specs::Table::first_met))]
fn judge_order(i: usize, before: Class, entry: MastNodeEntry) -> Result<Class, Refused<usize>>
    ensures { shown_by shown_class result ≡ judge_order i (shown_class before) entry }
{
    let class = class_of(entry);
    if class < before {
        return Err(Refused {
            why: Refusal::Order,
            at: i,
        });
    }
    Ok(class)
}

// The bytes of a node that was read, against its written form.
#[tactic(auto, using(resolved::proofs::SlotLaws::row_inside, crate::proofs::CheckLaws::strict_word), unfolding(wire::specs::Table::first_met))]
fn judge_strict(
    s: &[u8],
    first: ByteOffset,
    i: usize,
    entry: MastNodeEntry,
) -> Result<(), Refused<usize>>
    requires { row_outcome s.now first.0 i ≡ accepted entry }
    ensures { shown_check result ≡ judge_strict s.now first.0 i tt entry }
{
    let word = u64_at(s, ByteOffset(first.0 + 8 * i));
    if canonical_word(word) != word {
        return Err(Refused {
            why: Refusal::NotCanonical,
            at: i,
        });
    }
    Ok(())
}

// The nodes from 0 on: each is read, and judged after what the node before it handed on, before the next one is read.
fn each_node<S: Copy, J: Fn(usize, S, MastNodeEntry) -> Result<S, Refused<usize>>>(
    s: &[u8],
    layout: ForestLayout,
    start: S,
    judge: J,
) -> Result<S, Refused<usize>>
    requires { (i : ℕ) (before : S) (entry : MastNodeEntry) → node_entry s.now layout i ≡ accepted entry → J.pre judge i before entry }
    ensures { (law : ℕ → S → MastNodeEntry → Outcome S) → Judges (J.post judge) law (node_entry s.now layout) → shown_by (λ v. v) result ≡ node_pass (node_entry s.now layout) law start layout.node_count }
{
    let mut before = start;
    for i in 0..layout.node_count {
        let entry = row_entry(s, layout.node_entry_offset, i)?;
        before = judge(i, before, entry)?;
    }
    Ok(before)
}

// Every child is below the node count and below its parent.
pub fn check_children(s: &[u8], layout: ForestLayout) -> Result<(), Refused<usize>>
    ensures { shown_check result ≡ children_outcome s.now layout }
{
    let nodes = layout.node_count;
    each_node(
        s,
        layout,
        (),
        |i, (), entry| judge_children(nodes, i, entry),
    )
}

// Externals first, then blocks, then all others. Before node 0 stands the lowest class.
pub fn check_order(s: &[u8], layout: ForestLayout) -> Result<(), Refused<usize>>
    ensures { shown_check result ≡ order_outcome s.now layout }
{
    each_node(s, layout, Class::External, judge_order)?;
    Ok(())
}

// Every entry stands in its written form.
pub fn check_strict(s: &[u8], layout: ForestLayout) -> Result<(), Refused<usize>>
    ensures { shown_check result ≡ strict_outcome s.now layout }
{
    let first = layout.node_entry_offset;
    each_node(
        s,
        layout,
        (),
        |i, (), entry| judge_strict(s, first, i, entry),
    )
}
