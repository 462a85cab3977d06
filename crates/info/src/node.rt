// The vocabulary of nodes: the kind of an entry, its class and its children, and an entry from its kind and numbers.
// A loop that has no time to make an entry tests the top of its word instead: that is the kind (`kind_is_tag` in
// proofs/NodeLaws.antt).
ghost use Rattle.std.specs.Prelude.{◌≡◌};
ghost use Rattle.info.specs.Node.{kind_of, is_external, class_of, children_of, make_outcome};
ghost use Rattle.info.specs.Shown.{shown_children, shown_class, shown_made};

use crate::MastNodeEntry;
use wire::refusal::{Refusal, Refused};

// The children of a node, left first: none, one or two.
#[derive(Clone, Copy)]
pub enum Children {
    None,
    One(u32),
    Two(u32, u32),
}

// The classes of nodes, in their order.
#[derive(Clone, Copy, PartialEq, Eq, PartialOrd, Ord)]
pub enum Class {
    External,
    Block,
    Other,
}

// The kind, by its tag: the format's number, which an entry's word holds; C is told it, and the
// definition `kind_of` is that number.
pub fn kind_of(entry: MastNodeEntry) -> u8
    ensures { result ≡ kind_of entry }
{
    match entry {
        MastNodeEntry::Join { .. } => 0,
        MastNodeEntry::Split { .. } => 1,
        MastNodeEntry::Loop { .. } => 2,
        MastNodeEntry::Block { .. } => 3,
        MastNodeEntry::Call { .. } => 4,
        MastNodeEntry::SysCall { .. } => 5,
        MastNodeEntry::Dyn => 6,
        MastNodeEntry::Dyncall => 7,
        MastNodeEntry::External => 8,
    }
}

pub fn is_external(entry: MastNodeEntry) -> bool
    ensures { result ≡ is_external entry }
{
    matches!(entry, MastNodeEntry::External)
}

pub fn class_of(entry: MastNodeEntry) -> Class
    ensures { shown_class result ≡ class_of entry }
{
    match entry {
        MastNodeEntry::External => Class::External,
        MastNodeEntry::Block { .. } => Class::Block,
        _ => Class::Other,
    }
}

// The number of a Block is no child.
pub fn children_of(entry: MastNodeEntry) -> Children
    ensures { shown_children result ≡ children_of entry }
{
    match entry {
        MastNodeEntry::Join {
            left_child_id: left,
            right_child_id: right,
        }
        | MastNodeEntry::Split {
            if_branch_id: left,
            else_branch_id: right,
        } => Children::Two(left, right),
        MastNodeEntry::Loop { body_id: child }
        | MastNodeEntry::Call { callee_id: child }
        | MastNodeEntry::SysCall { callee_id: child } => Children::One(child),
        MastNodeEntry::Block { .. }
        | MastNodeEntry::Dyn
        | MastNodeEntry::Dyncall
        | MastNodeEntry::External => Children::None,
    }
}

// The entry of a kind with two numbers, of which a kind that has fewer leaves the rest; or INDEX with a kind that there is not. The kind is a
// number, since an entry crosses to and from C as numbers.
#[tactic(auto, unfolding(wire::specs::Table::first_met, crate::specs::Node::make_outcome))]
pub fn make_entry(kind: usize, a: u32, b: u32) -> Result<MastNodeEntry, Refused<usize>>
    ensures { shown_made result ≡ make_outcome kind a b }
{
    Ok(match kind {
        0 => MastNodeEntry::Join {
            left_child_id: a,
            right_child_id: b,
        },
        1 => MastNodeEntry::Split {
            if_branch_id: a,
            else_branch_id: b,
        },
        2 => MastNodeEntry::Loop { body_id: a },
        3 => MastNodeEntry::Block { ops_offset: a },
        4 => MastNodeEntry::Call { callee_id: a },
        5 => MastNodeEntry::SysCall { callee_id: a },
        6 => MastNodeEntry::Dyn,
        7 => MastNodeEntry::Dyncall,
        8 => MastNodeEntry::External,
        _ => {
            return Err(Refused {
                why: Refusal::Index,
                at: kind,
            });
        }
    })
}
