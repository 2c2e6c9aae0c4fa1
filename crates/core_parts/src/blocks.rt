//! Groups of a `let`, made of their members.
ghost use Rattle.std.specs.Prelude.{◌≡◌, map, IfOk, option_map};
ghost use Rattle.core_trees.specs.Reading.{core_of, group_of, groups_before};
ghost use Rattle.core_parts.specs.Members as spec;

use crate::members::Member;
use crate::names::nothing;
use core_trees::{CoreTree, LetFunction, LetGroup};
use elm_base::NoMemory;
use sqlite_items::{Boxed, Items};
use std::alloc::Global;

/// The groups of a block, up to the first that no resolved tree has.
#[derive(Drop)]
pub struct Block {
    pub groups: Items<LetGroup>,
    /// Whether they are all.
    pub whole: bool,
}

/// A definition that no other reaches, and that reaches none but itself.
pub fn group_alone(alloc: Global, member: Member) -> Result<Option<LetGroup>, NoMemory>
    ensures { IfOk result (λ made. option_map group_of made ≡ spec.alone (spec.member_of member)) }
{
    match member {
        Member::Nothing => Ok(None),
        Member::Function(function) => {
            let mut functions = Items::new(alloc);
            functions.push(function)?;
            Ok(Some(LetGroup::Functions { functions }))
        }
        Member::Value { pattern, value } => {
            let pattern = Boxed::new(alloc, pattern)?;
            let value = Boxed::new(alloc, value)?;
            Ok(Some(LetGroup::Value { pattern, value }))
        }
    }
}

/// A block with this body. Behind a group that isn't there stands what no resolved tree has.
pub fn let_tree(alloc: Global, made: Block, body: CoreTree) -> Result<CoreTree, NoMemory>
    ensures { IfOk result (λ tree. core_of tree
        ≡ groups_before (map group_of made.groups) (spec.where_whole made.whole (core_of body))) }
{
    let Block { groups, whole } = made;
    let body = body_where(alloc, whole, body)?;
    let body = Boxed::new(alloc, body)?;
    Ok(CoreTree::Let { groups, body })
}

fn body_where(alloc: Global, whole: bool, body: CoreTree) -> Result<CoreTree, NoMemory>
    ensures { IfOk result (λ tree. core_of tree ≡ spec.where_whole whole (core_of body)) }
{
    if whole { Ok(body) } else { nothing(alloc) }
}
