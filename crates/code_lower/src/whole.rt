//! The code of a program's definitions.
ghost use Rattle.std.specs.Prelude.{◌≡◌, ◌++◌, ◌∷◌, [], OnOk, IfOk, map};
ghost use Rattle.elm_meaning.specs.Lowered.{top_places};
ghost use Rattle.code_lower.specs.Laying.{Lowers};
ghost use Rattle.code_lower.specs.Whole as spec;
ghost use Rattle.code_lower.specs.Whole.{IsCodeOf};

use crate::walk::push_tree;
use core_definitions::CoreDefinition;
use elm_base::{Code, NoMemory, Term, TopValue};
use sqlite_items::Items;
use std::alloc::Global;

/// Appends the terms of a definition. Its top value.
fn push_definition(
    alloc: Global,
    definition: &CoreDefinition,
    terms: &mut Items<Term>,
) -> Result<TopValue, NoMemory>
    ensures placed { IfOk result (λ top. Lowers terms.old terms.new (top.term ∷ [])
        (spec.tree_of_definition definition.now ∷ [])) }
    ensures named { IfOk result (λ top. spec.name_of_top top
        ≡ spec.name_of_definition definition.now) }
{
    let module = definition.module.copy(alloc)?;
    let name = definition.name.copy(alloc)?;
    let term = push_tree(alloc, &definition.right.body, terms)?;
    Ok(TopValue { module, name, term })
}

/// Appends the terms of a group's definitions, and their top values.
fn push_group(alloc: Global, group: &[CoreDefinition], code: &mut Code) -> Result<(), NoMemory>
    ensures { OnOk result (spec.Grows group.now code.old code.new) }
{
    for definition in group {
        let top = push_definition(alloc, definition, &mut code.terms)?;
        code.tops.push(top)?;
    }
    Ok(())
}

/// The code of a program: the plain terms of its definitions without what only typing asks for, with top values in the order of
/// the groups. Parts stand before the term that names them, and each place is named once.
pub fn lower(alloc: Global, groups: &[Items<CoreDefinition>]) -> Result<Code, NoMemory>
    ensures { IfOk result (IsCodeOf groups.now) }
{
    let mut code = Code {
        tops: Items::new(alloc),
        terms: Items::new(alloc),
    };
    for group in groups {
        push_group(alloc, group.as_slice(), &mut code)?;
    }
    Ok(code)
}
