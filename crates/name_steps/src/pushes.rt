//! Steps that need no recursion on expressions.
ghost use Rattle.std.specs.Prelude.{◌≡◌, ◌∷◌, [], ◌++◌, OnOk, map};
ghost use Rattle.std.specs.List.{flat_map};
ghost use Rattle.name_steps.specs.PatternNames.{constructors_of, spot_of};
ghost use Rattle.name_steps.specs.Steps as spec;
ghost use Rattle.name_steps.specs.declared.step.Step.TheVariants as step;

use crate::patterns::{push_binds, push_constructors, push_spot};
use crate::step::Step;
use elm_base::{At, Name, NoMemory, Operator, Pattern, Set};
use sqlite_items::Items;
use std::alloc::Global;

pub fn push_use(alloc: Global, at: At, name: &Name, out: &mut Items<Step>) -> Result<(), NoMemory>
    ensures { OnOk result (out.new ≡ out.old ++ spec.used at name.now) }
{
    let mut spots = Items::new(alloc);
    push_spot(alloc, at, name, &mut spots)?;
    out.push(Step::Uses { spots })?;
    Ok(())
}

pub fn push_operators(
    alloc: Global,
    operators: &[Operator],
    out: &mut Items<Step>,
) -> Result<(), NoMemory>
    ensures { OnOk result (out.new ≡ out.old
        ++ step.Uses (map (λ operator. spot_of operator.at operator.name) operators.now) ∷ []) }
{
    let mut spots = Items::new(alloc);
    for operator in operators {
        push_spot(alloc, operator.at, &operator.name, &mut spots)?;
    }
    out.push(Step::Uses { spots })?;
    Ok(())
}

pub fn push_labels(alloc: Global, fields: &[Set], out: &mut Items<Step>) -> Result<(), NoMemory>
    ensures { OnOk result (out.new ≡ out.old
        ++ step.Labels (map (λ field. field.label) (map spec.field_of fields.now)) ∷ []) }
{
    let mut spots = Items::new(alloc);
    for field in fields {
        push_spot(alloc, field.at, &field.label, &mut spots)?;
    }
    out.push(Step::Labels { spots })?;
    Ok(())
}

/// The constructors that the pattern names.
pub fn push_made(alloc: Global, pattern: &Pattern, out: &mut Items<Step>) -> Result<(), NoMemory>
    ensures { OnOk result (out.new ≡ out.old ++ step.Uses (constructors_of pattern.now) ∷ []) }
{
    let mut spots = Items::new(alloc);
    push_constructors(alloc, pattern, &mut spots)?;
    out.push(Step::Uses { spots })?;
    Ok(())
}

pub fn push_pattern(alloc: Global, pattern: &Pattern, out: &mut Items<Step>) -> Result<(), NoMemory>
    ensures { OnOk result (out.new ≡ out.old ++ spec.pattern_steps pattern.now) }
{
    push_made(alloc, pattern, out)?;
    let mut spots = Items::new(alloc);
    push_binds(alloc, pattern, &mut spots)?;
    out.push(Step::Binds { spots })?;
    Ok(())
}

pub fn push_patterns(
    alloc: Global,
    patterns: &[Pattern],
    out: &mut Items<Step>,
) -> Result<(), NoMemory>
    ensures { OnOk result (out.new ≡ out.old ++ spec.patterns_steps patterns.now) }
{
    for pattern in patterns {
        push_pattern(alloc, pattern, out)?;
    }
    Ok(())
}
