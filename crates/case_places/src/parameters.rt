//! Places with one pattern, and those of a `case`.
ghost use Rattle.std.specs.Prelude.{◌≡◌, ◌∷◌, [], ◌++◌, OnOk, map};
ghost use Rattle.case_places.specs.Places as spec;

use crate::place::Place;
use elm_base::{At, Expr, NoMemory, Pattern};
use sqlite_items::Items;
use std::alloc::Global;

/// The place of a pattern's first token.
fn place_of(pattern: &Pattern) -> At
    ensures { result ≡ spec.at_of pattern.now }
{
    match pattern {
        Pattern::Anything { at }
        | Pattern::Variable { at, .. }
        | Pattern::Int { at, .. }
        | Pattern::Char { at, .. }
        | Pattern::Text { at, .. }
        | Pattern::Unit { at }
        | Pattern::Made { at, .. }
        | Pattern::Cons { at, .. }
        | Pattern::List { at, .. }
        | Pattern::Tuple { at, .. }
        | Pattern::Fields { at, .. }
        | Pattern::Brackets { at, .. }
        | Pattern::Named { at, .. } => *at,
    }
}

/// Appends a place with this one pattern.
pub(crate) fn push_parameter(
    alloc: Global,
    pattern: &Pattern,
    out: &mut Items<Place>,
) -> Result<(), NoMemory>
    ensures { OnOk result (out.new ≡ out.old ++ spec.parameter pattern.now ∷ []) }
{
    let mut patterns = Items::new(alloc);
    patterns.push(pattern.copy(alloc)?)?;
    let at = place_of(pattern);
    out.push(Place { at, patterns })?;
    Ok(())
}

pub(crate) fn push_parameters(
    alloc: Global,
    patterns: &[Pattern],
    out: &mut Items<Place>,
) -> Result<(), NoMemory>
    ensures { OnOk result (out.new ≡ out.old ++ map spec.parameter patterns.now) }
{
    for pattern in patterns {
        push_parameter(alloc, pattern, out)?;
    }
    Ok(())
}

fn push_patterns(
    alloc: Global,
    branches: &[(Pattern, Expr)],
    out: &mut Items<Pattern>,
) -> Result<(), NoMemory>
    ensures { OnOk result (out.new ≡ out.old ++ spec.patterns_of branches.now) }
{
    for branch in branches {
        out.push(branch.0.copy(alloc)?)?;
    }
    Ok(())
}

/// Appends the place of a `case` with these branches.
pub(crate) fn push_case(
    alloc: Global,
    at: At,
    branches: &[(Pattern, Expr)],
    out: &mut Items<Place>,
) -> Result<(), NoMemory>
    ensures { OnOk result (out.new ≡ out.old ++ spec.place at (spec.patterns_of branches.now) ∷ []) }
{
    let mut patterns = Items::new(alloc);
    push_patterns(alloc, branches, &mut patterns)?;
    out.push(Place { at, patterns })?;
    Ok(())
}
