//! The plain form of patterns.
ghost use Rattle.std.specs.Prelude.{◌≡◌, map, IfOk};
ghost use Rattle.plain_form.specs.PlainForm.{plain_pattern as wanted, label_of, made_of as made_as};
ghost use Rattle.core_trees.specs.PatternReading.{pattern_of};
ghost use Rattle.core_names.specs.Binding.{names_of};

use core_names::Numbered;
use core_trees::PatternTree;
use elm_base::{At, Literal, Name, NoMemory, Pattern, Spot, Thing};
use sqlite_items::{Boxed, Items};
use std::alloc::Global;

fn labels_of(
    alloc: Global,
    labels: &[Spot],
    of: &Numbered<'_>,
) -> Result<Items<(Name, u32)>, NoMemory>
    ensures { IfOk result (λ found. found ≡ map (label_of (names_of of.now)) labels.now) }
{
    let mut found = Items::new(alloc);
    for label in labels {
        let name = label.name.copy(alloc)?;
        found.push((name, of.number(label.at)?))?;
    }
    Ok(found)
}

/// A constructor with these parts, by what stands at its place.
fn made_of(
    alloc: Global,
    at: At,
    parts: Items<PatternTree>,
    of: &Numbered<'_>,
) -> Result<PatternTree, NoMemory>
    ensures { IfOk result (λ made. pattern_of made
        ≡ made_as (names_of of.now) ((names_of of.now).thing at) (map pattern_of parts)) }
{
    match of.thing(at) {
        Some(Thing::Constructor { module, name }) => {
            let (of_union, _) = of.constructor(alloc, module.bytes(), name.bytes())?;
            let constructor = name.copy(alloc)?;
            Ok(PatternTree::Made {
                of_union,
                constructor,
                parts,
            })
        }
        _ => {
            let of_union = Name::of(alloc, b"")?;
            let constructor = Name::of(alloc, b"")?;
            Ok(PatternTree::Made {
                of_union,
                constructor,
                parts,
            })
        }
    }
}

/// The plain form of a pattern.
#[cycle(patterns)]
pub fn plain_pattern(
    alloc: Global,
    pattern: &Pattern,
    of: &Numbered<'_>,
) -> Result<PatternTree, NoMemory>
    ensures { IfOk result (λ made. pattern_of made ≡ wanted (names_of of.now) pattern.now) }
{
    match pattern {
        Pattern::Anything { .. } => Ok(PatternTree::Anything),
        Pattern::Variable { at, .. } => {
            let number = of.number(*at)?;
            Ok(PatternTree::Local { number })
        }
        Pattern::Int { value, .. } => Ok(PatternTree::Literal {
            value: Literal::Int(*value),
        }),
        Pattern::Char { value, .. } => Ok(PatternTree::Literal {
            value: Literal::Char(*value),
        }),
        Pattern::Text { value, .. } => {
            let value = value.copy(alloc)?;
            Ok(PatternTree::Literal {
                value: Literal::Text(value),
            })
        }
        Pattern::Unit { .. } => Ok(PatternTree::Literal {
            value: Literal::Unit,
        }),
        Pattern::Made { at, parts, .. } => {
            let parts = plain_patterns(alloc, parts.as_slice(), of)?;
            made_of(alloc, *at, parts, of)
        }
        Pattern::Cons { head, tail, .. } => {
            let head = boxed(alloc, head, of)?;
            let tail = boxed(alloc, tail, of)?;
            Ok(PatternTree::Cons { head, tail })
        }
        Pattern::List { parts, .. } => {
            let parts = plain_patterns(alloc, parts.as_slice(), of)?;
            Ok(PatternTree::List { parts })
        }
        Pattern::Tuple { parts, .. } => {
            let parts = plain_patterns(alloc, parts.as_slice(), of)?;
            Ok(PatternTree::Tuple { parts })
        }
        Pattern::Fields { labels, .. } => {
            let labels = labels_of(alloc, labels.as_slice(), of)?;
            Ok(PatternTree::Fields { labels })
        }
        Pattern::Brackets { inner, .. } => plain_pattern(alloc, inner.get(), of),
        Pattern::Named { inner, name, .. } => {
            let inner = boxed(alloc, inner, of)?;
            let number = of.number(name.at)?;
            Ok(PatternTree::Named { inner, number })
        }
    }
}

#[cycle(patterns)]
fn boxed(
    alloc: Global,
    pattern: &Boxed<Pattern>,
    of: &Numbered<'_>,
) -> Result<Boxed<PatternTree>, NoMemory>
    ensures { IfOk result (λ made. pattern_of made ≡ wanted (names_of of.now) pattern.now) }
{
    let made = plain_pattern(alloc, pattern.get(), of)?;
    Ok(Boxed::new(alloc, made)?)
}

/// The plain forms of patterns, in their order.
#[cycle(patterns)]
pub fn plain_patterns(
    alloc: Global,
    patterns: &[Pattern],
    of: &Numbered<'_>,
) -> Result<Items<PatternTree>, NoMemory>
    ensures { IfOk result (λ made. map pattern_of made
        ≡ map (wanted (names_of of.now)) patterns.now) }
{
    let mut made = Items::new(alloc);
    for pattern in patterns {
        made.push(plain_pattern(alloc, pattern, of)?)?;
    }
    Ok(made)
}
