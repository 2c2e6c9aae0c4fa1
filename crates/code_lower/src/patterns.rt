//! Patterns.
ghost use Rattle.std.specs.Prelude.{◌≡◌, IfOk, map, drop};
ghost use Rattle.elm_meaning.specs.Patterns.{pattern_of, Cons};
ghost use Rattle.code_lower.specs.Laying as spec;
ghost use Rattle.code_lower.specs.Laying.{pattern_for};

use core_trees::PatternTree;
use elm_base::{Literal, Name, NoMemory, TermPattern};
use sqlite_items::{Boxed, Items};
use std::alloc::Global;

/// An equal literal of its own.
pub fn copy_literal(alloc: Global, value: &Literal) -> Result<Literal, NoMemory>
    ensures { IfOk result (λ copied. copied ≡ value.now) }
{
    match value {
        Literal::Int(number) => Ok(Literal::Int(*number)),
        Literal::Char(code) => Ok(Literal::Char(*code)),
        Literal::Text(text) => Ok(Literal::Text(text.copy(alloc)?)),
        Literal::Unit => Ok(Literal::Unit),
    }
}

fn copy_labels(alloc: Global, labels: &[(Name, u32)]) -> Result<Items<(Name, u32)>, NoMemory>
    ensures { IfOk result (λ copied. copied ≡ labels.now) }
{
    let mut copied = Items::new(alloc);
    for (label, number) in labels {
        copied.push((label.copy(alloc)?, *number))?;
    }
    Ok(copied)
}

/// The pattern without the unions of its constructors. A list is elements in front of the empty list.
#[cycle(patterns)]
pub fn lower_pattern(alloc: Global, pattern: &PatternTree) -> Result<TermPattern, NoMemory>
    ensures { IfOk result (λ made. pattern_of made ≡ pattern_for pattern.now) }
{
    match pattern {
        PatternTree::Anything => Ok(TermPattern::Anything),
        PatternTree::Local { number } => Ok(TermPattern::Local { number: *number }),
        PatternTree::Literal { value } => {
            let value = copy_literal(alloc, value)?;
            Ok(TermPattern::Literal { value })
        }
        PatternTree::Made {
            constructor,
            parts,
            ..
        } => {
            let constructor = constructor.copy(alloc)?;
            let parts = lower_patterns(alloc, parts.as_slice())?;
            Ok(TermPattern::Made { constructor, parts })
        }
        PatternTree::Cons { head, tail } => {
            let head = boxed(alloc, head)?;
            let tail = boxed(alloc, tail)?;
            Ok(TermPattern::Cons { head, tail })
        }
        PatternTree::List { parts } => listed(alloc, parts.as_slice()),
        PatternTree::Tuple { parts } => {
            let parts = lower_patterns(alloc, parts.as_slice())?;
            Ok(TermPattern::Tuple { parts })
        }
        PatternTree::Fields { labels } => {
            let labels = copy_labels(alloc, labels.as_slice())?;
            Ok(TermPattern::Fields { labels })
        }
        PatternTree::Named { inner, number } => {
            let inner = boxed(alloc, inner)?;
            Ok(TermPattern::Named {
                inner,
                number: *number,
            })
        }
    }
}

#[cycle(patterns)]
fn boxed(alloc: Global, pattern: &Boxed<PatternTree>) -> Result<Boxed<TermPattern>, NoMemory>
    ensures { IfOk result (λ made. pattern_of made ≡ pattern_for pattern.now) }
{
    let made = lower_pattern(alloc, pattern.get())?;
    Ok(Boxed::new(alloc, made)?)
}

#[cycle(patterns)]
fn lower_patterns(alloc: Global, patterns: &[PatternTree]) -> Result<Items<TermPattern>, NoMemory>
    ensures { IfOk result (λ made. map pattern_of made ≡ map pattern_for patterns.now) }
{
    let mut made = Items::new(alloc);
    for pattern in patterns {
        made.push(lower_pattern(alloc, pattern)?)?;
    }
    Ok(made)
}

/// So many elements in front of the empty list.
#[cycle(patterns)]
fn listed(alloc: Global, parts: &[PatternTree]) -> Result<TermPattern, NoMemory>
    ensures { IfOk result (λ made. pattern_of made ≡ spec.listed_for parts.now) }
{
    let mut made = TermPattern::Nil;
    let mut count = parts.len();
    while count > 0 {
        count -= 1;
        let head = lower_pattern(alloc, &parts[count])?;
        made = cons(alloc, head, made)?;
    }
    Ok(made)
}

fn cons(alloc: Global, head: TermPattern, tail: TermPattern) -> Result<TermPattern, NoMemory>
    ensures { IfOk result (λ made. pattern_of made ≡ Cons (pattern_of head) (pattern_of tail)) }
{
    let head = Boxed::new(alloc, head)?;
    let tail = Boxed::new(alloc, tail)?;
    Ok(TermPattern::Cons { head, tail })
}
