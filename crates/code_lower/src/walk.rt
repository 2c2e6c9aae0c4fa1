//! The terms of a plain tree, parts first.
ghost use Rattle.std.specs.Prelude.{◌≡◌, ◌++◌, ◌∷◌, [], IfOk, map};
ghost use Rattle.elm_meaning.specs.Lowered.{places_of_pairs, places_of_branches, places_of_fields, places_of_groups};
ghost use Rattle.code_lower.specs.Laying as spec;
ghost use Rattle.code_lower.specs.Laying.{Lowers, Wraps};

use crate::patterns::lower_pattern;
use crate::terms::{push_lambdas, push_leaf, push_nothing, push_term};
use core_trees::{CoreTree, LetFunction, LetGroup, PatternTree};
use elm_base::{Name, NoMemory, Term, TermPattern};
use sqlite_items::{Boxed, Items};
use std::alloc::Global;

/// Appends the terms of a tree. The place of its own.
#[cycle(lower)]
pub fn push_tree(alloc: Global, tree: &CoreTree, out: &mut Items<Term>) -> Result<u32, NoMemory>
    ensures { IfOk result (λ at. Lowers out.old out.new (at ∷ []) (spec.tree_for tree.now ∷ [])) }
{
    match tree {
        CoreTree::Local { .. } => push_leaf(alloc, tree, out),
        CoreTree::Top { .. } => push_leaf(alloc, tree, out),
        CoreTree::Input { .. } => push_leaf(alloc, tree, out),
        CoreTree::Literal { .. } => push_leaf(alloc, tree, out),
        CoreTree::Native { .. } => push_leaf(alloc, tree, out),
        CoreTree::Constructor { .. } => push_leaf(alloc, tree, out),
        CoreTree::Held { inner, .. } => push_boxed(alloc, inner, out),
        CoreTree::Lambda { .. } => push_applied(alloc, tree, out),
        CoreTree::Call { .. } => push_applied(alloc, tree, out),
        CoreTree::If { .. } => push_applied(alloc, tree, out),
        CoreTree::Range { .. } => push_applied(alloc, tree, out),
        CoreTree::Remove { .. } => push_applied(alloc, tree, out),
        CoreTree::Field { .. } => push_applied(alloc, tree, out),
        CoreTree::Guards { .. } => push_choice(alloc, tree, out),
        CoreTree::Case { .. } => push_choice(alloc, tree, out),
        CoreTree::Let { .. } => push_choice(alloc, tree, out),
        CoreTree::Tuple { .. } => push_built(alloc, tree, out),
        CoreTree::List { .. } => push_built(alloc, tree, out),
        CoreTree::Fields { .. } => push_built(alloc, tree, out),
        CoreTree::Update { .. } => push_built(alloc, tree, out),
        CoreTree::Extend { .. } => push_built(alloc, tree, out),
    }
}

#[cycle(lower)]
fn push_boxed(alloc: Global, tree: &Boxed<CoreTree>, out: &mut Items<Term>) -> Result<u32, NoMemory>
    ensures { IfOk result (λ at. Lowers out.old out.new (at ∷ []) (spec.tree_for tree.now ∷ [])) }
{
    push_tree(alloc, tree.get(), out)
}

/// Lambdas, calls, `if`, ranges, and fields read and taken away. Of another tree the empty tuple.
#[cycle(lower)]
fn push_applied(alloc: Global, tree: &CoreTree, out: &mut Items<Term>) -> Result<u32, NoMemory>
    ensures { IfOk result (λ at. Lowers out.old out.new (at ∷ [])
        (spec.applied_for tree.now ∷ [])) }
{
    match tree {
        CoreTree::Lambda {
            pattern,
            more,
            body,
        } => {
            let body = push_boxed(alloc, body, out)?;
            push_lambdas(alloc, pattern.get(), more.as_slice(), body, out)
        }
        CoreTree::Call {
            function,
            arguments,
        } => {
            let function = push_boxed(alloc, function, out)?;
            push_calls(alloc, arguments.as_slice(), function, out)
        }
        CoreTree::If { condition, yes, no } => {
            let condition = push_boxed(alloc, condition, out)?;
            let yes = push_boxed(alloc, yes, out)?;
            let no = push_boxed(alloc, no, out)?;
            push_term(Term::If { condition, yes, no }, out)
        }
        CoreTree::Range { low, high } => {
            let low = push_boxed(alloc, low, out)?;
            let high = push_boxed(alloc, high, out)?;
            push_term(Term::Range { low, high }, out)
        }
        CoreTree::Remove { from, label } => {
            let from = push_boxed(alloc, from, out)?;
            let label = label.copy(alloc)?;
            push_term(Term::Remove { from, label }, out)
        }
        CoreTree::Field { from, label } => {
            let from = push_boxed(alloc, from, out)?;
            let label = label.copy(alloc)?;
            push_term(Term::Field { from, label }, out)
        }
        _ => push_nothing(alloc, out),
    }
}

/// Calls with these arguments, one after the other, of a function that stands.
#[cycle(lower)]
fn push_calls(
    alloc: Global,
    arguments: &[CoreTree],
    function: u32,
    out: &mut Items<Term>,
) -> Result<u32, NoMemory>
    ensures { IfOk result (λ at. Wraps out.old out.new function at
        (λ tree. spec.calls_for tree arguments.now)) }
{
    let mut at = function;
    for argument in arguments {
        let argument = push_tree(alloc, argument, out)?;
        let function = at;
        at = push_term(Term::Call { function, argument }, out)?;
    }
    Ok(at)
}

/// Tuples, lists and records. Of another tree the empty tuple.
#[cycle(lower)]
fn push_built(alloc: Global, tree: &CoreTree, out: &mut Items<Term>) -> Result<u32, NoMemory>
    ensures { IfOk result (λ at. Lowers out.old out.new (at ∷ [])
        (spec.built_for tree.now ∷ [])) }
{
    match tree {
        CoreTree::Tuple { parts } => {
            let parts = push_all(alloc, parts.as_slice(), out)?;
            push_term(Term::Tuple { parts }, out)
        }
        CoreTree::List { parts } => {
            let parts = push_all(alloc, parts.as_slice(), out)?;
            push_term(Term::List { parts }, out)
        }
        CoreTree::Fields { fields } => {
            let fields = push_fields(alloc, fields.as_slice(), out)?;
            push_term(Term::Fields { fields }, out)
        }
        CoreTree::Update { from, fields } => {
            let from = push_boxed(alloc, from, out)?;
            let fields = push_fields(alloc, fields.as_slice(), out)?;
            push_term(Term::Update { from, fields }, out)
        }
        CoreTree::Extend { from, fields } => {
            let from = push_boxed(alloc, from, out)?;
            let fields = push_fields(alloc, fields.as_slice(), out)?;
            push_term(Term::Extend { from, fields }, out)
        }
        _ => push_nothing(alloc, out),
    }
}

#[cycle(lower)]
fn push_all(
    alloc: Global,
    trees: &[CoreTree],
    out: &mut Items<Term>,
) -> Result<Items<u32>, NoMemory>
    ensures { IfOk result (λ places. Lowers out.old out.new places
        (map spec.tree_for trees.now)) }
{
    let mut places = Items::new(alloc);
    for tree in trees {
        places.push(push_tree(alloc, tree, out)?)?;
    }
    Ok(places)
}

#[cycle(lower)]
fn push_fields(
    alloc: Global,
    fields: &[(Name, CoreTree)],
    out: &mut Items<Term>,
) -> Result<Items<(Name, u32)>, NoMemory>
    ensures placed { IfOk result (λ made. Lowers out.old out.new (places_of_fields made)
        (spec.fields_for fields.now)) }
    ensures labels { IfOk result (λ made. spec.labels_of made ≡ spec.labels_for fields.now) }
{
    let mut made = Items::new(alloc);
    for (label, value) in fields {
        let label = label.copy(alloc)?;
        made.push((label, push_tree(alloc, value, out)?))?;
    }
    Ok(made)
}

/// `if` of several branches, `case` and `let`. Of another tree the empty tuple.
#[cycle(lower)]
fn push_choice(alloc: Global, tree: &CoreTree, out: &mut Items<Term>) -> Result<u32, NoMemory>
    ensures { IfOk result (λ at. Lowers out.old out.new (at ∷ [])
        (spec.choice_for tree.now ∷ [])) }
{
    match tree {
        CoreTree::Guards { branches } => {
            let branches = push_pairs(alloc, branches.as_slice(), out)?;
            push_term(Term::Guards { branches }, out)
        }
        CoreTree::Case { scrutinee, .. } => {
            let scrutinee = push_boxed(alloc, scrutinee, out)?;
            let branches = push_branches(alloc, tree, out)?;
            push_term(
                Term::Case {
                    scrutinee,
                    branches,
                },
                out,
            )
        }
        CoreTree::Let { groups, body } => {
            let groups = push_groups(alloc, groups.as_slice(), out)?;
            let body = push_boxed(alloc, body, out)?;
            push_term(Term::Let { groups, body }, out)
        }
        _ => push_nothing(alloc, out),
    }
}

#[cycle(lower)]
fn push_pairs(
    alloc: Global,
    pairs: &[(CoreTree, CoreTree)],
    out: &mut Items<Term>,
) -> Result<Items<(u32, u32)>, NoMemory>
    ensures { IfOk result (λ made. Lowers out.old out.new (places_of_pairs made)
        (spec.pairs_for pairs.now)) }
{
    let mut made = Items::new(alloc);
    for (condition, chosen) in pairs {
        let condition = push_tree(alloc, condition, out)?;
        made.push((condition, push_tree(alloc, chosen, out)?))?;
    }
    Ok(made)
}

/// The branches of a `case`. Another tree has none.
#[cycle(lower)]
fn push_branches(
    alloc: Global,
    tree: &CoreTree,
    out: &mut Items<Term>,
) -> Result<Items<(TermPattern, u32)>, NoMemory>
    ensures placed { IfOk result (λ made. Lowers out.old out.new (places_of_branches made)
        (spec.branch_trees (spec.cases_in tree.now))) }
    ensures patterns { IfOk result (λ made. spec.patterns_of made
        ≡ spec.branch_patterns (spec.cases_in tree.now)) }
{
    let mut made = Items::new(alloc);
    let CoreTree::Case { branches, .. } = tree else {
        return Ok(made);
    };
    let branches = branches.as_slice();
    for (pattern, chosen) in branches {
        let pattern = lower_pattern(alloc, pattern)?;
        made.push((pattern, push_tree(alloc, chosen, out)?))?;
    }
    Ok(made)
}

/// The name of a function of a group with its lambda.
#[cycle(lower)]
fn push_function(
    alloc: Global,
    function: &LetFunction,
    out: &mut Items<Term>,
) -> Result<u32, NoMemory>
    ensures { IfOk result (λ at. Lowers out.old out.new (at ∷ [])
        (spec.function_tree function.now ∷ [])) }
{
    let body = push_boxed(alloc, &function.body, out)?;
    push_lambdas(
        alloc,
        function.pattern.get(),
        function.more.as_slice(),
        body,
        out,
    )
}

#[cycle(lower)]
fn push_functions(
    alloc: Global,
    functions: &[LetFunction],
    out: &mut Items<Term>,
) -> Result<Items<(TermPattern, u32)>, NoMemory>
    ensures placed { IfOk result (λ made. Lowers out.old out.new (places_of_branches made)
        (map spec.function_tree functions.now)) }
    ensures patterns { IfOk result (λ made. spec.patterns_of made
        ≡ map spec.function_name functions.now) }
{
    let mut made = Items::new(alloc);
    for function in functions {
        let at = push_function(alloc, function, out)?;
        let number = function.number;
        made.push((TermPattern::Local { number }, at))?;
    }
    Ok(made)
}

/// The members of a group: a pattern with its value, or the names of functions with their lambdas.
#[cycle(lower)]
fn push_group(
    alloc: Global,
    group: &LetGroup,
    out: &mut Items<Term>,
) -> Result<Items<(TermPattern, u32)>, NoMemory>
    ensures placed { IfOk result (λ made. Lowers out.old out.new (places_of_branches made)
        (spec.trees_in (spec.group_members group.now))) }
    ensures patterns { IfOk result (λ made. spec.patterns_of made
        ≡ spec.patterns_in (spec.group_members group.now)) }
{
    match group {
        LetGroup::Value { pattern, value } => {
            let pattern = lower_pattern(alloc, pattern.get())?;
            let at = push_boxed(alloc, value, out)?;
            let mut made = Items::new(alloc);
            made.push((pattern, at))?;
            Ok(made)
        }
        LetGroup::Functions { functions } => push_functions(alloc, functions.as_slice(), out),
    }
}

#[cycle(lower)]
fn push_groups(
    alloc: Global,
    groups: &[LetGroup],
    out: &mut Items<Term>,
) -> Result<Items<Items<(TermPattern, u32)>>, NoMemory>
    ensures placed { IfOk result (λ made. Lowers out.old out.new (places_of_groups made)
        (spec.all_trees_in (map spec.group_members groups.now))) }
    ensures patterns { IfOk result (λ made. map spec.patterns_of made
        ≡ map (λ group. spec.patterns_in (spec.group_members group)) groups.now) }
{
    let mut made = Items::new(alloc);
    for group in groups {
        made.push(push_group(alloc, group, out)?)?;
    }
    Ok(made)
}
