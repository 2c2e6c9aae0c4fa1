//! Levels applied to the chains of a tree, in place. The recursion goes as deep as the tree.
ghost use Rattle.std.specs.Prelude.{◌≡◌, ◌||◌, map, IfOk};
ghost use Rattle.level_fixer.specs.Clashes.{any, declaration_clashes, expr_clashes, set_clashes};
ghost use Rattle.level_fixer.specs.FixedTrees.{fixed_declaration, fixed_expr, fixed_set};
ghost use Rattle.level_fixer.specs.Fixing.{Builds, BuildsAt, Fixes};
ghost use Rattle.elm_base.specs.declared.tree.Expr.TheVariants as e;

use crate::turns::{both, boxed, kept, turned};
use elm_base::{At, Declaration, Expr, Halt, NoMemory, Operator, Pattern, Set};
use operator_trees::{Clash, Levels, chain};
use sqlite_items::{Boxed, Items};
use std::alloc::Global;
use std::mem;

#[cycle(fixing)]
fn fix_inner(
    alloc: Global,
    levels: &Levels,
    depth: usize,
    tree: &mut Boxed<Expr>,
) -> Result<(), Halt<Clash>>
    ensures { Fixes (expr_clashes levels.now.declared) (fixed_expr levels.now.declared)
        tree.old tree.new result }
{
    let Some(less) = depth.checked_sub(1) else {
        return Err(Halt::NoMemory);
    };
    let at = At { line: 0, column: 0 };
    let nothing = Boxed::new(alloc, Expr::Unit { at })?;
    let mut inner = mem::replace(tree, nothing).into_inner();
    let outcome = fix_expr(alloc, levels, less, &mut inner);
    *tree = Boxed::new(alloc, inner)?;
    outcome
}

#[cycle(fixing)]
fn fix_set(alloc: Global, levels: &Levels, depth: usize, set: &mut Set) -> Result<(), Halt<Clash>>
    ensures { Fixes (set_clashes levels.now.declared) (fixed_set levels.now.declared)
        set.old set.new result }
{
    let Some(less) = depth.checked_sub(1) else {
        return Err(Halt::NoMemory);
    };
    fix_expr(alloc, levels, less, &mut set.value)?;
    Ok(())
}

/// The condition and the result of a branch.
#[cycle(fixing)]
fn fix_guard(
    alloc: Global,
    levels: &Levels,
    depth: usize,
    branch: &mut (Expr, Expr),
) -> Result<(), Halt<Clash>>
    ensures { Fixes (λ branch. expr_clashes levels.now.declared branch.0
        || expr_clashes levels.now.declared branch.1)
        (λ branch. (
          fixed_expr levels.now.declared branch.0,
          fixed_expr levels.now.declared branch.1,
        ))
        branch.old branch.new result }
{
    let Some(less) = depth.checked_sub(1) else {
        return Err(Halt::NoMemory);
    };
    fix_expr(alloc, levels, less, &mut branch.0)?;
    fix_expr(alloc, levels, less, &mut branch.1)?;
    Ok(())
}

/// The result of a branch.
#[cycle(fixing)]
fn fix_branch(
    alloc: Global,
    levels: &Levels,
    depth: usize,
    branch: &mut (Pattern, Expr),
) -> Result<(), Halt<Clash>>
    ensures { Fixes (λ branch. expr_clashes levels.now.declared branch.1)
        (λ branch. (branch.0, fixed_expr levels.now.declared branch.1))
        branch.old branch.new result }
{
    let Some(less) = depth.checked_sub(1) else {
        return Err(Halt::NoMemory);
    };
    fix_expr(alloc, levels, less, &mut branch.1)?;
    Ok(())
}

#[cycle(fixing)]
fn fix_all(
    alloc: Global,
    levels: &Levels,
    depth: usize,
    trees: &mut Items<Expr>,
) -> Result<(), Halt<Clash>>
    ensures { Fixes (λ trees. any (map (expr_clashes levels.now.declared) trees))
        (map (fixed_expr levels.now.declared)) trees.old trees.new result }
{
    let Some(less) = depth.checked_sub(1) else {
        return Err(Halt::NoMemory);
    };
    let mut waiting = turned(alloc, trees)?;
    'turns: while let Some(mut tree) = waiting.pop() {
        let outcome = fix_expr(alloc, levels, less, &mut tree);
        kept(trees, tree, outcome)?;
    }
    Ok(())
}

#[cycle(fixing)]
fn fix_sets(
    alloc: Global,
    levels: &Levels,
    depth: usize,
    sets: &mut Items<Set>,
) -> Result<(), Halt<Clash>>
    ensures { Fixes (λ sets. any (map (set_clashes levels.now.declared) sets))
        (map (fixed_set levels.now.declared)) sets.old sets.new result }
{
    let Some(less) = depth.checked_sub(1) else {
        return Err(Halt::NoMemory);
    };
    let mut waiting = turned(alloc, sets)?;
    'turns: while let Some(mut set) = waiting.pop() {
        let outcome = fix_set(alloc, levels, less, &mut set);
        kept(sets, set, outcome)?;
    }
    Ok(())
}

#[cycle(fixing)]
fn fix_guards(
    alloc: Global,
    levels: &Levels,
    depth: usize,
    branches: &mut Items<(Expr, Expr)>,
) -> Result<(), Halt<Clash>>
    ensures { Fixes (λ branches. any (map (λ branch. expr_clashes levels.now.declared branch.0 || expr_clashes levels.now.declared branch.1) branches))
        (map (λ branch. (fixed_expr levels.now.declared branch.0, fixed_expr levels.now.declared branch.1))) branches.old branches.new result }
{
    let Some(less) = depth.checked_sub(1) else {
        return Err(Halt::NoMemory);
    };
    let mut waiting = turned(alloc, branches)?;
    'turns: while let Some(mut branch) = waiting.pop() {
        let outcome = fix_guard(alloc, levels, less, &mut branch);
        kept(branches, branch, outcome)?;
    }
    Ok(())
}

#[cycle(fixing)]
fn fix_branches(
    alloc: Global,
    levels: &Levels,
    depth: usize,
    branches: &mut Items<(Pattern, Expr)>,
) -> Result<(), Halt<Clash>>
    ensures { Fixes (λ branches. any (map (λ branch. expr_clashes levels.now.declared branch.1) branches))
        (map (λ branch. (branch.0, fixed_expr levels.now.declared branch.1))) branches.old branches.new result }
{
    let Some(less) = depth.checked_sub(1) else {
        return Err(Halt::NoMemory);
    };
    let mut waiting = turned(alloc, branches)?;
    'turns: while let Some(mut branch) = waiting.pop() {
        let outcome = fix_branch(alloc, levels, less, &mut branch);
        kept(branches, branch, outcome)?;
    }
    Ok(())
}

#[cycle(fixing)]
fn fix_definitions(
    alloc: Global,
    levels: &Levels,
    depth: usize,
    definitions: &mut Items<Declaration>,
) -> Result<(), Halt<Clash>>
    ensures { Fixes (λ definitions. any (map (declaration_clashes levels.now.declared) definitions))
        (map (fixed_declaration levels.now.declared)) definitions.old definitions.new result }
{
    let Some(less) = depth.checked_sub(1) else {
        return Err(Halt::NoMemory);
    };
    let mut waiting = turned(alloc, definitions)?;
    'turns: while let Some(mut definition) = waiting.pop() {
        let outcome = fix_declaration(alloc, levels, less, &mut definition);
        kept(definitions, definition, outcome)?;
    }
    Ok(())
}

/// The tree of a chain whose operands are fixed first.
#[cycle(fixing)]
fn fix_chain(
    alloc: Global,
    levels: &Levels,
    depth: usize,
    operators: &Items<Operator>,
    operands: &mut Items<Expr>,
) -> Result<Boxed<Expr>, Halt<Clash>>
    ensures { Builds levels.now.declared operands.old operators.now result }
{
    let Some(less) = depth.checked_sub(1) else {
        return Err(Halt::NoMemory);
    };
    fix_all(alloc, levels, less, operands)?;
    let parts = mem::replace(operands, Items::new(alloc));
    let made = chain(alloc, levels, operators.as_slice(), parts);
    boxed(alloc, made)
}

/// The tree of the chain at the place.
#[cycle(fixing)]
fn fix_chain_at(
    alloc: Global,
    levels: &Levels,
    depth: usize,
    at: At,
    operators: &Items<Operator>,
    operands: &mut Items<Expr>,
) -> Result<Boxed<Expr>, Halt<Clash>>
    ensures { BuildsAt levels.now.declared at operands.old operators.now result }
{
    let Some(less) = depth.checked_sub(1) else {
        return Err(Halt::NoMemory);
    };
    fix_chain(alloc, levels, less, operators, operands)
}

/// The branches of the multi-way `if` at the place.
#[cycle(fixing)]
fn fix_guards_at(
    alloc: Global,
    levels: &Levels,
    depth: usize,
    at: At,
    branches: &mut Items<(Expr, Expr)>,
) -> Result<(), Halt<Clash>>
    ensures { Fixes (expr_clashes levels.now.declared) (fixed_expr levels.now.declared)
        (e.Guards at branches.old) (e.Guards at branches.new) result }
{
    let Some(less) = depth.checked_sub(1) else {
        return Err(Halt::NoMemory);
    };
    fix_guards(alloc, levels, less, branches)
}

/// The parts of the `case` at the place.
#[cycle(fixing)]
fn fix_case_at(
    alloc: Global,
    levels: &Levels,
    depth: usize,
    at: At,
    scrutinee: &mut Boxed<Expr>,
    branches: &mut Items<(Pattern, Expr)>,
) -> Result<(), Halt<Clash>>
    ensures { Fixes (expr_clashes levels.now.declared) (fixed_expr levels.now.declared)
        (e.Case at scrutinee.old branches.old) (e.Case at scrutinee.new branches.new) result }
{
    let Some(less) = depth.checked_sub(1) else {
        return Err(Halt::NoMemory);
    };
    let first = fix_inner(alloc, levels, less, scrutinee);
    let second = fix_branches(alloc, levels, less, branches);
    both(first, second)
}

/// Levels applied to an expression.
#[cycle(fixing)]
pub fn fix_expr(
    alloc: Global,
    levels: &Levels,
    depth: usize,
    tree: &mut Expr,
) -> Result<(), Halt<Clash>>
    ensures { Fixes (expr_clashes levels.now.declared) (fixed_expr levels.now.declared)
        tree.old tree.new result }
{
    let Some(less) = depth.checked_sub(1) else {
        return Err(Halt::NoMemory);
    };
    match tree {
        Expr::Chain {
            at,
            operands,
            operators,
        } => {
            let made = fix_chain_at(alloc, levels, less, *at, operators, operands)?;
            *tree = made.into_inner();
            Ok(())
        }
        Expr::Negate { inner, .. } => {
            fix_inner(alloc, levels, less, inner)?;
            Ok(())
        }
        Expr::Brackets { inner, .. } => {
            fix_inner(alloc, levels, less, inner)?;
            Ok(())
        }
        Expr::Access { from, .. } => {
            fix_inner(alloc, levels, less, from)?;
            Ok(())
        }
        Expr::Lambda { body, .. } => {
            fix_inner(alloc, levels, less, body)?;
            Ok(())
        }
        Expr::Binary { left, right, .. } => {
            fix_inner(alloc, levels, less, left)?;
            fix_inner(alloc, levels, less, right)?;
            Ok(())
        }
        Expr::Range { low, high, .. } => {
            fix_inner(alloc, levels, less, low)?;
            fix_inner(alloc, levels, less, high)?;
            Ok(())
        }
        Expr::If {
            condition,
            yes,
            no,
            ..
        } => {
            fix_inner(alloc, levels, less, condition)?;
            fix_inner(alloc, levels, less, yes)?;
            fix_inner(alloc, levels, less, no)?;
            Ok(())
        }
        Expr::Call {
            function,
            arguments,
            ..
        } => {
            fix_inner(alloc, levels, less, function)?;
            fix_all(alloc, levels, less, arguments)?;
            Ok(())
        }
        Expr::Tuple { parts, .. } => {
            fix_all(alloc, levels, less, parts)?;
            Ok(())
        }
        Expr::List { parts, .. } => {
            fix_all(alloc, levels, less, parts)?;
            Ok(())
        }
        Expr::Fields { fields, .. } => {
            fix_sets(alloc, levels, less, fields)?;
            Ok(())
        }
        Expr::Extend { from, fields, .. } => {
            fix_inner(alloc, levels, less, from)?;
            fix_sets(alloc, levels, less, fields)?;
            Ok(())
        }
        Expr::Update { from, fields, .. } => {
            fix_inner(alloc, levels, less, from)?;
            fix_sets(alloc, levels, less, fields)?;
            Ok(())
        }
        Expr::Remove { from, fields, .. } => {
            fix_inner(alloc, levels, less, from)?;
            fix_sets(alloc, levels, less, fields)?;
            Ok(())
        }
        Expr::Guards { at, branches } => {
            fix_guards_at(alloc, levels, less, *at, branches)?;
            Ok(())
        }
        Expr::Let {
            definitions,
            body,
            ..
        } => {
            fix_definitions(alloc, levels, less, definitions)?;
            fix_inner(alloc, levels, less, body)?;
            Ok(())
        }
        Expr::Case {
            at,
            scrutinee,
            branches,
        } => {
            fix_case_at(alloc, levels, less, *at, scrutinee, branches)?;
            Ok(())
        }
        _ => Ok(()),
    }
}

/// Levels applied to the body of a declaration, if it has one.
#[cycle(fixing)]
fn fix_declaration(
    alloc: Global,
    levels: &Levels,
    depth: usize,
    tree: &mut Declaration,
) -> Result<(), Halt<Clash>>
    ensures { Fixes (declaration_clashes levels.now.declared)
        (fixed_declaration levels.now.declared) tree.old tree.new result }
{
    let Some(less) = depth.checked_sub(1) else {
        return Err(Halt::NoMemory);
    };
    match tree {
        Declaration::Definition { body, .. } => {
            fix_expr(alloc, levels, less, body)?;
            Ok(())
        }
        Declaration::PatternDefinition { body, .. } => {
            fix_expr(alloc, levels, less, body)?;
            Ok(())
        }
        Declaration::PortDefinition { body, .. } => {
            fix_expr(alloc, levels, less, body)?;
            Ok(())
        }
        _ => Ok(()),
    }
}
