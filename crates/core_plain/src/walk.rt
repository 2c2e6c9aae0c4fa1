//! The plain form of expressions.
ghost use Rattle.std.specs.Prelude.{◌≡◌, map, IfOk, option_map};
ghost use Rattle.plain_form.specs.PlainForm.{plain as wanted, plain_definition, plain_set, groups_before};
ghost use Rattle.typing_rules.specs.Core.{Core};
ghost use Rattle.core_trees.specs.Reading.{core_of, group_of, function_of, groups_before as groups_as};
ghost use Rattle.core_names.specs.Binding.{names_of};
ghost use Rattle.core_parts.specs.Making as parts;
ghost use Rattle.core_parts.specs.Members as members;
ghost use Rattle.core_plain.specs.Making as spec;

use alias_expansion::Room;
use core_names::Numbered;
use core_parts::{
    Block, Member, group_alone, leaf, let_tree, member_with, negated, nothing, operation,
    plain_pattern, plain_patterns, stands_at, with_fields,
};
use core_trees::{CoreTree, LetFunction, LetGroup, PatternTree, lambdas};
use elm_base::{At, Declaration, Expr, Name, NoMemory, Pattern, Set};
use sqlite_items::{Boxed, Items};
use std::alloc::Global;

/// The plain form of an expression.
#[cycle(plain)]
pub fn plain(
    alloc: Global,
    tree: &Expr,
    of: &Numbered<'_>,
    room: &mut Room,
) -> Result<CoreTree, NoMemory>
    ensures { IfOk result (λ made. core_of made ≡ wanted (names_of of.now) tree.now) }
{
    match tree {
        Expr::Chain { .. } => nothing(alloc),
        Expr::Int { .. } => leaf(alloc, tree, of),
        Expr::Char { .. } => leaf(alloc, tree, of),
        Expr::Text { .. } => leaf(alloc, tree, of),
        Expr::Unit { .. } => leaf(alloc, tree, of),
        Expr::Variable { .. } => leaf(alloc, tree, of),
        Expr::Constructor { .. } => leaf(alloc, tree, of),
        Expr::OperatorName { .. } => leaf(alloc, tree, of),
        Expr::FieldFunction { .. } => leaf(alloc, tree, of),
        Expr::TupleMaker { .. } => leaf(alloc, tree, of),
        Expr::Brackets { inner, .. } => plain(alloc, inner.get(), of, room),
        Expr::Binary { .. } => applied(alloc, tree, of, room),
        Expr::Negate { .. } => applied(alloc, tree, of, room),
        Expr::Call { .. } => applied(alloc, tree, of, room),
        Expr::Access { .. } => applied(alloc, tree, of, room),
        Expr::Tuple { .. } => applied(alloc, tree, of, room),
        Expr::List { .. } => applied(alloc, tree, of, room),
        Expr::Lambda { .. } => applied(alloc, tree, of, room),
        Expr::If { .. } => branching(alloc, tree, of, room),
        Expr::Guards { .. } => branching(alloc, tree, of, room),
        Expr::Case { .. } => branching(alloc, tree, of, room),
        Expr::Range { .. } => branching(alloc, tree, of, room),
        Expr::Let { .. } => branching(alloc, tree, of, room),
        Expr::Fields { .. } => record(alloc, tree, of, room),
        Expr::Extend { .. } => record(alloc, tree, of, room),
        Expr::Update { .. } => record(alloc, tree, of, room),
        Expr::Remove { .. } => record(alloc, tree, of, room),
    }
}

/// Operators, calls, fields, tuples, lists and lambdas. Another form gives what no resolved tree has.
#[cycle(plain)]
fn applied(
    alloc: Global,
    tree: &Expr,
    of: &Numbered<'_>,
    room: &mut Room,
) -> Result<CoreTree, NoMemory>
    ensures { IfOk result (λ made. core_of made ≡ spec.applied_of (names_of of.now) tree.now) }
{
    match tree {
        Expr::Binary {
            operator,
            left,
            right,
            ..
        } => {
            let left = boxed(alloc, left, of, room)?;
            let right = boxed(alloc, right, of, room)?;
            operation(alloc, operator, left, right, of)
        }
        Expr::Negate { inner, .. } => {
            let inner = plain(alloc, inner.get(), of, room)?;
            negated(alloc, inner)
        }
        Expr::Call {
            function,
            arguments,
            ..
        } => {
            let function = boxed(alloc, function, of, room)?;
            let arguments = all(alloc, arguments.as_slice(), of, room)?;
            Ok(CoreTree::Call {
                function,
                arguments,
            })
        }
        Expr::Access { from, label, .. } => {
            let from = boxed(alloc, from, of, room)?;
            let label = label.copy(alloc)?;
            Ok(CoreTree::Field { from, label })
        }
        Expr::Tuple { parts, .. } => {
            let parts = all(alloc, parts.as_slice(), of, room)?;
            Ok(CoreTree::Tuple { parts })
        }
        Expr::List { parts, .. } => {
            let parts = all(alloc, parts.as_slice(), of, room)?;
            Ok(CoreTree::List { parts })
        }
        Expr::Lambda { patterns, body, .. } => {
            let patterns = plain_patterns(alloc, patterns.as_slice(), of)?;
            let body = plain(alloc, body.get(), of, room)?;
            lambdas(alloc, patterns, body)
        }
        _ => nothing(alloc),
    }
}

/// Ranges, forms that choose, and blocks. Another form gives what no resolved tree has.
#[cycle(plain)]
fn branching(
    alloc: Global,
    tree: &Expr,
    of: &Numbered<'_>,
    room: &mut Room,
) -> Result<CoreTree, NoMemory>
    ensures { IfOk result (λ made. core_of made ≡ spec.branching_of (names_of of.now) tree.now) }
{
    match tree {
        Expr::If {
            condition,
            yes,
            no,
            ..
        } => {
            let condition = boxed(alloc, condition, of, room)?;
            let yes = boxed(alloc, yes, of, room)?;
            let no = boxed(alloc, no, of, room)?;
            Ok(CoreTree::If { condition, yes, no })
        }
        Expr::Guards { branches, .. } => {
            let branches = guards(alloc, branches.as_slice(), of, room)?;
            Ok(CoreTree::Guards { branches })
        }
        Expr::Case { scrutinee, .. } => {
            let scrutinee = boxed(alloc, scrutinee, of, room)?;
            let branches = branches(alloc, tree, of, room)?;
            Ok(CoreTree::Case {
                scrutinee,
                branches,
            })
        }
        Expr::Range { low, high, .. } => {
            let low = boxed(alloc, low, of, room)?;
            let high = boxed(alloc, high, of, room)?;
            Ok(CoreTree::Range { low, high })
        }
        Expr::Let {
            at,
            definitions,
            body,
        } => {
            let places = of.groups(alloc, *at)?;
            let made = groups(alloc, definitions.as_slice(), places.as_slice(), of, room)?;
            let body = plain(alloc, body.get(), of, room)?;
            let_tree(alloc, made, body)
        }
        _ => nothing(alloc),
    }
}

/// Records. Another form gives what no resolved tree has.
#[cycle(plain)]
fn record(
    alloc: Global,
    tree: &Expr,
    of: &Numbered<'_>,
    room: &mut Room,
) -> Result<CoreTree, NoMemory>
    ensures { IfOk result (λ made. core_of made ≡ spec.record_of (names_of of.now) tree.now) }
{
    match tree {
        Expr::Fields { fields, .. } => {
            let fields = sets(alloc, fields.as_slice(), of, room)?;
            Ok(CoreTree::Fields { fields })
        }
        Expr::Extend { from, fields, .. } => {
            let from = boxed(alloc, from, of, room)?;
            let fields = sets(alloc, fields.as_slice(), of, room)?;
            Ok(CoreTree::Extend { from, fields })
        }
        Expr::Update { from, fields, .. } => {
            let from = boxed(alloc, from, of, room)?;
            let fields = sets(alloc, fields.as_slice(), of, room)?;
            Ok(CoreTree::Update { from, fields })
        }
        Expr::Remove {
            from,
            label,
            fields,
            ..
        } => {
            let from = boxed(alloc, from, of, room)?;
            let label = label.copy(alloc)?;
            let fields = sets(alloc, fields.as_slice(), of, room)?;
            with_fields(alloc, CoreTree::Remove { from, label }, fields)
        }
        _ => nothing(alloc),
    }
}

#[cycle(plain)]
fn boxed(
    alloc: Global,
    tree: &Boxed<Expr>,
    of: &Numbered<'_>,
    room: &mut Room,
) -> Result<Boxed<CoreTree>, NoMemory>
    ensures { IfOk result (λ made. core_of made ≡ wanted (names_of of.now) tree.now) }
{
    let made = plain(alloc, tree.get(), of, room)?;
    Ok(Boxed::new(alloc, made)?)
}

#[cycle(plain)]
fn all(
    alloc: Global,
    trees: &[Expr],
    of: &Numbered<'_>,
    room: &mut Room,
) -> Result<Items<CoreTree>, NoMemory>
    ensures { IfOk result (λ made. map core_of made ≡ map (wanted (names_of of.now)) trees.now) }
{
    let mut made = Items::new(alloc);
    for tree in trees {
        made.push(plain(alloc, tree, of, room)?)?;
    }
    Ok(made)
}

#[cycle(plain)]
fn sets(
    alloc: Global,
    sets: &[Set],
    of: &Numbered<'_>,
    room: &mut Room,
) -> Result<Items<(Name, CoreTree)>, NoMemory>
    ensures { IfOk result (λ made. map parts.field_of made
        ≡ map (plain_set (names_of of.now)) sets.now) }
{
    let mut made = Items::new(alloc);
    for set in sets {
        let value = plain(alloc, &set.value, of, room)?;
        made.push((set.label.copy(alloc)?, value))?;
    }
    Ok(made)
}

#[cycle(plain)]
fn guards(
    alloc: Global,
    branches: &[(Expr, Expr)],
    of: &Numbered<'_>,
    room: &mut Room,
) -> Result<Items<(CoreTree, CoreTree)>, NoMemory>
    ensures { IfOk result (λ made. map spec.guard_of made
        ≡ map (spec.guard_from (names_of of.now)) branches.now) }
{
    let mut made = Items::new(alloc);
    for (condition, chosen) in branches {
        let condition = plain(alloc, condition, of, room)?;
        made.push((condition, plain(alloc, chosen, of, room)?))?;
    }
    Ok(made)
}

/// The branches of a `case`. Another expression has none.
#[cycle(plain)]
fn branches(
    alloc: Global,
    tree: &Expr,
    of: &Numbered<'_>,
    room: &mut Room,
) -> Result<Items<(PatternTree, CoreTree)>, NoMemory>
    ensures { IfOk result (λ made. map spec.branch_of made
        ≡ spec.branches_in (names_of of.now) tree.now) }
{
    let mut made = Items::new(alloc);
    let Expr::Case { branches, .. } = tree else {
        return Ok(made);
    };
    let branches = branches.as_slice();
    for (pattern, chosen) in branches {
        let pattern = plain_pattern(alloc, pattern, of)?;
        made.push((pattern, plain(alloc, chosen, of, room)?))?;
    }
    Ok(made)
}

/// A definition of a block as a member of its group.
#[cycle(plain)]
fn member(
    alloc: Global,
    definition: &Declaration,
    block: &[Declaration],
    of: &Numbered<'_>,
    room: &mut Room,
) -> Result<Member, NoMemory>
    ensures { IfOk result (λ made. members.member_of made
        ≡ members.member_from (names_of of.now)
        (map (plain_definition (names_of of.now)) block.now)
        (plain_definition (names_of of.now) definition.now)) }
{
    match definition {
        Declaration::Definition { body, .. } => {
            let value = plain(alloc, body, of, room)?;
            member_with(alloc, definition, value, block, of, room)
        }
        Declaration::PatternDefinition { body, .. } => {
            let value = plain(alloc, body, of, room)?;
            member_with(alloc, definition, value, block, of, room)
        }
        _ => Ok(Member::Nothing),
    }
}

/// The definition at a place of the block.
#[cycle(plain)]
fn member_at(
    alloc: Global,
    block: &[Declaration],
    at: At,
    of: &Numbered<'_>,
    room: &mut Room,
) -> Result<Member, NoMemory>
    ensures { IfOk result (λ made. members.member_of made
        ≡ members.member_at (names_of of.now)
        (map (plain_definition (names_of of.now)) block.now) at) }
{
    for definition in block {
        if stands_at(definition, at) {
            return member(alloc, definition, block, of, room);
        }
    }
    Ok(Member::Nothing)
}

/// The functions at these places. None where one of them is no function.
#[cycle(plain)]
fn functions(
    alloc: Global,
    block: &[Declaration],
    places: &[At],
    of: &Numbered<'_>,
    room: &mut Room,
) -> Result<Option<Items<LetFunction>>, NoMemory>
    ensures { IfOk result (λ made. option_map (map function_of) made
        ≡ members.functions_in (map (members.member_at (names_of of.now)
        (map (plain_definition (names_of of.now)) block.now)) places.now)) }
{
    let mut made = Items::new(alloc);
    for at in places {
        match member_at(alloc, block, *at, of, room)? {
            Member::Function(function) => made.push(function)?,
            Member::Value { .. } | Member::Nothing => return Ok(None),
        }
    }
    Ok(Some(made))
}

/// The group of the definitions at these places. None where no resolved tree has such a group.
#[cycle(plain)]
fn group(
    alloc: Global,
    block: &[Declaration],
    places: &[At],
    of: &Numbered<'_>,
    room: &mut Room,
) -> Result<Option<LetGroup>, NoMemory>
    ensures { IfOk result (λ made. option_map group_of made
        ≡ members.group_in (map (members.member_at (names_of of.now)
        (map (plain_definition (names_of of.now)) block.now)) places.now)) }
{
    if let [at] = places {
        let member = member_at(alloc, block, *at, of, room)?;
        return group_alone(alloc, member);
    }
    match functions(alloc, block, places, of, room)? {
        None => Ok(None),
        Some(functions) => Ok(Some(LetGroup::Functions { functions })),
    }
}

/// The groups of a block, in order.
#[cycle(plain)]
fn groups(
    alloc: Global,
    block: &[Declaration],
    places: &[&[At]],
    of: &Numbered<'_>,
    room: &mut Room,
) -> Result<Block, NoMemory>
    ensures { IfOk result (λ made. (rest : Core) →
        groups_as (map group_of made.groups) (members.where_whole made.whole rest)
        ≡ groups_before (names_of of.now) (map (λ group. group.now) places.now)
        (map (plain_definition (names_of of.now)) block.now) rest) }
{
    let mut groups = Items::new(alloc);
    for members in places {
        match group(alloc, block, members, of, room)? {
            None => {
                return Ok(Block {
                    groups,
                    whole: false,
                });
            }
            Some(made) => groups.push(made)?,
        }
    }
    Ok(Block {
        groups,
        whole: true,
    })
}
