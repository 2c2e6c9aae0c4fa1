//! How deep trees nest, against a limit. The limit bounds the recursion.
ghost use Rattle.std.specs.Prelude.{◌≡◌, ◌<◌, ◌≤◌, ◌↔◌, IsTrue, map};
ghost use Rattle.tree_nesting.specs.Nesting.{around, pattern_nesting, type_nesting};

use elm_base::{Pattern, Spot, TypeTree};

/// Trees nest at most so deep.
pub const MOST_NESTING: u32 = 100;

/// Whether the type nests at most so deep.
#[cycle(types)]
pub fn type_nests_within(tree: &TypeTree, limit: u32) -> bool
    ensures { IsTrue result ↔ (type_nesting tree.now ≤ limit) }
{
    match tree {
        TypeTree::Variable { .. } => true,
        TypeTree::Unit { .. } => true,
        TypeTree::Named { arguments, .. } => types_nest_below(arguments.as_slice(), limit),
        TypeTree::Tuple { parts, .. } => types_nest_below(parts.as_slice(), limit),
        TypeTree::Brackets { inner, .. } => type_nests_below(inner.get(), limit),
        TypeTree::Arrow { from, to, .. } => {
            type_nests_below(from.get(), limit) && type_nests_below(to.get(), limit)
        }
        TypeTree::Fields { fields, .. } => fields_nest_below(fields.as_slice(), limit),
    }
}

/// Whether the type nests less deep.
#[cycle(types)]
fn type_nests_below(tree: &TypeTree, limit: u32) -> bool
    ensures { IsTrue result ↔ (type_nesting tree.now < limit) }
{
    limit > 0 && type_nests_within(tree, limit - 1)
}

#[cycle(types)]
fn types_nest_below(trees: &[TypeTree], limit: u32) -> bool
    ensures { IsTrue result ↔ (around (map type_nesting trees.now) ≤ limit) }
{
    for tree in trees {
        if !type_nests_below(tree, limit) {
            return false;
        }
    }
    true
}

#[cycle(types)]
fn fields_nest_below(fields: &[(Spot, TypeTree)], limit: u32) -> bool
    ensures { IsTrue result ↔ (around (map (λ field. type_nesting field.1) fields.now) ≤ limit) }
{
    for (_, tree) in fields {
        if !type_nests_below(tree, limit) {
            return false;
        }
    }
    true
}

/// Whether the pattern nests at most so deep.
#[cycle(patterns)]
pub fn pattern_nests_within(tree: &Pattern, limit: u32) -> bool
    ensures { IsTrue result ↔ (pattern_nesting tree.now ≤ limit) }
{
    match tree {
        Pattern::Anything { .. } => true,
        Pattern::Variable { .. } => true,
        Pattern::Int { .. } => true,
        Pattern::Char { .. } => true,
        Pattern::Text { .. } => true,
        Pattern::Unit { .. } => true,
        Pattern::Fields { .. } => true,
        Pattern::Made { parts, .. } => patterns_nest_below(parts.as_slice(), limit),
        Pattern::List { parts, .. } => patterns_nest_below(parts.as_slice(), limit),
        Pattern::Tuple { parts, .. } => patterns_nest_below(parts.as_slice(), limit),
        Pattern::Brackets { inner, .. } => pattern_nests_below(inner.get(), limit),
        Pattern::Named { inner, .. } => pattern_nests_below(inner.get(), limit),
        Pattern::Cons { head, tail, .. } => {
            pattern_nests_below(head.get(), limit) && pattern_nests_below(tail.get(), limit)
        }
    }
}

/// Whether the pattern nests less deep.
#[cycle(patterns)]
pub fn pattern_nests_below(tree: &Pattern, limit: u32) -> bool
    ensures { IsTrue result ↔ (pattern_nesting tree.now < limit) }
{
    limit > 0 && pattern_nests_within(tree, limit - 1)
}

/// Whether the patterns nest less deep, or there are none.
#[cycle(patterns)]
pub fn patterns_nest_below(trees: &[Pattern], limit: u32) -> bool
    ensures { IsTrue result ↔ (around (map pattern_nesting trees.now) ≤ limit) }
{
    for tree in trees {
        if !pattern_nests_below(tree, limit) {
            return false;
        }
    }
    true
}
