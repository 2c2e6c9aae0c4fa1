//! Where a block of a `let` has too many definitions. The recursion goes as deep as the tree.
ghost use Rattle.std.specs.Prelude.{◌≡◌, ◌+◌, [], ◌∷◌, length, map, MatchOption};
ghost use Rattle.block_sizes.specs.BlockSizes as spec;
ghost use Rattle.tree_nesting.specs.ExpressionNesting.{guards_of, branches_of};

use elm_base::{Declaration, Expr, Set};

/// A block has at most so many definitions.
pub const MOST_DEFINITIONS: usize = 5000;

/// The lesser of two lines, or the one that is there.
fn earlier(a: Option<u32>, b: Option<u32>) -> Option<u32>
    ensures { result ≡ spec.earlier a b }
{
    match (a, b) {
        (None, b) => b,
        (Some(a), None) => Some(a),
        (Some(a), Some(b)) => Some(if a <= b { a } else { b }),
    }
}

/// The line of a declaration that counts as a definition of its block: a definition, one of a pattern, or what a port carries.
pub fn defined_at(tree: &Declaration) -> Option<u32>
    ensures { result ≡ spec.defined_at tree.now }
{
    match tree {
        Declaration::Definition { at, .. } => Some(at.line),
        Declaration::PatternDefinition { at, .. } => Some(at.line),
        Declaration::PortDefinition { at, .. } => Some(at.line),
        _ => None,
    }
}

/// How many more definitions may come behind this declaration, or `None` where it is one too many.
pub fn left_behind(left: usize, line: Option<u32>) -> Option<usize>
    ensures { MatchOption result ((left ≡ 0) × (length (spec.present (line ∷ [])) ≡ 1))
        (λ next. next + length (spec.present (line ∷ [])) ≡ left) }
{
    match line {
        None => Some(left),
        Some(_) => left.checked_sub(1),
    }
}

/// The line of the first definition that is one too many for the block.
fn over(declarations: &[Declaration]) -> Option<u32>
    ensures { result ≡ spec.over (map spec.defined_at declarations.now) }
{
    let mut left = MOST_DEFINITIONS;
    for declaration in declarations {
        let line = defined_at(declaration);
        match left_behind(left, line) {
            None => return line,
            Some(next) => left = next,
        }
    }
    None
}

/// The first line at which a block of a `let` has too many definitions.
#[cycle(sizes)]
fn large_expr(tree: &Expr) -> Option<u32>
    ensures { result ≡ spec.large_expr tree.now }
{
    match tree {
        Expr::Chain { operands, .. } => large_exprs(operands.as_slice()),
        Expr::Call {
            function,
            arguments,
            ..
        } => earlier(
            large_expr(function.get()),
            large_exprs(arguments.as_slice()),
        ),
        Expr::Lambda { body, .. } => large_expr(body.get()),
        Expr::Binary { left, right, .. } => earlier(
            large_expr(left.get()),
            large_expr(right.get()),
        ),
        Expr::Range { low, high, .. } => earlier(large_expr(low.get()), large_expr(high.get())),
        Expr::If {
            condition,
            yes,
            no,
            ..
        } => earlier(
            large_expr(condition.get()),
            earlier(large_expr(yes.get()), large_expr(no.get())),
        ),
        Expr::Negate { inner, .. } => large_expr(inner.get()),
        Expr::Brackets { inner, .. } => large_expr(inner.get()),
        Expr::Access { from, .. } => large_expr(from.get()),
        Expr::Tuple { parts, .. } => large_exprs(parts.as_slice()),
        Expr::List { parts, .. } => large_exprs(parts.as_slice()),
        Expr::Fields { fields, .. } => large_sets(fields.as_slice()),
        Expr::Extend { from, fields, .. } => {
            earlier(large_expr(from.get()), large_sets(fields.as_slice()))
        }
        Expr::Update { from, fields, .. } => {
            earlier(large_expr(from.get()), large_sets(fields.as_slice()))
        }
        Expr::Remove { from, fields, .. } => {
            earlier(large_expr(from.get()), large_sets(fields.as_slice()))
        }
        Expr::Guards { .. } => large_guards(tree),
        Expr::Let {
            definitions,
            body,
            ..
        } => earlier(
            over(definitions.as_slice()),
            earlier(
                large_declarations(definitions.as_slice()),
                large_expr(body.get()),
            ),
        ),
        Expr::Case { scrutinee, .. } => earlier(large_expr(scrutinee.get()), large_branches(tree)),
        _ => None,
    }
}

#[cycle(sizes)]
fn large_exprs(trees: &[Expr]) -> Option<u32>
    ensures { result ≡ spec.earliest (map spec.large_expr trees.now) }
{
    let mut found = None;
    for tree in trees {
        found = earlier(found, large_expr(tree));
    }
    found
}

#[cycle(sizes)]
fn large_sets(sets: &[Set]) -> Option<u32>
    ensures { result ≡ spec.earliest (map spec.large_set sets.now) }
{
    let mut found = None;
    for set in sets {
        found = earlier(found, large_expr(&set.value));
    }
    found
}

/// Of the branches of a multi-way `if`. Another expression has none.
#[cycle(sizes)]
fn large_guards(tree: &Expr) -> Option<u32>
    ensures { result ≡ spec.earliest (map (λ branch. spec.earlier (spec.large_expr branch.0) (spec.large_expr branch.1))
        (guards_of tree.now)) }
{
    let Expr::Guards { branches, .. } = tree else {
        return None;
    };
    let branches = branches.as_slice();
    let mut found = None;
    for (condition, chosen) in branches {
        found = earlier(found, earlier(large_expr(condition), large_expr(chosen)));
    }
    found
}

/// Of the branches of a `case`. Another expression has none.
#[cycle(sizes)]
fn large_branches(tree: &Expr) -> Option<u32>
    ensures { result ≡ spec.earliest (map (λ branch. spec.large_expr branch.1) (branches_of tree.now)) }
{
    let Expr::Case { branches, .. } = tree else {
        return None;
    };
    let branches = branches.as_slice();
    let mut found = None;
    for (_, chosen) in branches {
        found = earlier(found, large_expr(chosen));
    }
    found
}

#[cycle(sizes)]
fn large_declarations(declarations: &[Declaration]) -> Option<u32>
    ensures { result ≡ spec.earliest (map spec.large_declaration declarations.now) }
{
    let mut found = None;
    for declaration in declarations {
        found = earlier(found, large_declaration(declaration));
    }
    found
}

/// The first line at which a block of a `let` in the declaration has too many definitions.
#[cycle(sizes)]
pub fn large_declaration(tree: &Declaration) -> Option<u32>
    ensures { result ≡ spec.large_declaration tree.now }
{
    match tree {
        Declaration::Definition { body, .. } => large_expr(body),
        Declaration::PatternDefinition { body, .. } => large_expr(body),
        Declaration::PortDefinition { body, .. } => large_expr(body),
        _ => None,
    }
}
