//! What the grammar asks of the form of a tree that has been read.
ghost use Rattle.std.specs.Prelude.{◌≡◌, map};
ghost use Rattle.elm_base.specs.declared.tree.Declaration.{out-Declaration};
ghost use Rattle.expr_grammar.specs.Expressions as grammar;

use elm_base::{Declaration, Expr, Name, Pattern};

/// Whether it is one pattern in brackets.
pub fn is_brackets(tree: &Pattern) -> bool
    ensures { result ≡ grammar.is_brackets tree.now }
{
    match tree {
        Pattern::Brackets { .. } => true,
        _ => false,
    }
}

/// Whether the expression ends in a multi-way `if` outside brackets.
#[cycle(ends)]
pub fn ends_in_guards(tree: &Expr) -> bool
    ensures { result ≡ grammar.ends_in_guards tree.now }
{
    match tree {
        Expr::Guards { .. } => true,
        Expr::Chain { operands, .. } => last_ends_in_guards(operands.as_slice()),
        Expr::Lambda { body, .. } => ends_in_guards(body.get()),
        Expr::If { no, .. } => ends_in_guards(no.get()),
        Expr::Let { body, .. } => ends_in_guards(body.get()),
        Expr::Case { branches, .. } => match branches.as_slice() {
            [] => false,
            [.., (_, last)] => ends_in_guards(last),
        },
        _ => false,
    }
}

#[cycle(ends)]
fn last_ends_in_guards(trees: &[Expr]) -> bool
    ensures { result ≡ grammar.last_of (map grammar.ends_in_guards trees.now) }
{
    match trees {
        [] => false,
        [.., last] => ends_in_guards(last),
    }
}

/// Whether each annotation stands directly before its definition.
pub fn annotations_stand(declarations: &[Declaration]) -> bool
    ensures { result ≡ grammar.annotations_stand declarations.now }
{
    let mut rest = declarations;
    'turns: while let [first, behind @ ..] = rest {
        if !stands_before(first, behind) {
            return false;
        }
        rest = behind;
    }
    true
}

/// Whether the first is no annotation, or the first behind it defines its name.
fn stands_before(first: &Declaration, behind: &[Declaration]) -> bool
    ensures { result
        ≡ grammar.stands (grammar.annotated_name (out-Declaration first.now)) behind.now }
{
    match first {
        Declaration::Annotation { name, .. } => defines(behind, name),
        _ => true,
    }
}

/// Whether the first of the declarations defines the name.
fn defines(declarations: &[Declaration], name: &Name) -> bool
    ensures { result ≡ grammar.defines name.now declarations.now }
{
    match declarations {
        [Declaration::Definition { name: other, .. }, ..] => name.bytes() == other.bytes(),
        _ => false,
    }
}
