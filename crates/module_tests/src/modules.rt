use crate::show::written;
use module_parser::{annotations_lead, one_declaration, one_module, one_outcome};
use std::test::Fail;

/// Headers, and refusals beside them.
const HEADERS: [(&str, &str); 23] = [
    ("", "1:1 Main (..)"),
    ("module A where", "1:1 A (..)"),
    ("\nmodule A.B\n  where", "2:1 A.B (..)"),
    ("module A (..) where", "1:1 A (..)"),
    (
        "module A (f, (+), (::), T, T(..), T(A, B)) where",
        "1:1 A ( f op + op :: T T(..) T( A B ) )",
    ),
    ("module A () where", "1 BadHeader"),
    ("module A (.., f) where", "1 BadHeader"),
    ("module A (f, ..) where", "1 BadHeader"),
    ("module A (f,) where", "1 BadHeader"),
    ("module A (T()) where", "1 BadHeader"),
    ("module A (T(a)) where", "1 BadHeader"),
    ("module A (T(.., A)) where", "1 BadHeader"),
    ("module A (A.T) where", "1 BadHeader"),
    ("module A (A.f) where", "1 BadHeader"),
    ("module A (`f`) where", "1 BadHeader"),
    ("module a where", "1 BadHeader"),
    ("module A", "1 BadHeader"),
    ("module A exposing (f) where", "1 BadHeader"),
    ("module A where x = 1", "1 BadHeader"),
    (" module A where", "1 BadHeader"),
    ("x = 1\nmodule A where", "2 BadHeader"),
    ("module A where\nmodule B where", "2 BadHeader"),
    ("import A\nmodule B where", "2 BadHeader"),
];

const IMPORTS: [(&str, &str); 19] = [
    ("import A.B", "1:1 Main (..); import A.B"),
    ("import A.B as C", "1:1 Main (..); import A.B as C"),
    ("import A exposing (..)", "1:1 Main (..); import A (..)"),
    (
        "module M where\nimport A as B exposing (f, T(..))\nimport C",
        "1:1 M (..); import A as B ( f T(..) ); import C",
    ),
    ("import A\nx = 1", "1:1 Main (..); import A; x/0"),
    ("import A.b", "1 BadHeader"),
    ("import a", "1 BadHeader"),
    ("import", "1 BadHeader"),
    ("import A as B.C", "1 BadHeader"),
    ("import A as b", "1 BadHeader"),
    ("import A exposing f", "1 BadHeader"),
    ("import A exposing ()", "1 BadHeader"),
    ("import A exposing (.., f)", "1 BadHeader"),
    ("import A exposing (..) f", "1 BadHeader"),
    ("import A exposing (f) as B", "1 BadHeader"),
    (" import A", "1 BadHeader"),
    ("x = 1\nimport A", "2 BadHeader"),
    ("x = =\nimport a", "1 BadDeclaration"),
    ("import A\nimport b\nx = =", "2 BadHeader"),
];

/// Types and levels.
const TYPES: [(&str, &str); 29] = [
    ("type T = A", "1:1 Main (..); type T | A/0"),
    (
        "type T a b\n  = A a (Maybe b) { x : a }\n  | B",
        "1:1 Main (..); type T a b | A/3 | B/0",
    ),
    ("type T =", "1 BadDeclaration"),
    ("type T", "1 BadDeclaration"),
    ("type T = a", "1 BadDeclaration"),
    ("type T = A | b", "1 BadDeclaration"),
    ("type T = A.B", "1 BadDeclaration"),
    ("type T = A |", "1 BadDeclaration"),
    ("type T = A -> B", "1 BadDeclaration"),
    ("type t = A", "1 BadDeclaration"),
    ("type T A = B", "1 BadDeclaration"),
    ("type A.T = B", "1 BadDeclaration"),
    (
        "type alias P a = { x : a -> Int }",
        "1:1 Main (..); alias P a",
    ),
    ("type alias P = A | B", "1 BadDeclaration"),
    ("type alias p = Int", "1 BadDeclaration"),
    ("alias P = Int", "1 BadDeclaration"),
    ("infixl 6 +++", "1:1 Main (..); infixl 6 +++"),
    ("infixr 0 ::", "1:1 Main (..); infixr 0 ::"),
    ("infix 9 -", "1:1 Main (..); infix 9 -"),
    ("infixl 007 `f`", "1:1 Main (..); infixl 7 f"),
    ("infixr 5 `A.f`", "1:1 Main (..); infixr 5 A.f"),
    ("infixl 10 +", "1 BadDeclaration"),
    ("infixl 9223372036854775807 +", "1 BadDeclaration"),
    ("infixl +", "1 BadDeclaration"),
    ("infixl 6", "1 BadDeclaration"),
    ("infixl 6 (+)", "1 BadDeclaration"),
    ("infixl 6 f", "1 BadDeclaration"),
    ("infixl 6 + -", "1 BadDeclaration"),
    ("infixl 6 = 1", "1 BadDeclaration"),
];

/// Definitions, annotations, ports and the columns in which they stand.
const DEFINITIONS: [(&str, &str); 42] = [
    ("f = 1", "1:1 Main (..); f/0"),
    ("f x (Just y) _ = x", "1:1 Main (..); f/3"),
    ("(+) a b = a", "1:1 Main (..); +/2"),
    ("f : Int -> Int\n\n\nf x = x", "1:1 Main (..); f :; f/1"),
    ("(-) : A\n(-) a b = a", "1:1 Main (..); - :; -/2"),
    ("f =", "1 BadDeclaration"),
    ("f x", "1 BadDeclaration"),
    ("a +++ b = a", "1 BadDeclaration"),
    ("(`f`) a = a", "1 BadDeclaration"),
    ("(a, b) = c", "1 BadDeclaration"),
    ("{ x } = c", "1 BadDeclaration"),
    ("_ = c", "1 BadDeclaration"),
    ("F = c", "1 BadDeclaration"),
    ("A.f = c", "1 BadDeclaration"),
    ("1", "1 BadDeclaration"),
    (" f = 1", "1 BadDeclaration"),
    ("f = 1\n  g = 2", "1 BadDeclaration"),
    ("f =\n  1\ng = 2", "1:1 Main (..); f/0; g/0"),
    ("f =\n1", "1 BadDeclaration"),
    ("f = 1\n+ 2", "2 BadDeclaration"),
    ("f = g\nx", "2 BadDeclaration"),
    (
        "import Graphics.Element exposing (..)\nmain =\n  let a = 1\n     b = 2\n  in show a",
        "2 BadDeclaration",
    ),
    ("f = =\ng = =", "1 BadDeclaration"),
    ("f : A", "1 BadDeclaration"),
    ("f : A\ng = 1", "1 BadDeclaration"),
    ("f : A\nf : A\nf = 1", "1 BadDeclaration"),
    ("f : A\nf = =", "2 BadDeclaration"),
    ("f : A\nf", "2 BadDeclaration"),
    ("f : A\ng = =", "1 BadDeclaration"),
    ("f : A\nf : =", "1 BadDeclaration"),
    ("f : =\nf = 1", "1 BadDeclaration"),
    ("f : A\nport f = 1", "1 BadDeclaration"),
    ("(+) : A\n(-) a b = a", "1 BadDeclaration"),
    ("g = 1\nf : A", "2 BadDeclaration"),
    ("port x : A", "1:1 Main (..); port x :"),
    (
        "port x : A\nport x = 1",
        "1:1 Main (..); port x :; port x =",
    ),
    (
        "port x : A\nport x : A\nport x = 1\nf = 1\nport y : A",
        "1:1 Main (..); port x :; port x :; port x =; f/0; port y :",
    ),
    ("port x = 1", "1 BadDeclaration"),
    ("port x : A\nport y = 1", "2 BadDeclaration"),
    ("port x : A\nf = 1\nport x = 1", "3 BadDeclaration"),
    ("port (+) : A", "1 BadDeclaration"),
    ("port x y : A", "1 BadDeclaration"),
];

#[test]
fn modules_have_their_trees_or_their_first_fault(rt: HostRuntime) -> Result<(), Fail> {
    let tables: [&[(&str, &str)]; 4] = [&HEADERS, &IMPORTS, &TYPES, &DEFINITIONS];
    for table in tables {
        for (text, wanted) in table {
            let found = written(rt.alloc(), text)?;
            assert_eq!(rt; found.as_str(), *wanted, "{text}");
        }
    }
    annotations_lead();
    one_declaration();
    one_module();
    one_outcome();
    Ok(())
}
