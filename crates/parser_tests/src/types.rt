use crate::form::check_around;
use crate::reading::{Reading, check_rows};
use expr_parser::one_type;
use std::alloc::AllocError;

/// Types and their trees, each with its column behind it.
const ROWS: [(&str, &str); 38] = [
    ("a", "a@1"),
    ("Int", "<Int>@1"),
    ("A.B", "<A.B>@1"),
    ("a.b", "NoTree"),
    ("A.b", "NoTree"),
    ("", "NoTree"),
    ("a b", "NoTree"),
    ("Maybe a Int", "<Maybe a@7 <Int>@9>@1"),
    ("Maybe List a", "<Maybe <List>@7 a@12>@1"),
    ("Maybe ( List a )", "<Maybe (<List a@14>@9)@7>@1"),
    ("a -> b -> c", "<a@1 -> <b@6 -> c@11>@6>@1"),
    ("( a -> b ) -> c", "<(<a@3 -> b@8>@3)@1 -> c@15>@1"),
    ("Maybe a -> b", "<<Maybe a@7>@1 -> b@12>@1"),
    ("a ->", "NoTree"),
    ("-> a", "NoTree"),
    ("a :: b", "NoTree"),
    ("( )", "()@1"),
    ("( a )", "(a@3)@1"),
    ("( a", "NoTree"),
    ("a )", "NoTree"),
    ("( a , b )", "(, a@3 b@7)@1"),
    ("( a , )", "NoTree"),
    ("( , )", "NoTree"),
    (
        "( a , b , c , d , e , f , g , h , i )",
        "(, a@3 b@7 c@11 d@15 e@19 f@23 g@27 h@31 i@35)@1",
    ),
    ("( a , b , c , d , e , f , g , h , i , j )", "NoTree"),
    ("{ }", "{}@1"),
    ("{ x : a }", "{ x@3:a@7}@1"),
    (
        "{ x : a , y : Int -> b }",
        "{ x@3:a@7 y@11:<<Int>@15 -> b@22>@15}@1",
    ),
    ("{ r | x : a }", "{ r@3 | x@7:a@11}@1"),
    ("{ r | }", "NoTree"),
    ("{ r }", "NoTree"),
    ("{ x : a , }", "NoTree"),
    ("{ X : a }", "NoTree"),
    ("{ x = a }", "NoTree"),
    ("{ x : a | y : b }", "NoTree"),
    ("[ a ]", "NoTree"),
    ("as", "NoTree"),
    ("{ x : a , x : b }", "{ x@3:a@7 x@11:b@15}@1"),
];

#[test]
fn types_have_their_trees(rt: HostRuntime) -> Result<(), AllocError> {
    check_rows(&rt, rt.alloc(), Reading::Type, &ROWS)?;
    one_type();
    Ok(())
}

/// What may stand in front and behind, and how often at most.
const AROUND: [(&str, &str, usize); 7] = [
    ("( ", " )", 100),
    ("a -> ", "", 100),
    ("( a , ", " )", 100),
    ("{ x : ", " }", 100),
    ("{ r | x : ", " }", 100),
    ("List ( ", " )", 50),
    ("List ( Int -> ", " )", 33),
];

#[test]
fn types_nest_at_most_100_deep(rt: HostRuntime) -> Result<(), AllocError> {
    check_around(&rt, rt.alloc(), Reading::Type, &AROUND)
}
