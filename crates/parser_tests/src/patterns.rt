use crate::form::check_around;
use crate::reading::{Reading, check_rows};
use expr_parser::one_pattern;
use std::alloc::AllocError;

/// Patterns and their trees, each with its column behind it.
const ROWS: [(&str, &str); 57] = [
    ("_", "_@1"),
    ("x", "x@1"),
    ("a.b", "NoTree"),
    ("A.b", "NoTree"),
    ("", "NoTree"),
    ("0", "0@1"),
    ("007", "7@1"),
    ("9223372036854775807", "9223372036854775807@1"),
    ("9223372036854775808", "no tokens"),
    ("99999999999999999999999", "no tokens"),
    ("- 1", "NoTree"),
    ("'a'", "'a'@1"),
    ("'é'", "'é'@1"),
    ("'\\''", "'''@1"),
    ("'\\\\'", "'\\'@1"),
    ("'ab'", "no tokens"),
    ("''", "no tokens"),
    ("'\\q'", "no tokens"),
    ("\"\"", "\"\"@1"),
    ("\"a\\\"b\\\\\\n\\t\\r\"", "\"a\"b\\\n\t\r\"@1"),
    ("\"\\q\"", "no tokens"),
    ("\"\\\"", "no tokens"),
    ("Nothing", "<Nothing>@1"),
    ("A.B c", "<A.B c@5>@1"),
    ("Just x 1", "<Just x@6 1@8>@1"),
    ("Just Nothing x", "<Just <Nothing>@6 x@14>@1"),
    ("Just ( Just x )", "<Just (<Just x@13>@8)@6>@1"),
    ("x y", "NoTree"),
    ("x :: y :: z", "<x@1 :: <y@6 :: z@11>@6>@1"),
    ("Just x :: y", "<<Just x@6>@1 :: y@11>@1"),
    (
        "Just x :: Just y z",
        "<<Just x@6>@1 :: <Just y@16 z@18>@11>@1",
    ),
    ("x ::", "NoTree"),
    (":: x", "NoTree"),
    ("x : y", "NoTree"),
    ("x as y", "<x@1 as y@6>@1"),
    ("x :: y as z", "<<x@1 :: y@6>@1 as z@11>@1"),
    ("x :: ( y as z )", "<x@1 :: (<y@8 as z@13>@8)@6>@1"),
    ("Just x as y", "<<Just x@6>@1 as y@11>@1"),
    ("Just ( x as y )", "<Just (<x@8 as y@13>@8)@6>@1"),
    ("x as y as z", "NoTree"),
    ("x as Y", "NoTree"),
    ("x as _", "NoTree"),
    ("x as", "NoTree"),
    ("x as y :: z", "NoTree"),
    ("( )", "()@1"),
    ("( x )", "(x@3)@1"),
    ("( x , y as z )", "(, x@3 <y@7 as z@12>@7)@1"),
    (
        "( a , b , c , d , e , f , g , h , i )",
        "(, a@3 b@7 c@11 d@15 e@19 f@23 g@27 h@31 i@35)@1",
    ),
    ("( a , b , c , d , e , f , g , h , i , j )", "NoTree"),
    ("( x , )", "NoTree"),
    ("[ ]", "[]@1"),
    (
        "[ a , b , c , d , e , f , g , h , i , j :: k ]",
        "[ a@3 b@7 c@11 d@15 e@19 f@23 g@27 h@31 i@35 <j@39 :: k@44>@39]@1",
    ),
    ("[ x , ]", "NoTree"),
    ("{ x , y }", "{ x@3 y@7}@1"),
    ("{ }", "NoTree"),
    ("{ x = y }", "NoTree"),
    ("{ X }", "NoTree"),
];

#[test]
fn patterns_have_their_trees(rt: HostRuntime) -> Result<(), AllocError> {
    check_rows(&rt, rt.alloc(), Reading::Pattern, &ROWS)?;
    one_pattern();
    Ok(())
}

/// What may stand in front and behind, and how often at most.
const AROUND: [(&str, &str, usize); 7] = [
    ("( ", " )", 100),
    ("a :: ", "", 100),
    ("[ a , ", " ]", 100),
    ("( a , ", " )", 100),
    ("( ", " as b )", 50),
    ("Just ( ", " )", 50),
    ("Just [ Nothing :: ", " as b ]", 25),
];

#[test]
fn patterns_nest_at_most_100_deep(rt: HostRuntime) -> Result<(), AllocError> {
    check_around(&rt, rt.alloc(), Reading::Pattern, &AROUND)
}
