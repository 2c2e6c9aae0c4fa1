use crate::same;
use elm_base::native;
use std::cmp::Ordering;
use value_prims::{Computed, Numeric, on_numbers};

#[test]
fn natives_on_two_numbers(rt: HostRuntime) {
    let rows = [
        (native::ADD, 2, 3, Numeric::Int(5), 0),
        (native::ADD, i64::MAX, 1, Numeric::IntRange, 0),
        (native::SUBTRACT, i64::MIN, 1, Numeric::IntRange, 0),
        (native::MULTIPLY, -4, 3, Numeric::Int(-12), 0),
        (native::MULTIPLY, i64::MIN, -1, Numeric::IntRange, 0),
        (native::DIVIDE, -7, 2, Numeric::Int(-3), 0),
        (native::DIVIDE, 7, 0, Numeric::DivideByZero, 0),
        (native::DIVIDE, i64::MIN, -1, Numeric::IntRange, 0),
        (native::MODULO, -1, 4, Numeric::Int(3), 0),
        (native::MODULO, 1, -4, Numeric::Int(-3), 0),
        (native::MODULO, -8, 4, Numeric::Int(0), 0),
        (native::MODULO, i64::MIN, -1, Numeric::Int(0), 0),
        (native::MODULO, 1, 0, Numeric::DivideByZero, 0),
        (native::REMAINDER, -1, 4, Numeric::Int(-1), 0),
        (native::REMAINDER, 1, -4, Numeric::Int(1), 0),
        (native::REMAINDER, i64::MIN, -1, Numeric::Int(0), 0),
        (native::REMAINDER, 1, 0, Numeric::DivideByZero, 0),
        (native::EQUAL, 2, 2, Numeric::Truth(true), 1),
        (native::NOT_EQUAL, 2, 2, Numeric::Truth(false), 1),
        (native::LESS, -1, 1, Numeric::Truth(true), 1),
        (native::GREATER, -1, 1, Numeric::Truth(false), 1),
        (native::AT_MOST, 1, 1, Numeric::Truth(true), 1),
        (native::AT_LEAST, 0, 1, Numeric::Truth(false), 1),
        (native::COMPARE, 3, 2, Numeric::Order(Ordering::Greater), 1),
    ];
    for (number, a, b, answer, work) in rows {
        same(
            &rt,
            on_numbers(number, a, b),
            Some(Computed { answer, work }),
            "two numbers",
        );
    }
    for other in [native::NEGATE, native::SPACER] {
        same(
            &rt,
            on_numbers(other, 1, 2),
            None,
            "no native on two numbers",
        );
    }
}
