/// Which of the two comparisons of values is meant.
#[derive(Clone, Copy, Debug, PartialEq, Eq)]
pub enum Comparison {
    /// That of `==` and `/=`, of any two values without functions.
    Equality,
    /// That of `<`, `>`, `<=`, `>=` and `compare`, of numbers, chars, texts, lists and tuples.
    Order,
}

/// What a comparison of two values has found.
#[derive(Clone, Copy, Debug, PartialEq, Eq)]
pub enum Outcome {
    Less,
    Equal,
    Greater,
    /// The values differ, and neither is less: the only difference that an equality finds.
    Different,
    /// A pair of functions was met before any difference.
    FunctionMet,
    /// The next pair wasn't visited, for want of fuel.
    OutOfFuel,
}

/// The units of fuel that a comparison has spent, and what it has found.
#[derive(Clone, Copy, Debug, PartialEq, Eq)]
pub struct Compared {
    /// One unit for each pair visited.
    pub work: u32,
    pub outcome: Outcome,
}
