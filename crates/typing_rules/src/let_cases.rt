//! Worked cases of `let`. The bodies are empty: what is stated holds of the definitions.

ghost use Rattle.std.specs.Prelude.{◌≡◌, [], ◌∷◌};
ghost use Rattle.elm_typing.specs.Ground.{Ground};
ghost use Rattle.elm_typing.specs.Names.{list_of, signal_of};
ghost use Rattle.elm_typing.specs.Spelling.{int, string, tuple};
ghost use Rattle.typing_rules.specs.CorePatterns.{CorePattern};
ghost use Rattle.typing_rules.specs.Core.{Core, Local, LetValue, ListOf};
ghost use Rattle.typing_rules.specs.TypingExamples.{number, cores, lambda, let_name, let_function, mouse_x, Has, HasNone, given_twice, named_twice, taken_twice};

/// A definition of a name is typed anew at each use. A parameter has one type, and so has a name of another pattern.
pub fn definitions_are_generalised()
    ensures named { Has named_twice (tuple (int ∷ string ∷ [])) }
    ensures given { HasNone given_twice }
    ensures taken { HasNone taken_twice }
{}

/// A definition has its types in its own surroundings: in `let x = [x] in x` the inner `x` is the one outside.
pub fn definitions_keep_their_surroundings()
    ensures own { Has (lambda 0 (let_name 0 (ListOf (cores (Local 0 ∷ []))) (Local 0)))
        (Ground.Function int (list_of int)) }
    ensures others { Has (lambda 0 (let_name 0 (ListOf (cores (Local 0 ∷ []))) (Local 0)))
        (Ground.Function int int) → ⊥ }
{}

/// What a `let` binds may be a signal only where its body is one: `let y = Mouse.x in 3` has no type.
pub fn no_let_hides_a_signal()
    ensures value { HasNone (let_name 1 mouse_x (number 3)) }
    ensures function { HasNone (let_function 1 2 mouse_x (number 3)) }
    ensures pattern { HasNone (LetValue CorePattern.Anything mouse_x (number 3)) }
    ensures inside { HasNone (lambda 0 (let_name 1 mouse_x (number 3))) }
    ensures shown { Has (let_name 1 mouse_x (Local 1)) (signal_of int) }
    ensures simple { Has (lambda 0 (let_name 1 (number 4) (number 3))) (Ground.Function int int) }
{}
