//! Worked cases of a program's groups. The bodies are empty: what is stated holds of the definitions by computation.

ghost use Rattle.std.specs.Prelude.{◌≡◌, [], ◌∷◌};
ghost use Rattle.elm_meaning.specs.Spelling.{int};
ghost use Rattle.elm_meaning.specs.Values.{Done, Top as TopTree};
ghost use Rattle.typing_rules.specs.Core.{Top};
ghost use Rattle.typing_rules.specs.TypingExamples.{definition, number, lambda};
ghost use Rattle.typing_sound.specs.Programs.{GroupsStand, trees_of};

/// A group is one value that doesn't refer to itself, or functions. The numbers go through all groups without a gap.
pub fn groups_stand_one_after_the_other()
    ensures values { GroupsStand 0 ((definition 0 (number 1) ∷ []) ∷ (definition 1 (Top 0) ∷ [])
        ∷ []) }
    ensures function { GroupsStand 0 ((definition 0 (lambda 0 (Top 0)) ∷ []) ∷ []) }
    ensures functions { GroupsStand 3 ((definition 3 (lambda 0 (Top 4)) ∷ definition 4
        (lambda 0 (Top 3)) ∷ []) ∷ []) }
    ensures itself { GroupsStand 0 ((definition 0 (Top 0) ∷ []) ∷ []) → ⊥ }
    ensures together { GroupsStand 0 ((definition 0 (number 1) ∷ definition 1
        (lambda 0 (Top 0)) ∷ []) ∷ []) → ⊥ }
    ensures gap { GroupsStand 0 ((definition 1 (number 1) ∷ []) ∷ []) → ⊥ }
    ensures order { GroupsStand 0 ((definition 1 (number 1) ∷ []) ∷ (definition 0 (number 2) ∷ [])
        ∷ []) → ⊥ }
    ensures trees { trees_of ((definition 0 (number 1) ∷ []) ∷ (definition 1 (Top 0) ∷ []) ∷ [])
        ≡ Done (int 1) ∷ TopTree 0 ∷ [] }
{}
