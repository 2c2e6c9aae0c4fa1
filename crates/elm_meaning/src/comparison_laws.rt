//! Laws of the comparisons. The bodies are empty: what is stated holds of the definitions alone.

ghost use Rattle.std.specs.Prelude.{◌≡◌, ◌≢◌, ℕ, suc, ◌<◌, ◌≤◌, [], ◌∷◌};
ghost use Rattle.elm_meaning.specs.declared.compared.Comparison.{Comparison};
ghost use Rattle.elm_meaning.specs.declared.compared.Comparison.TheVariants.{Equality};
ghost use Rattle.elm_meaning.specs.declared.compared.Outcome.TheVariants.{Different, FunctionMet, OutOfFuel};
ghost use Rattle.elm_meaning.specs.Values.{Value, Function, Unit, Applicable};
ghost use Rattle.elm_meaning.specs.PairsVisited.{visited, compared, after_pairs};
ghost use Rattle.elm_meaning.specs.Spelling.{int, list};

/// A comparison never spends more than it is given.
pub fn work_is_within_fuel()
    ensures { (c : Comparison) (v w : Value) (fuel : ℕ) → (compared c v w fuel).work ≤ fuel }
{}

/// A comparison that has ended visits the same pairs with more fuel.
pub fn more_fuel_keeps_the_outcome()
    ensures { (c : Comparison) (v w : Value) (fuel more : ℕ) → fuel ≤ more →
        (compared c v w fuel).outcome ≢ OutOfFuel → compared c v w more ≡ compared c v w fuel }
{}

/// Each comparison visits a pair.
pub fn each_comparison_visits_a_pair()
    ensures { (c : Comparison) (v w : Value) → 0 < (visited c v w).work }
{}

/// It doesn't matter which value stands on which side of `==`.
pub fn equality_is_symmetric()
    ensures { (v w : Value) (fuel : ℕ) → compared Equality v w fuel ≡ compared Equality w v fuel }
{}

/// Two functions are one pair, which has no answer. A function and another value differ.
pub fn functions_are_not_compared()
    ensures met { (c : Comparison) (f g : Function) →
        visited c (Applicable f) (Applicable g) ≡ after_pairs 1 FunctionMet }
    ensures later { (f g : Function) →
        visited Equality (list (int 1 ∷ Applicable f ∷ [])) (list (int 2 ∷ Applicable g ∷ []))
        ≡ after_pairs 2 Different }
    ensures inside { (c : Comparison) (f g : Function) →
        visited c (list (int 1 ∷ Applicable f ∷ [])) (list (int 1 ∷ Applicable g ∷ []))
        ≡ after_pairs 4 FunctionMet }
    ensures other { (c : Comparison) (f : Function) →
        visited c (Applicable f) Unit ≡ after_pairs 1 Different }
{}
