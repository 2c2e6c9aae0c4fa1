//! The bodies are empty: what is stated holds of the definitions alone.
ghost use Rattle.std.specs.Prelude.{◌≡◌, List, ◌∷◌, map};
ghost use Rattle.plain_form.specs.PlainForm.{call, lambdas, listed};
ghost use Rattle.core_trees.specs.declared.pattern.PatternTree.{PatternTree};
ghost use Rattle.core_trees.specs.declared.pattern.PatternTree.TheVariants as p;
ghost use Rattle.core_trees.specs.declared.tree.CoreTree.{CoreTree};
ghost use Rattle.core_trees.specs.declared.tree.CoreTree.TheVariants as t;
ghost use Rattle.core_trees.specs.declared.tree.LetGroup.{LetGroup};
ghost use Rattle.core_trees.specs.PatternReading.{pattern_of};
ghost use Rattle.core_trees.specs.Reading.{core_of, group_of, groups_before};

/// Parts that stand beside each other in a tree stand in turn in the plain term: arguments one after the other, parameters
/// one round the other, the groups of a `let` in order, the elements of a list pattern in front of the empty list.
pub fn parts_stand_in_turn()
    ensures call { (f : CoreTree) (xs : List CoreTree) →
        core_of (t.Call f xs) ≡ call (core_of f) (map core_of xs) }
    ensures lambda { (first : PatternTree) (more : List PatternTree) (body : CoreTree) →
        core_of (t.Lambda first more body) ≡ lambdas (map pattern_of (first ∷ more)) (core_of body) }
    ensures groups { (gs : List LetGroup) (body : CoreTree) →
        core_of (t.Let gs body) ≡ groups_before (map group_of gs) (core_of body) }
    ensures elements { (ps : List PatternTree) →
        pattern_of (p.List ps) ≡ listed (map pattern_of ps) }
{}
