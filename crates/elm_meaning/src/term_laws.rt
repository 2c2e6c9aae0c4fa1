//! What terms stand for, in laws and worked cases. The bodies are empty: what is stated holds of the definitions.

ghost use Rattle.std.specs.Prelude.{◌≡◌, ℕ, List, [], ◌∷◌, ◌++◌, pos, negsuc, map, codes};
ghost use Rattle.elm_base.specs.declared.term.Term.{Term};
ghost use Rattle.elm_base.specs.declared.term.Term.TheVariants as term;
ghost use Rattle.elm_base.specs.declared.term.TermPattern.{TermPattern};
ghost use Rattle.elm_base.specs.declared.term.TermPattern.TheVariants as written;
ghost use Rattle.elm_base.specs.declared.term.Literal.{Literal};
ghost use Rattle.elm_base.specs.declared.term.Literal.TheVariants as literal;
ghost use Rattle.elm_base.specs.declared.native.TheConstants.{ADD, ASYNC, EMPTY, UP, NATIVES};
ghost use Rattle.elm_meaning.specs.declared.callee.Callee.TheVariants as callee;
ghost use Rattle.elm_meaning.specs.Patterns.{Pattern, pattern_of, patterns_of};
ghost use Rattle.elm_meaning.specs.Values.{Value, Tree, Char, Unit, Applicable, NoValues, Partial, Done, Local, Top, Input, Lambda, Call, If, LetValue, LetFunctions, Range, RecordTree, Update, Extend, Remove, Field, NoTree};
ghost use Rattle.elm_meaning.specs.Terms.{tree_at, tree_of, trees_of};
ghost use Rattle.elm_meaning.specs.Spelling.{int, minus, text, made, element, native, maker, tuple_term, list_term, field_terms, guards, case_of, functions};
ghost use Rattle.elm_meaning.specs.Examples.{loop_body, loop_terms};

/// The pattern that each form of a term's pattern stands for.
pub fn patterns_stand_form_by_form()
    ensures anything { pattern_of written.Anything ≡ Pattern.Anything }
    ensures name { (number : ℕ) → pattern_of (written.Local number) ≡ Pattern.Local number }
    ensures literal { (value : Literal) → pattern_of (written.Literal value)
        ≡ Pattern.Literal value }
    ensures made { (constructor : List ℕ) (parts : List TermPattern) → pattern_of
        (written.Made constructor parts)
        ≡ Pattern.Made constructor (patterns_of (map pattern_of parts)) }
    ensures nil { pattern_of written.Nil ≡ Pattern.Nil }
    ensures cons { (head tail : TermPattern) → pattern_of (written.Cons head tail)
        ≡ Pattern.Cons (pattern_of head) (pattern_of tail) }
    ensures tuple { (parts : List TermPattern) → pattern_of (written.Tuple parts)
        ≡ Pattern.Tuple (patterns_of (map pattern_of parts)) }
    ensures fields { (labels : List (List ℕ × ℕ)) → pattern_of (written.Fields labels)
        ≡ Pattern.Fields labels }
    ensures named { (inner : TermPattern) (number : ℕ) → pattern_of (written.Named inner number)
        ≡ Pattern.Named (pattern_of inner) number }
{}

/// Each term's tree is made of the trees of the terms before it, and later terms change none.
pub fn terms_stand_from_the_left()
    ensures next { (terms : List Term) (t : Term) → trees_of (terms ++ t ∷ [])
        ≡ trees_of terms ++ tree_of (trees_of terms) t ∷ [] }
{}

/// The tree of each form of term, where the terms before it stand for the trees a, b and c.
pub fn terms_stand_form_by_form()
    ensures local { tree_of [] (term.Local 4) ≡ Local 4 }
    ensures top { tree_of [] (term.Top 4) ≡ Top 4 }
    ensures input { tree_of [] (term.Input 4) ≡ Input 4 }
    ensures lambda { (a b : Tree) (p : TermPattern) → tree_of (a ∷ b ∷ []) (term.Lambda p 1)
        ≡ Lambda (pattern_of p) b }
    ensures call { (a b : Tree) → tree_of (a ∷ b ∷ []) (term.Call 0 1) ≡ Call a b }
    ensures branches { (a b c : Tree) → tree_of (a ∷ b ∷ c ∷ []) (term.If 0 1 2) ≡ If a b c }
    ensures guards { (a b c : Tree) → tree_of (a ∷ b ∷ c ∷ []) (term.Guards ((0, 1) ∷ (2, 0) ∷ []))
        ≡ guards ((a, b) ∷ (c, a) ∷ []) }
    ensures case { (a b c : Tree) (p q : TermPattern) → tree_of (a ∷ b ∷ c ∷ [])
        (term.Case 0 ((p, 1) ∷ (q, 2) ∷ []))
        ≡ case_of a ((pattern_of p, b) ∷ (pattern_of q, c) ∷ []) }
    ensures tuple { (a b : Tree) → tree_of (a ∷ b ∷ []) (term.Tuple (0 ∷ 1 ∷ []))
        ≡ tuple_term (a ∷ b ∷ []) }
    ensures list { (a b : Tree) → tree_of (a ∷ b ∷ []) (term.List (0 ∷ 1 ∷ []))
        ≡ list_term (a ∷ b ∷ []) }
    ensures range { (a b : Tree) → tree_of (a ∷ b ∷ []) (term.Range 0 1) ≡ Range a b }
    ensures fields { (a b : Tree) → tree_of (a ∷ b ∷ [])
        (term.Fields ((codes "y", 0) ∷ (codes "x", 1) ∷ []))
        ≡ RecordTree (field_terms (("y", a) ∷ ("x", b) ∷ [])) }
    ensures update { (a b : Tree) → tree_of (a ∷ b ∷ []) (term.Update 0 ((codes "x", 1) ∷ []))
        ≡ Update a (field_terms (("x", b) ∷ [])) }
    ensures extend { (a b : Tree) → tree_of (a ∷ b ∷ []) (term.Extend 0 ((codes "x", 1) ∷ []))
        ≡ Extend a (field_terms (("x", b) ∷ [])) }
    ensures remove { (a : Tree) → tree_of (a ∷ []) (term.Remove 0 (codes "x"))
        ≡ Remove a (codes "x") }
    ensures field { (a : Tree) → tree_of (a ∷ []) (term.Field 0 (codes "x")) ≡ Field a (codes "x") }
    ensures later { (a : Tree) → tree_of (a ∷ []) (term.Call 0 1) ≡ Call a NoTree }
{}

/// Literals, natives and constructors are values. A constructor without arguments is one as it stands, and so are some
/// natives; the others lack their arguments.
pub fn constants_stand_for_values()
    ensures int { tree_of [] (term.Literal (literal.Int (negsuc 0))) ≡ Done (minus 1) }
    ensures char { tree_of [] (term.Literal (literal.Char 97)) ≡ Done (Char 97) }
    ensures text { tree_of [] (term.Literal (literal.Text (codes "ab"))) ≡ Done (text "ab") }
    ensures unit { tree_of [] (term.Literal literal.Unit) ≡ Done Unit }
    ensures native { tree_of [] (term.Native ADD) ≡ native ADD }
    ensures signal { tree_of [] (term.Native ASYNC) ≡ native ASYNC }
    ensures empty { tree_of [] (term.Native EMPTY) ≡ Done (element 0 0 []) }
    ensures direction { tree_of [] (term.Native UP) ≡ Done (made "up" []) }
    ensures beyond { tree_of [] (term.Native NATIVES) ≡ NoTree }
    ensures nothing { tree_of [] (term.Constructor (codes "Nothing") 0) ≡ Done (made "Nothing" []) }
    ensures just { tree_of [] (term.Constructor (codes "Just") 1) ≡ maker "Just" 1 }
{}

/// The terms of `loop n = if n == 0 then 0 else loop (n - 1)`, and a term whose part stands later.
pub fn terms_stand_for_trees()
    ensures looping { tree_at (trees_of loop_terms) 12 ≡ Lambda (Pattern.Local 0) loop_body }
    ensures later { trees_of (term.List (0 ∷ []) ∷ []) ≡ list_term (NoTree ∷ []) ∷ [] }
{}

/// A group of a `let` is functions where each member is a name with a lambda. Any other group is one value for a
/// pattern. Later groups stand inside earlier ones.
pub fn groups_are_functions_or_a_value()
    ensures function { (p : TermPattern) (a b : Tree) →
        tree_of (Lambda (pattern_of p) a ∷ b ∷ []) (term.Let (((written.Local 7, 0) ∷ []) ∷ []) 1)
        ≡ LetFunctions (functions ((7, pattern_of p, a) ∷ [])) b }
    ensures two { (p q : TermPattern) (a b c : Tree) →
        tree_of (Lambda (pattern_of p) a ∷ Lambda (pattern_of q) b ∷ c ∷ [])
        (term.Let (((written.Local 7, 0) ∷ (written.Local 8, 1) ∷ []) ∷ []) 2)
        ≡ LetFunctions (functions ((7, pattern_of p, a) ∷ (8, pattern_of q, b) ∷ [])) c }
    ensures value { (b : Tree) →
        tree_of (Done (int 1) ∷ b ∷ []) (term.Let (((written.Local 7, 0) ∷ []) ∷ []) 1) ≡ LetValue
        (Pattern.Local 7) (Done (int 1)) b }
    ensures pattern { (p : TermPattern) (a b : Tree) →
        tree_of (Lambda (pattern_of p) a ∷ b ∷ []) (term.Let (((written.Anything, 0) ∷ []) ∷ []) 1)
        ≡ LetValue Pattern.Anything (Lambda (pattern_of p) a) b }
    ensures order { (a b : Tree) →
        tree_of (Done (int 1) ∷ Local 7 ∷ b ∷ [])
        (term.Let (((written.Local 7, 0) ∷ []) ∷ ((written.Local 8, 1) ∷ []) ∷ []) 2)
        ≡ LetValue (Pattern.Local 7) (Done (int 1)) (LetValue (Pattern.Local 8) (Local 7) b) }
{}
