//! What holds of the grammar of modules, whatever reads it.
ghost use Rattle.std.specs.Prelude.{◌≡◌, List, true};
ghost use Rattle.elm_base.specs.Lexemes.{Lexeme};
ghost use Rattle.elm_base.specs.declared.tree.Declaration.{Declaration};
ghost use Rattle.elm_base.specs.declared.tree.Module.{Module};
ghost use Rattle.expr_grammar.specs.Expressions.{annotations_stand};
ghost use Rattle.layout_lexer.specs.declared.place.TextFault.{TextFault};
ghost use Rattle.module_grammar.specs.Declarations.{DerivesDeclaration};
ghost use Rattle.module_grammar.specs.Modules.{DerivesModule, FirstFault, Fit, Nest};

/// A list of tokens stands for at most one declaration, however deep it nests.
pub fn one_declaration()
    ensures { (ts : List Lexeme) (x y : Declaration)
        → DerivesDeclaration ts x → DerivesDeclaration ts y → x ≡ y }
{}

/// A list of tokens stands for at most one module, however deep it nests and however large it is.
pub fn one_module()
    ensures { (ts : List Lexeme) (x y : Module) → DerivesModule ts x → DerivesModule ts y → x ≡ y }
{}

/// A list of tokens has at most one first fault, and none where it stands for a module within the limits.
pub fn one_outcome()
    ensures one_fault { (ts : List Lexeme) (f g : TextFault)
        → FirstFault ts f → FirstFault ts g → f ≡ g }
    ensures no_fault { (ts : List Lexeme) (f : TextFault) (x : Module) → FirstFault ts f
        → DerivesModule ts x → Nest x.declarations → Fit x.declarations → ⊥ }
{}

/// In a module that derives, each annotation stands directly before a definition of its name.
pub fn annotations_lead()
    ensures { (ts : List Lexeme) (x : Module)
        → DerivesModule ts x → annotations_stand x.declarations ≡ true }
{}
