//! Laws of the definitions. The bodies are empty: what is stated holds of the definitions.
ghost use Rattle.std.specs.Prelude.{◌≡◌, ℕ, true, List, []};
ghost use Rattle.std.specs.List.{Contains};
ghost use Rattle.elm_base.specs.declared.tree.Declaration.{Declaration};
ghost use Rattle.elm_base.specs.declared.tree.Spot.{Spot};
ghost use Rattle.elm_base.specs.declared.tree.Module.{Module};
ghost use Rattle.elm_base.specs.declared.tree.TypeTree.{TypeTree};
ghost use Rattle.type_names.specs.declared.known.KnownType.{KnownType};
ghost use Rattle.type_names.specs.declared.texts.Variables.{Variables};
ghost use Rattle.type_names.specs.Answers.{Places, places_in};
ghost use Rattle.type_names.specs.Known.{known_in};
ghost use Rattle.type_names.specs.Texts.{flaws_in};
ghost use Rattle.alias_expansion.specs.declared.plain_alias.PlainAlias.{PlainAlias};
ghost use Rattle.alias_expansion.specs.Expansion.{alias_called, plain, knows};
ghost use Rattle.alias_expansion.specs.Table.{AreWrittenOut, is_listed};
ghost use Rattle.type_faults.specs.Faults.{HasNoTextFault};
ghost use Rattle.alias_laws.specs.Once.{AliasesOnce, IsAliasOf};

/// Where no alias is declared twice, a project has one table of aliases alone, whatever the order of its entries: each alias is
/// the same in all of them, and so is what each written type stands for.
pub fn tables_of_aliases_agree()
    ensures aliases { (types : List KnownType) (modules : List Module) (one two : List PlainAlias)
        → AliasesOnce modules → AreWrittenOut types modules one → AreWrittenOut types modules two
        → («module» name : List ℕ)
        → alias_called one «module» name ≡ alias_called two «module» name }
    ensures types { (types : List KnownType) (modules : List Module) (one two : List PlainAlias)
        → AliasesOnce modules → AreWrittenOut types modules one → AreWrittenOut types modules two
        → (places : Places) (written : TypeTree)
        → plain one places written ≡ plain two places written }
    ensures known { (types : List KnownType) (modules : List Module) (one two : List PlainAlias)
        → AliasesOnce modules → AreWrittenOut types modules one → AreWrittenOut types modules two
        → (places : Places) (written : TypeTree)
        → knows one places written ≡ knows two places written }
{}

/// In a project without faults in the texts of its types each alias is written out, and so is each that a written type names
/// in which nothing is wrong at a place.
pub fn aliases_without_fault_are_written_out()
    ensures aliases { (modules : List Module) (aliases : List PlainAlias) → HasNoTextFault modules
        → AreWrittenOut (known_in modules) modules aliases → (home name : List ℕ)
        («module» : Module) (declaration : Declaration)
        → IsAliasOf modules home name «module» declaration
        → is_listed aliases home name ≡ true }
    ensures types { (modules : List Module) (aliases : List PlainAlias) → HasNoTextFault modules
        → AreWrittenOut (known_in modules) modules aliases → («module» : Module)
        (variables : Variables) (parameters : List Spot) (written : TypeTree)
        → flaws_in (places_in (known_in modules) «module») variables parameters written ≡ []
        → knows aliases (places_in (known_in modules) «module») written ≡ true }
{}
