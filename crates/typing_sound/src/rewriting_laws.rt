//! What is rewritten has the types that it is written to have. The bodies are empty: what is stated holds of the
//! definitions.

ghost use Rattle.std.specs.Prelude.{◌≡◌, ℕ, List, None, Some};
ghost use Rattle.elm_base.specs.declared.token.At.{At};
ghost use Rattle.elm_typing.specs.Ground.{Ground, Grounds, Row};
ghost use Rattle.elm_typing.specs.Rows.{newest};
ghost use Rattle.typing_rules.specs.CoreTypes.{CoreHas};
ghost use Rattle.typing_rules.specs.Worlds.{IsProper, no_surroundings};
ghost use Rattle.typing_rules.specs.Unions.{arrows, count_of};
ghost use Rattle.typing_rules.specs.WrittenTypes.{Fields, WrittenFields, IsInstance};
ghost use Rattle.plain_form.specs.Naming.{Naming, Maker};
ghost use Rattle.plain_form.specs.PlainForm.{made_by};
ghost use Rattle.typing_sound.specs.Rewritings.{field_function, tuple_maker, OwnNumbersDiffer, MakesRecord, takes_fields};
ghost use Rattle.typing_sound.specs.Settings.{Setting, Scope, world_of, types_in};

/// A field function takes exactly the records that have the field, and gives the first of the label's types.
pub fn field_functions_take_records()
    ensures has { (p : Setting) (label : List ℕ) (row : Row) (t : Ground) →
        IsProper (world_of p) (Ground.Function (Ground.Record row) t) → newest label row
        ≡ Some t →
        CoreHas (world_of p) no_surroundings (field_function label) (Ground.Function
        (Ground.Record row) t) }
    ensures only { (p : Setting) (label : List ℕ) (t : Ground) →
        CoreHas (world_of p) no_surroundings (field_function label) t →
        (row : Row) × (result : Ground) × (t ≡ Ground.Function (Ground.Record row) result)
        × (newest label row ≡ Some result) }
{}

/// The maker of a tuple takes the parts in turn and gives the tuple, and has no other type.
pub fn tuple_makers_take_the_parts_in_turn()
    ensures has { (p : Setting) (scope : Scope) (n : Naming) (at : At) (parts : Grounds) →
        OwnNumbersDiffer n at → IsProper (world_of p) (arrows parts (Ground.Tuple parts)) →
        CoreHas (world_of p) (types_in (world_of p) scope) (tuple_maker n at (count_of parts))
        (arrows parts (Ground.Tuple parts)) }
    ensures only { (p : Setting) (scope : Scope) (n : Naming) (at : At) (count : ℕ) (t : Ground) →
        OwnNumbersDiffer n at →
        CoreHas (world_of p) (types_in (world_of p) scope) (tuple_maker n at count) t →
        (parts : Grounds) × (count_of parts ≡ count) × (t ≡ arrows parts (Ground.Tuple parts)) }
{}

/// The maker of an alias of a record has exactly the proper instances of the function from its fields' types to the record.
pub fn alias_makers_have_the_instances_of_their_types()
    ensures has { (p : Setting) (scope : Scope) (n : Naming) (at : At) (m : Maker)
        (fields : WrittenFields) (t : Ground) →
        OwnNumbersDiffer n at → MakesRecord m fields → IsProper (world_of p) t →
        IsInstance (takes_fields fields (Fields None fields)) t →
        CoreHas (world_of p) (types_in (world_of p) scope) (made_by n at m) t }
    ensures only { (p : Setting) (scope : Scope) (n : Naming) (at : At) (m : Maker)
        (fields : WrittenFields) (t : Ground) →
        OwnNumbersDiffer n at → MakesRecord m fields →
        CoreHas (world_of p) (types_in (world_of p) scope) (made_by n at m) t →
        IsInstance (takes_fields fields (Fields None fields)) t }
{}
