//! The values of a program's top level have the types of their names, group by group. The bodies are empty: what is
//! stated holds of the definitions.

ghost use Rattle.std.specs.Prelude.{◌≡◌, ℕ, Some, None, List, [], ◌∷◌, ◌++◌, length, false};
ghost use Rattle.elm_typing.specs.Ground.{Ground};
ghost use Rattle.elm_meaning.specs.FreeNames.{is_among};
ghost use Rattle.elm_meaning.specs.Values.{Value};
ghost use Rattle.elm_meaning.specs.Progress.{Stage, State, Returns};
ghost use Rattle.elm_meaning.specs.Evaluation.{eval};
ghost use Rattle.typing_rules.specs.Core.{erased};
ghost use Rattle.typing_rules.specs.Nodes.{AreWellTyped};
ghost use Rattle.typing_rules.specs.TopGroups.{Definition, TopsHave};
ghost use Rattle.signal_meaning.specs.StageOne.{Start, Cause, stage_one_of};
ghost use Rattle.typing_sound.specs.Programs.{GroupsStand, trees_of, IsAcceptedProgram, HasTypings};
ghost use Rattle.typing_sound.specs.SafeEndings.{TopsTyped};
ghost use Rattle.typing_sound.specs.Settings.{Setting, with_simple_types, before_nodes, world_of};
ghost use Rattle.typing_sound.specs.TopValues.{tops_in, GroupsAreBelow, AreNumbered, AreFunctions, with_one_more};

/// Before the first group there are no top values.
pub fn the_first_group_needs_no_values()
    ensures { (p : Setting) (stage : Stage) → p.groups ≡ [] → TopsTyped (world_of p) stage [] }
{}

/// A definition that doesn't refer to itself gives a value with all types of its name, behind the values before it.
pub fn a_value_joins_the_top_values()
    ensures { (p : Setting) (d : Definition) (tops : List Value) (stage : Stage) (fuel : ℕ)
        (v : Value) (s : State)
        (types : List Ground) →
        GroupsAreBelow (length tops) p.groups → d.top ≡ length tops →
        is_among d.top (tops_in d.body) ≡ false →
        TopsTyped (world_of p) stage tops → TopsHave (before_nodes p) (d ∷ []) types →
        eval tops stage (erased d.body) fuel ≡ Returns v s →
        TopsTyped (world_of (with_one_more (d ∷ []) p)) s.stage (tops ++ v ∷ []) }
{}

/// Functions that may refer to each other have all types of their names, and are made without a node.
pub fn functions_join_the_top_values()
    ensures { (p : Setting) (ds : List Definition) (tops vs : List Value) (stage : Stage) →
        GroupsAreBelow (length tops) p.groups → AreNumbered (length tops) ds →
        TopsTyped (world_of p) stage tops → AreFunctions tops stage ds vs →
        TopsTyped (world_of (with_one_more ds p)) stage (tops ++ vs) }
{}

/// Stage one of a program whose groups are accepted always has a rule: it ends with all top values or with a fault. Its top
/// values have all types of their names. Its equations are well typed in order where every opaque type is simple, whichever
/// sorts the groups were accepted with, and also where stage one ends with a fault. So they are with any other sorts with
/// which all groups have typings.
pub fn stage_one_is_safe()
    ensures rules { (p : Setting) (start : Start) → start.tops ≡ trees_of p.groups →
        GroupsStand 0 p.groups → IsAcceptedProgram p →
        (stage_one_of start).stop ≡ Some Cause.NoRule → ⊥ }
    ensures values { (p : Setting) (start : Start) → start.tops ≡ trees_of p.groups →
        GroupsStand 0 p.groups → IsAcceptedProgram p →
        (stage_one_of start).stop ≡ None →
        TopsTyped (world_of p) (Some (stage_one_of start).equations) (stage_one_of start).values }
    ensures equations { (p : Setting) (start : Start) → start.tops ≡ trees_of p.groups →
        GroupsStand 0 p.groups → IsAcceptedProgram p →
        AreWellTyped (stage_one_of start).equations (world_of (with_simple_types p)) }
    ensures equations_with_sorts { (p : Setting) (start : Start) →
        start.tops ≡ trees_of p.groups →
        GroupsStand 0 p.groups → IsAcceptedProgram p → HasTypings p →
        AreWellTyped (stage_one_of start).equations (world_of p) }
{}
