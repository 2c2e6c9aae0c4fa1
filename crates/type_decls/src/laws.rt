//! Laws of the declared types and ports of a project.
ghost use Rattle.std.specs.Prelude.{◌≡◌, List};
ghost use Rattle.elm_base.specs.declared.fault.ProjectFault.{ProjectFault};
ghost use Rattle.elm_base.specs.declared.project.Decls.{Decls};
ghost use Rattle.elm_base.specs.declared.tree.Module.{Module};
ghost use Rattle.alias_laws.specs.Once.{AliasesOnce};
ghost use Rattle.decl_faults.specs.Faults.{IsDeclFault};
ghost use Rattle.type_decls.specs.Declaring.{IsDeclared};

/// A project in which no alias is declared twice has one list of declared types and ports alone, and none where it has a fault.
pub fn declarations_are_determined()
    ensures one { (modules : List Module) (first second : Decls) → AliasesOnce modules
        → IsDeclared modules first → IsDeclared modules second → first ≡ second }
    ensures not_both { (modules : List Module) (decls : Decls) (fault : ProjectFault)
        → AliasesOnce modules → IsDeclared modules decls → IsDeclFault modules fault → ⊥ }
{}
