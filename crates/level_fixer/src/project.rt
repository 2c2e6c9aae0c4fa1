//! Levels applied to the modules of a project, and the project's first fault.
ghost use Rattle.std.specs.Prelude.{◌≡◌, ◌≢◌, ◌++◌, map, flat_map, None, Some, option_map, IfOk, IfErr, OnOk};
ghost use Rattle.elm_base.specs.declared.memory.Halt.TheVariants as halt;
ghost use Rattle.level_fixer.specs.Clashes.{expr_clashes};
ghost use Rattle.level_fixer.specs.FixedTrees.{fixed_declaration, fixed_expr, fixed_module, fixed_project};
ghost use Rattle.level_fixer.specs.Fixing.{Judges, Settles};
ghost use Rattle.level_fixer.specs.ProjectLevels as spec;
ghost use Rattle.operator_trees.specs.Levels.{binding_of};

use crate::trees::fix_expr;
use crate::turns::{kept, turned};
use elm_base::{
    At, Declaration, Expr, FaultKind, Halt, Module, Name, NoMemory, Operator, Project,
    ProjectFault, Side,
};
use operator_trees::{Binding, Clash, Levels};
use sqlite_items::Items;
use std::alloc::Global;

/// No tree in memory is so deep.
const DEPTH: usize = usize::MAX;

fn is_same_side(first: Side, second: Side) -> bool
    ensures { result ≡ spec.same_side first second }
{
    match (first, second) {
        (Side::Left, Side::Left) => true,
        (Side::Right, Side::Right) => true,
        (Side::Neither, Side::Neither) => true,
        _ => false,
    }
}

fn is_same(first: Binding, second: Binding) -> bool
    ensures { result ≡ spec.same_binding first second }
{
    first.level == second.level && is_same_side(first.side, second.side)
}

/// The fault of the declaration at the place, about the name.
fn fault_at(alloc: Global, home: &Name, at: At, name: &[u8]) -> Result<ProjectFault, NoMemory>
    ensures { IfOk result (λ fault. fault ≡ spec.bad_fixity home.now at name.now) }
{
    let module = home.copy(alloc)?;
    let name = Name::of(alloc, name)?;
    Ok(ProjectFault {
        module,
        line: at.line,
        kind: FaultKind::BadFixity,
        name,
    })
}

/// That fault as a reason to stop.
fn bad_fixity(alloc: Global, home: &Name, at: At, name: &[u8]) -> Halt<ProjectFault>
    ensures { result ≢ halt.NoMemory
        → result ≡ halt.Because (spec.bad_fixity home.now at name.now) }
{
    match fault_at(alloc, home, at, name) {
        Ok(fault) => Halt::Because(fault),
        Err(NoMemory) => Halt::NoMemory,
    }
}

/// Levels applied to what the declaration at the place defines.
fn fix_body(
    alloc: Global,
    levels: &Levels,
    home: &Name,
    at: At,
    name: &[u8],
    body: &mut Expr,
) -> Result<(), Halt<ProjectFault>>
    ensures { Settles
        (λ body. spec.clash_at home.now at name.now (expr_clashes levels.now.declared body))
        (fixed_expr levels.now.declared) body.old body.new result }
{
    match fix_expr(alloc, levels, DEPTH, body) {
        Ok(()) => Ok(()),
        Err(Halt::Because(Clash)) => Err(bad_fixity(alloc, home, at, name)),
        Err(Halt::NoMemory) => Err(Halt::NoMemory),
    }
}

/// Refused where another level or side counts for the operator.
fn check_level(
    alloc: Global,
    levels: &Levels,
    home: &Name,
    at: At,
    operator: &Operator,
    own: Binding,
) -> Result<(), Halt<ProjectFault>>
    ensures { Judges (spec.level_at home.now at operator.now.name
        (binding_of levels.now.declared operator.now.name) own) result }
{
    let counts = levels.binding(operator.name.bytes());
    let same = is_same(counts, own);
    if same {
        Ok(())
    } else {
        Err(bad_fixity(alloc, home, at, operator.name.bytes()))
    }
}

/// Levels applied to a declaration of the module.
fn fix_top(
    alloc: Global,
    levels: &Levels,
    home: &Name,
    tree: &mut Declaration,
) -> Result<(), Halt<ProjectFault>>
    ensures { Settles (spec.declaration_fault levels.now.declared home.now)
        (fixed_declaration levels.now.declared) tree.old tree.new result }
{
    match tree {
        Declaration::Definition { at, name, body, .. } => {
            fix_body(alloc, levels, home, *at, name.bytes(), body)?;
            Ok(())
        }
        Declaration::PatternDefinition { at, body, .. } => {
            fix_body(alloc, levels, home, *at, &[], body)?;
            Ok(())
        }
        Declaration::PortDefinition { at, name, body } => {
            fix_body(alloc, levels, home, *at, name.name.bytes(), body)?;
            Ok(())
        }
        Declaration::Levels {
            at,
            side,
            level,
            operator,
        } => {
            let own = Binding {
                level: *level,
                side: *side,
            };
            check_level(alloc, levels, home, *at, operator, own)?;
            Ok(())
        }
        _ => Ok(()),
    }
}

fn fix_tops(
    alloc: Global,
    levels: &Levels,
    home: &Name,
    declarations: &mut Items<Declaration>,
) -> Result<(), Halt<ProjectFault>>
    ensures { Settles
        (λ trees. spec.first_of (map (spec.declaration_fault levels.now.declared home.now) trees))
        (map (fixed_declaration levels.now.declared))
        declarations.old declarations.new result }
{
    let mut waiting = turned(alloc, declarations)?;
    'turns: while let Some(mut declaration) = waiting.pop() {
        let outcome = fix_top(alloc, levels, home, &mut declaration);
        kept(declarations, declaration, outcome)?;
    }
    Ok(())
}

fn fix_module(alloc: Global, levels: &Levels, tree: &mut Module) -> Result<(), Halt<ProjectFault>>
    ensures { Settles (spec.module_fault levels.now.declared)
        (fixed_module levels.now.declared) tree.old tree.new result }
{
    fix_tops(alloc, levels, &tree.name, &mut tree.declarations)?;
    Ok(())
}

fn fix_modules(
    alloc: Global,
    levels: &Levels,
    modules: &mut Items<Module>,
) -> Result<(), Halt<ProjectFault>>
    ensures { Settles (λ trees. spec.first_of (map (spec.module_fault levels.now.declared) trees))
        (map (fixed_module levels.now.declared)) modules.old modules.new result }
{
    let mut waiting = turned(alloc, modules)?;
    'turns: while let Some(mut tree) = waiting.pop() {
        let outcome = fix_module(alloc, levels, &mut tree);
        kept(modules, tree, outcome)?;
    }
    Ok(())
}

/// What the declaration tells of an operator is declared.
fn declare(alloc: Global, tree: &Declaration, levels: &mut Levels) -> Result<(), NoMemory>
    ensures { OnOk result (levels.new.declared ≡ levels.old.declared ++ spec.declares tree.now) }
{
    match tree {
        Declaration::Levels {
            side,
            level,
            operator,
            ..
        } => {
            let name = operator.name.copy(alloc)?;
            let binding = Binding {
                level: *level,
                side: *side,
            };
            levels.declare(name, binding)?;
            Ok(())
        }
        _ => Ok(()),
    }
}

fn declare_all(alloc: Global, trees: &[Declaration], levels: &mut Levels) -> Result<(), NoMemory>
    ensures { OnOk result
        (levels.new.declared ≡ levels.old.declared ++ flat_map spec.declares trees.now) }
{
    for tree in trees {
        declare(alloc, tree, levels)?;
    }
    Ok(())
}

/// The levels that the modules declare, in order.
fn declared(alloc: Global, modules: &[Module]) -> Result<Levels, NoMemory>
    ensures { IfOk result (λ levels. levels.declared
        ≡ flat_map (λ m. flat_map spec.declares m.declarations) modules.now) }
{
    let mut levels = Levels::new(alloc);
    for tree in modules {
        declare_all(alloc, tree.declarations.as_slice(), &mut levels)?;
    }
    Ok(levels)
}

/// The project with the tree of each chain in the chain's place, and all else as it was. Refused with the first fault in
/// module order, then by line, where a declaration gives an operator another level or side than what counts for it, or has a
/// chain without a tree. What the language declares counts, and then the first declaration in the project.
pub fn fix(alloc: Global, project: Project) -> Result<Project, Halt<ProjectFault>>
    ensures sound { IfOk result (λ _. spec.project_fault project ≡ None) }
    ensures fixed { IfOk result (λ fixed. fixed ≡ fixed_project project) }
    ensures refused { IfErr result (λ cause. cause ≢ halt.NoMemory
        → option_map halt.Because (spec.project_fault project) ≡ Some cause) }
{
    let Project { mut modules } = project;
    let levels = declared(alloc, modules.as_slice())?;
    match fix_modules(alloc, &levels, &mut modules) {
        Ok(()) => Ok(Project { modules }),
        Err(cause) => Err(cause),
    }
}
