//! What is wrong in the texts of a module's types.
ghost use Rattle.std.specs.Prelude.{◌≡◌, ◌<◌, ◌∷◌, [], ◌++◌, OnOk, IfOk, length, slice_get};
ghost use Rattle.bit_rows.specs.Table.{bit_of};
ghost use Rattle.type_names.specs.Answers.{places_of};
ghost use Rattle.let_annotations.specs.Annotations.{inside};
ghost use Rattle.type_faults.specs.Flaws as spec;

use alias_cycles::AliasText;
use bit_rows::BitRows;
use elm_base::{At, Declaration, FaultKind, Module, Name, NoMemory, Spot};
use let_annotations::{LetAnnotation, push_annotations};
use module_names::{Flaw, defaults_for};
use sqlite_items::{Items, at};
use std::alloc::Global;
use type_names::{KnownType, TypeScope, Variables, push_flaws, push_flaws_of};

/// Whether the alias with this number is that of this module and name.
fn is_called(aliases: &[AliasText], module: &Name, name: &Name, a: usize) -> bool
    ensures { result ≡ spec.is_called «module».now name.now (slice_get aliases.now a) }
{
    match at(aliases, a) {
        None => false,
        Some(alias) => alias.module.bytes() == module.bytes() && alias.name.bytes() == name.bytes(),
    }
}

/// Whether it is, and leads back to itself.
fn leads_back(
    aliases: &[AliasText],
    reached: &BitRows,
    module: &Name,
    name: &Name,
    a: usize,
) -> bool
    requires height { length reached.now.rows ≡ length aliases.now }
    requires width { reached.now.bits ≡ length aliases.now }
    requires a_in { a < length aliases.now }
    ensures { result ≡ spec.leads_back aliases.now (bit_of reached.now) «module».now name.now a }
{
    is_called(aliases, module, name, a) && reached.get(a, a)
}

/// Whether the alias of this module and name leads back to itself.
fn is_endless(aliases: &[AliasText], reached: &BitRows, module: &Name, name: &Name) -> bool
    requires height { length reached.now.rows ≡ length aliases.now }
    requires width { reached.now.bits ≡ length aliases.now }
    ensures { result ≡ spec.is_endless aliases.now (bit_of reached.now) «module».now name.now }
{
    for a in 0..aliases.len() {
        if leads_back(aliases, reached, module, name, a) {
            return true;
        }
    }
    false
}

fn push_endless(
    alloc: Global,
    aliases: &[AliasText],
    reached: &BitRows,
    module: &Name,
    spot: &Spot,
    out: &mut Items<Spot>,
) -> Result<(), NoMemory>
    requires height { length reached.now.rows ≡ length aliases.now }
    requires width { reached.now.bits ≡ length aliases.now }
    ensures { OnOk result (out.new ≡ out.old
        ++ spec.endless_by aliases.now (bit_of reached.now) «module».now spot.now) }
{
    if !is_endless(aliases, reached, module, &spot.name) {
        return Ok(());
    }
    out.push(spot.copy(alloc)?)?;
    Ok(())
}

fn push_endless_of(
    alloc: Global,
    aliases: &[AliasText],
    reached: &BitRows,
    module: &Name,
    declaration: &Declaration,
    out: &mut Items<Spot>,
) -> Result<(), NoMemory>
    requires height { length reached.now.rows ≡ length aliases.now }
    requires width { reached.now.bits ≡ length aliases.now }
    ensures { OnOk result (out.new ≡ out.old
        ++ spec.endless_of aliases.now (bit_of reached.now) «module».now declaration.now) }
{
    match declaration {
        Declaration::Alias { name, .. } => push_endless(alloc, aliases, reached, module, name, out),
        _ => Ok(()),
    }
}

/// Where a declaration begins.
fn place_of(declaration: &Declaration) -> At
    ensures { result ≡ spec.place_of declaration.now }
{
    match declaration {
        Declaration::Union { at, .. }
        | Declaration::Alias { at, .. }
        | Declaration::Annotation { at, .. }
        | Declaration::Definition { at, .. }
        | Declaration::PatternDefinition { at, .. }
        | Declaration::PortAnnotation { at, .. }
        | Declaration::PortDefinition { at, .. }
        | Declaration::Levels { at, .. }
        | Declaration::Native { at, .. }
        | Declaration::Device { at, .. }
        | Declaration::Opaque { at, .. } => *at,
    }
}

/// Appends the fault at a place that has the first of these names.
fn push_fault(alloc: Global, at: At, wrong: &[Spot], out: &mut Items<Flaw>) -> Result<(), NoMemory>
    ensures { OnOk result (out.new ≡ out.old ++ spec.fault_at at wrong.now) }
{
    match wrong {
        [] => Ok(()),
        [first, ..] => {
            let name = first.name.copy(alloc)?;
            let kind = FaultKind::BadType;
            out.push(Flaw { at, kind, name })?;
            Ok(())
        }
    }
}

fn push_own_fault(
    alloc: Global,
    scope: &TypeScope<'_>,
    aliases: &[AliasText],
    reached: &BitRows,
    declaration: &Declaration,
    out: &mut Items<Flaw>,
) -> Result<(), NoMemory>
    requires height { length reached.now.rows ≡ length aliases.now }
    requires width { reached.now.bits ≡ length aliases.now }
    ensures { OnOk result (out.new ≡ out.old
        ++ spec.own_fault (places_of scope.now) aliases.now (bit_of reached.now) declaration.now) }
{
    let mut wrong = Items::new(alloc);
    push_flaws_of(alloc, scope, declaration, &mut wrong)?;
    push_endless_of(alloc, aliases, reached, scope.name, declaration, &mut wrong)?;
    push_fault(alloc, place_of(declaration), wrong.as_slice(), out)
}

fn push_let_fault(
    alloc: Global,
    scope: &TypeScope<'_>,
    annotation: &LetAnnotation,
    out: &mut Items<Flaw>,
) -> Result<(), NoMemory>
    ensures { OnOk result (out.new ≡ out.old ++ spec.let_fault (places_of scope.now) annotation.now) }
{
    let mut wrong = Items::new(alloc);
    push_flaws(
        alloc,
        scope,
        Variables::Numbers,
        &[],
        &annotation.written,
        &mut wrong,
    )?;
    push_fault(alloc, annotation.at, wrong.as_slice(), out)
}

fn push_let_faults(
    alloc: Global,
    scope: &TypeScope<'_>,
    annotations: &[LetAnnotation],
    out: &mut Items<Flaw>,
) -> Result<(), NoMemory>
    ensures { OnOk result (out.new ≡ out.old
        ++ spec.let_faults (places_of scope.now) annotations.now) }
{
    for annotation in annotations {
        push_let_fault(alloc, scope, annotation, out)?;
    }
    Ok(())
}

fn push_inside(
    alloc: Global,
    scope: &TypeScope<'_>,
    declaration: &Declaration,
    out: &mut Items<Flaw>,
) -> Result<(), NoMemory>
    ensures { OnOk result (out.new ≡ out.old
        ++ spec.let_faults (places_of scope.now) (inside declaration.now)) }
{
    let mut annotations = Items::new(alloc);
    push_annotations(alloc, declaration, &mut annotations)?;
    push_let_faults(alloc, scope, annotations.as_slice(), out)
}

fn push_all(
    alloc: Global,
    scope: &TypeScope<'_>,
    aliases: &[AliasText],
    reached: &BitRows,
    declarations: &[Declaration],
    out: &mut Items<Flaw>,
) -> Result<(), NoMemory>
    requires height { length reached.now.rows ≡ length aliases.now }
    requires width { reached.now.bits ≡ length aliases.now }
    ensures { OnOk result (out.new ≡ out.old
        ++ spec.faults_of_all (places_of scope.now) aliases.now (bit_of reached.now) declarations.now) }
{
    for declaration in declarations {
        push_own_fault(alloc, scope, aliases, reached, declaration, out)?;
        push_inside(alloc, scope, declaration, out)?;
    }
    Ok(())
}

/// What is wrong in the texts of a module's types, where its project declares these types and has these aliases.
pub fn faults_in(
    alloc: Global,
    types: &[KnownType],
    aliases: &[AliasText],
    reached: &BitRows,
    home: &Module,
) -> Result<Items<Flaw>, NoMemory>
    requires height { length reached.now.rows ≡ length aliases.now }
    requires width { reached.now.bits ≡ length aliases.now }
    ensures { IfOk result (λ faults. faults
        ≡ spec.faults_in types.now aliases.now (bit_of reached.now) home.now) }
{
    let defaults = defaults_for(alloc, home.name.bytes())?;
    let scope = TypeScope {
        types,
        name: &home.name,
        defaults: defaults.as_slice(),
        imports: home.imports.as_slice(),
    };
    let declarations = home.declarations.as_slice();
    let mut faults = Items::new(alloc);
    push_all(alloc, &scope, aliases, reached, declarations, &mut faults)?;
    Ok(faults)
}
