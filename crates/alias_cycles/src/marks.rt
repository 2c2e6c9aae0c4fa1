//! Which alias reaches which, as a table of bits.
ghost use Rattle.std.specs.Prelude.{◌≡◌, ◌<◌, ◌↔◌, ℕ, IsTrue, IfOk, length, slice_get};
ghost use Rattle.std.specs.List.{list_any};
ghost use Rattle.bit_rows.specs.Table.{bit_of};
ghost use Rattle.module_blocks.specs.Marks.{Adds};
ghost use Rattle.module_groups.specs.Search.{SaysWhatReaches};
ghost use Rattle.alias_cycles.specs.Cycles as spec;

use crate::texts::AliasText;
use bit_rows::BitRows;
use elm_base::NoMemory;
use sqlite_items::at;
use std::alloc::Global;
use type_names::KnownType;

fn is_alias(alias: &AliasText, ty: &KnownType) -> bool
    ensures { result ≡ spec.is_alias alias.now ty.now }
{
    ty.module.bytes() == alias.module.bytes() && ty.name.bytes() == alias.name.bytes()
}

fn some_is(alias: &AliasText, types: &[KnownType]) -> bool
    ensures { result ≡ list_any (spec.is_alias alias.now) types.now }
{
    for ty in types {
        if is_alias(alias, ty) {
            return true;
        }
    }
    false
}

/// Whether the text of the alias a names the alias b.
fn refers(aliases: &[AliasText], a: usize, b: usize) -> bool
    ensures { result ≡ spec.refers aliases.now a b }
{
    match (at(aliases, a), at(aliases, b)) {
        (Some(alias), Some(other)) => some_is(other, alias.names.as_slice()),
        _ => false,
    }
}

fn mark(table: &mut BitRows, a: usize, b: usize)
    requires height { a < length table.old.rows }
    requires width { b < table.old.bits }
    ensures width { table.new.bits ≡ table.old.bits }
    ensures height { length table.new.rows ≡ length table.old.rows }
    ensures adds { Adds (λ x y. (x ≡ a) × (y ≡ b)) table.old table.new }
{
    // Says that all rows have so many bits.
    let _bits = table.bits();
    table.set(a, b);
}

/// Marks the aliases that the text of the alias a names.
fn mark_named(table: &mut BitRows, aliases: &[AliasText], a: usize)
    requires height { a < length table.old.rows }
    requires width { table.old.bits ≡ length aliases.now }
    ensures width { table.new.bits ≡ table.old.bits }
    ensures height { length table.new.rows ≡ length table.old.rows }
    ensures adds { Adds (λ x y. (x ≡ a) × IsTrue (spec.refers aliases.now a y)) table.old table.new }
{
    for b in 0..aliases.len() {
        if refers(aliases, a, b) {
            mark(table, a, b);
        }
    }
}

fn mark_all(table: &mut BitRows, aliases: &[AliasText])
    requires height { length table.old.rows ≡ length aliases.now }
    requires width { table.old.bits ≡ length aliases.now }
    ensures width { table.new.bits ≡ table.old.bits }
    ensures height { length table.new.rows ≡ length table.old.rows }
    ensures adds { Adds (λ x y. IsTrue (spec.refers aliases.now x y)) table.old table.new }
{
    for a in 0..aliases.len() {
        mark_named(table, aliases, a);
    }
}

fn references(alloc: Global, aliases: &[AliasText]) -> Result<BitRows, NoMemory>
    ensures width { IfOk result (λ table. table.bits ≡ length aliases.now) }
    ensures height { IfOk result (λ table. length table.rows ≡ length aliases.now) }
    ensures exact { IfOk result (λ table. bit_of table ≡ spec.refers aliases.now) }
{
    let count = aliases.len();
    let mut table = BitRows::new(alloc, count, count)?;
    mark_all(&mut table, aliases);
    Ok(table)
}

/// Which of these aliases reaches which: row a has the bit b where a chain of aliases, each named in the text of the one before,
/// leads from a to b. An alias that reaches itself has its own bit.
pub fn reached(alloc: Global, aliases: &[AliasText]) -> Result<BitRows, NoMemory>
    ensures width { IfOk result (λ table. table.bits ≡ length aliases.now) }
    ensures height { IfOk result (λ table. length table.rows ≡ length aliases.now) }
    ensures exact { IfOk result (λ table. SaysWhatReaches (spec.refers aliases.now) table) }
{
    let mut table = references(alloc, aliases)?;
    // Says that all rows have so many bits.
    let _bits = table.bits();
    table.close();
    Ok(table)
}
