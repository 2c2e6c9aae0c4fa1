//! The references of a block as a table of bits.
ghost use Rattle.std.specs.Prelude.{◌≡◌, ◌<◌, ◌↔◌, ℕ, IsTrue, IfOk, length, slice_get};
ghost use Rattle.bit_rows.specs.Table.{bit_of};
ghost use Rattle.module_blocks.specs.Marks.{Adds};
ghost use Rattle.module_blocks.specs.Refers as spec;

use crate::refers::{names_one, stands_in};
use bit_rows::BitRows;
use elm_base::{At, Name, NoMemory};
use module_names::Use;
use name_steps::Defined;
use std::alloc::Global;

fn mark(table: &mut BitRows, a: usize, b: usize)
    requires height { a < length table.old.rows }
    requires width { b < table.old.bits }
    ensures width { table.new.bits ≡ table.old.bits }
    ensures height { length table.new.rows ≡ length table.old.rows }
    ensures adds { Adds (λ x y. (x ≡ a) × (y ≡ b)) table.old table.new }
{
    // Says that all rows have so many bits.
    let _bits = table.bits();
    table.set(a, b);
}

/// Marks that the definition a refers to each that the use stands for.
fn mark_targets(table: &mut BitRows, a: usize, module: &Name, used: &Use, definitions: &[Defined])
    requires height { a < length table.old.rows }
    requires width { table.old.bits ≡ length definitions.now }
    ensures width { table.new.bits ≡ table.old.bits }
    ensures height { length table.new.rows ≡ length table.old.rows }
    ensures adds { Adds (λ x y. (x ≡ a)
        × IsTrue (spec.names_one «module».now used.now.answer (slice_get definitions.now y)))
        table.old table.new }
{
    for b in 0..definitions.len() {
        if names_one(module, used, definitions, b) {
            mark(table, a, b);
        }
    }
}

/// Marks what the definition in which the use stands refers to by it.
fn mark_use(table: &mut BitRows, module: &Name, used: &Use, definitions: &[Defined], end: At)
    requires height { length table.old.rows ≡ length definitions.now }
    requires width { table.old.bits ≡ length definitions.now }
    ensures width { table.new.bits ≡ table.old.bits }
    ensures height { length table.new.rows ≡ length table.old.rows }
    ensures adds { Adds (λ x y. IsTrue (spec.refers_by «module».now definitions.now end used.now x y))
        table.old table.new }
{
    for a in 0..definitions.len() {
        if stands_in(used, definitions, end, a) {
            mark_targets(table, a, module, used, definitions);
        }
    }
}

fn mark_uses(table: &mut BitRows, module: &Name, uses: &[Use], definitions: &[Defined], end: At)
    requires height { length table.old.rows ≡ length definitions.now }
    requires width { table.old.bits ≡ length definitions.now }
    ensures width { table.new.bits ≡ table.old.bits }
    ensures height { length table.new.rows ≡ length table.old.rows }
    ensures adds { Adds (λ x y. IsTrue (spec.refers_in «module».now definitions.now end uses.now x y))
        table.old table.new }
{
    for used in uses {
        mark_use(table, module, used, definitions, end);
    }
}

/// The references of a block of this module, by the uses in the module: row a has the bit b where the definition a
/// refers to b. The definitions stand in order, and end where `end` says.
pub fn references(
    alloc: Global,
    module: &Name,
    uses: &[Use],
    definitions: &[Defined],
    end: At,
) -> Result<BitRows, NoMemory>
    ensures width { IfOk result (λ table. table.bits ≡ length definitions.now) }
    ensures height { IfOk result (λ table. length table.rows ≡ length definitions.now) }
    ensures exact { IfOk result (λ table. bit_of table ≡ spec.refers_in «module».now definitions.now end uses.now) }
{
    let count = definitions.len();
    let mut table = BitRows::new(alloc, count, count)?;
    mark_uses(&mut table, module, uses, definitions, end);
    Ok(table)
}
