ghost use Rattle.std.specs.Prelude.{◌≡◌, ◌↔◌, ◌<◌, ◌⊎◌, ℕ, IsTrue, false, IfOk, List, length, replicate, All};
ghost use Rattle.std.specs.List.{Contains};
ghost use Rattle.bit_rows.specs.Table.{bit_of};
ghost use Rattle.module_groups.specs.Groups.{AreGroups, AreInOne, AreTogether, References};
ghost use Rattle.module_groups.specs.Components.{AreComponents};
ghost use Rattle.module_groups.specs.Search.{SaysWhatReaches, is_taken};

use crate::group::{Component, group_of};
use crate::search::next;
use bit_rows::BitRows;
use elm_base::NoMemory;
use sqlite_items::Items;
use std::alloc::Global;

// Marks these definitions as taken.
fn take(taken: &mut [bool], members: &[usize])
    requires { All (λ member. member < length taken.old) members.now }
    ensures { (a : ℕ) → IsTrue (is_taken taken.new a)
        ↔ (IsTrue (is_taken taken.old a) ⊎ Contains members.now a) }
{
    for member in members {
        taken[*member] = true;
    }
}

// The groups in a closed table, in order. Nothing is taken as the search begins.
fn find_all(
    alloc: Global,
    reached: &BitRows,
    taken: &mut [bool],
    passed: &mut [usize],
) -> Result<Items<Component>, NoMemory>
    requires square { length reached.now.rows ≡ reached.now.bits }
    requires none_taken { taken.old ≡ replicate reached.now.bits false }
    requires none_passed { passed.old ≡ replicate reached.now.bits 0 }
    ensures { IfOk result (λ found. (refers : References) → SaysWhatReaches refers reached.now
        → AreComponents reached.now.bits refers found) }
{
    // Says that all rows have so many bits.
    let _bits = reached.bits();
    let mut found = Items::new(alloc);
    while let Some(first) = next(reached, taken, passed) {
        let group = group_of(alloc, reached, first)?;
        take(taken, group.members.as_slice());
        found.push(group)?;
    }
    Ok(found)
}

// The groups in a closed table, in order.
fn in_order(alloc: Global, reached: &BitRows) -> Result<Items<Component>, NoMemory>
    requires { length reached.now.rows ≡ reached.now.bits }
    ensures { IfOk result (λ found. (refers : References) → SaysWhatReaches refers reached.now
        → AreComponents reached.now.bits refers found) }
{
    let mut taken = vec![in alloc; false; reached.bits()]?;
    let mut passed = vec![in alloc; 0; reached.bits()]?;
    find_all(alloc, reached, taken.as_mut_slice(), passed.as_mut_slice())
}

/// The groups of a block's definitions, in order. The table has a row for each definition, and in it the
/// bits of the definitions to which it refers.
pub fn groups(alloc: Global, references: BitRows) -> Result<Items<Component>, NoMemory>
    requires { length references.rows ≡ references.bits }
    ensures { IfOk result (λ found. AreComponents references.bits (bit_of references) found) }
{
    let mut reached = references;
    // Says that all rows have so many bits.
    let _bits = reached.bits();
    reached.close();
    in_order(alloc, &reached)
}

/// Laws of the groups of a block: two definitions stand in one group exactly where they are the same or each
/// reaches the other, and there is one order of the groups alone.
pub fn groups_are_determined()
    ensures exact { (count : ℕ) (refers : References) (groups : List (List ℕ)) → AreGroups count refers groups
        → (a b : ℕ) → a < count → b < count → AreInOne groups a b ↔ AreTogether refers a b }
    ensures one_order { (count : ℕ) (refers : References) (groups others : List (List ℕ))
        → AreGroups count refers groups → AreGroups count refers others → groups ≡ others }
{}
