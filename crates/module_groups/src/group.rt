ghost use Rattle.std.specs.Prelude.{◌≡◌, ◌<◌, ◌↔◌, IsTrue, IfOk, length, All};
ghost use Rattle.bit_rows.specs.Table.{bit_of};
ghost use Rattle.module_groups.specs.Groups.{HoldsValue, IsCyclicValue, ReachesItself, References, is_function};
ghost use Rattle.module_groups.specs.Search.{members_below, together};

use bit_rows::BitRows;
use elm_base::NoMemory;
use sqlite_items::Items;
use std::alloc::Global;

/// A group of a block's definitions.
#[derive(Drop)]
pub struct Component {
    /// The numbers of the definitions, in order of place.
    pub members: Items<usize>,
    /// Whether a member reaches a member.
    pub recursive: bool,
}

// Whether two definitions are the same, or each reaches the other.
fn are_together(reached: &BitRows, a: usize, b: usize) -> bool
    requires square { length reached.now.rows ≡ reached.now.bits }
    requires a_in { a < reached.now.bits }
    requires b_in { b < reached.now.bits }
    ensures { result ≡ together reached.now a b }
{
    a == b || (reached.get(a, b) && reached.get(b, a))
}

// The group of one of its definitions.
pub fn group_of(alloc: Global, reached: &BitRows, a: usize) -> Result<Component, NoMemory>
    requires square { length reached.now.rows ≡ reached.now.bits }
    requires a_in { a < reached.now.bits }
    ensures members { IfOk result (λ group. group.members ≡ members_below reached.now a
        reached.now.bits) }
    ensures recursive { IfOk result (λ group. group.recursive ≡ bit_of reached.now a a) }
{
    let mut members = Items::new(alloc);
    for b in 0..reached.bits() {
        if are_together(reached, a, b) {
            members.push(b)?;
        }
    }
    let recursive = reached.get(a, a);
    Ok(Component { members, recursive })
}

// Whether one of these definitions isn't a function.
fn holds_value(members: &[usize], functions: &[bool]) -> bool
    requires { All (λ member. member < length functions.now) members.now }
    ensures { IsTrue result ↔ HoldsValue (is_function functions.now) members.now }
{
    for member in members {
        if !functions[*member] {
            return true;
        }
    }
    false
}

impl Component {
    /// Whether the group reaches itself without being one of functions alone, which is a fault. `functions` says of
    /// each definition of the block whether it is a function: it has a parameter, or its right side is a lambda.
    pub fn is_cyclic_value(&self, functions: &[bool]) -> bool
        requires { All (λ member. member < length functions.now) self.now.members }
        ensures { (refers : References) → (IsTrue self.now.recursive ↔ ReachesItself refers self.now.members)
            → (IsTrue result ↔ IsCyclicValue refers (is_function functions.now) self.now.members) }
    {
        self.recursive && holds_value(self.members.as_slice(), functions)
    }
}
