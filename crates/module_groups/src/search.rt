ghost use Rattle.std.specs.Prelude.{◌≡◌, ◌<◌, ℕ, true, false, IsTrue, List, length, slice_index};
ghost use Rattle.module_groups.specs.Search.{IsFirstFree, IsFree, WaitsForNoneBelow, waits_for};

use bit_rows::BitRows;

// Whether a reaches c, which doesn't reach it and isn't taken.
fn waits(reached: &BitRows, taken: &[bool], a: usize, c: usize) -> bool
    requires square { length reached.now.rows ≡ reached.now.bits }
    requires each { length taken.now ≡ reached.now.bits }
    requires a_in { a < reached.now.bits }
    requires c_in { c < reached.now.bits }
    ensures { result ≡ waits_for reached.now taken.now a c }
{
    reached.get(a, c) && !reached.get(c, a) && !taken[c]
}

// Whether a definition waits for nothing. It is known to wait for nothing below `passed`, which moves on.
fn is_free(reached: &BitRows, taken: &[bool], a: usize, passed: &mut usize) -> bool
    requires square { length reached.now.rows ≡ reached.now.bits }
    requires each { length taken.now ≡ reached.now.bits }
    requires a_in { a < reached.now.bits }
    requires behind { WaitsForNoneBelow reached.now taken.now a passed.old }
    ensures behind { WaitsForNoneBelow reached.now taken.now a passed.new }
    ensures yes { IsTrue result → IsFree reached.now taken.now a }
    ensures no { result ≡ false → (c : ℕ) × (waits_for reached.now taken.now a c ≡ true) }
{
    for c in *passed..reached.bits() {
        if waits(reached, taken, a, c) {
            *passed = c;
            return false;
        }
    }
    *passed = reached.bits();
    true
}

// The first definition that isn't taken and waits for nothing. Each is known to wait for nothing below its number in
// `passed`: as these numbers only rise, all searches together look at each pair of definitions once.
pub fn next(reached: &BitRows, taken: &[bool], passed: &mut [usize]) -> Option<usize>
    requires square { length reached.now.rows ≡ reached.now.bits }
    requires each { length taken.now ≡ reached.now.bits }
    requires each_passed { length passed.old ≡ reached.now.bits }
    requires behind { (a : ℕ) → WaitsForNoneBelow reached.now taken.now a (slice_index passed.old a) }
    ensures behind { (a : ℕ) → WaitsForNoneBelow reached.now taken.now a (slice_index passed.new a) }
    ensures first { IsFirstFree reached.now.bits reached.now taken.now result }
{
    for a in 0..reached.bits() {
        if !taken[a] && is_free(reached, taken, a, &mut passed[a]) {
            return Some(a);
        }
    }
    None
}
