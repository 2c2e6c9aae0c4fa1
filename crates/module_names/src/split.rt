//! Names with the name of a module before them.
ghost use Rattle.std.specs.Prelude.{◌≡◌, ℕ, ◌==◌, not, true};
ghost use Rattle.std.specs.List.{suffix_len};
ghost use Rattle.module_names.specs.Split as spec;

/// How many bytes stand behind the last point.
fn base_len(name: &[u8]) -> usize
    ensures { result ≡ suffix_len (λ byte. not (byte == 46)) name.now }
{
    name.iter().rev().take_while(|byte| **byte != b'.').count()
}

fn begins_upper(name: &[u8]) -> bool
    ensures { result ≡ spec.begins_upper name.now }
{
    match name {
        [] => false,
        [first, ..] => (b'A' <= *first) && (*first <= b'Z'),
    }
}

/// Whether the name has a module's name before it.
pub fn is_qualified(name: &[u8]) -> bool
    ensures { result ≡ spec.is_qualified name.now }
{
    begins_upper(name) && base_len(name) < name.len()
}

/// The module's name before a name.
#[tactic(auto, using(crate::proofs::Suffixes::base_len_within))]
pub fn qualifier_of(name: &[u8]) -> &[u8]
    requires { spec.is_qualified name.now ≡ true }
    ensures { result.now ≡ spec.qualifier_of name.now }
{
    &name[..name.len() - base_len(name) - 1]
}

/// The name itself, without the module's before it.
#[tactic(auto, using(crate::proofs::Suffixes::base_len_within))]
pub fn base_of(name: &[u8]) -> &[u8]
    ensures { result.now ≡ spec.base_of name.now }
{
    &name[name.len() - base_len(name)..]
}
