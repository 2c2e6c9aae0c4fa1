//! Each native is safe. The bodies are empty: what is stated holds of the definitions.

ghost use Rattle.std.specs.Prelude.{◌≡◌, ℕ, Some};
ghost use Rattle.elm_meaning.specs.NativeTable.{Native, native_at};
ghost use Rattle.typing_rules.specs.WrittenTypes.{Written};
ghost use Rattle.typing_rules.specs.Library.{signature_of};
ghost use Rattle.typing_sound.specs.Safe.{IsSafeNative};
ghost use Rattle.typing_sound.specs.Settings.{Setting, world_of};

/// Given values of its argument types, each native replies with a value of its result type or with a fault, and each
/// native of signals makes an equation that stands for the call.
pub fn natives_are_safe()
    ensures { (p : Setting) (number : ℕ) (native : Native) (written : Written) →
        native_at number ≡ Some native → signature_of number ≡ Some written →
        IsSafeNative (world_of p) number native written }
{}
