//! Verified modules.

ghost use Rattle.std.specs.Prelude.{◌≡◌, ◌<◌, Some, ℕ};
ghost use Rattle.std.specs.List.{slice_get};
ghost use Rattle.pb_sorts.specs.Layout.{count_of};
ghost use Rattle.pb_bytecode.specs.Contents.{EquationContents};
ghost use Rattle.pb_bytecode.specs.Decoded.{module_contents};
ghost use Rattle.pb_bytecode.specs.Meaning.{initial_of, parameters, program_of};

use pb_bytecode::Module;
use pb_sorts::Layout;
use std::marker::Model;

/// A module whose code is accepted (`specs/Acceptance.antt`), with the layout of its instances and
/// the number of the initial one. Contracts see what the module says.
#[derive(Drop)]
pub struct Verified {
    module: Module,
    layout: Layout,
    initial: u64,
}

impl Model for Verified {
    ghost use Rattle.pb_bytecode.specs.Contents.{Contents};
    ghost use Rattle.pb_bytecode.specs.Decoded.{module_contents};
    ghost use Rattle.pb_verifier.specs.Acceptance.{IsInitialNumber, IsVerified};

    ghost Value = { Contents };

    ghost view = { λ verified. module_contents verified.module };

    ghost invariant = { λ verified. IsVerified (module_contents verified.module) verified.layout
        × IsInitialNumber (module_contents verified.module) verified.initial };
}

impl Verified {
    ghost use Rattle.pb_verifier.specs.Acceptance.{IsAccepted, IsInitialNumber, IsVerified};
    ghost use Rattle.pb_verifier.specs.Acceptance.{RunsSafely};

    /// A module whose code was found to be accepted.
    pub(crate) fn new(accepted: Module, layout: Layout, initial: u64) -> Verified
        requires accepted { IsVerified (module_contents accepted) layout }
        requires initial { IsInitialNumber (module_contents accepted) initial }
        ensures { result ≡ module_contents accepted }
    {
        Verified {
            module: accepted,
            layout,
            initial,
        }
    }

    /// The module, which is the one that was verified.
    pub fn module(&self) -> &Module
        ensures { module_contents result.now ≡ self.now }
    {
        &self.module
    }

    /// The numbers of the module's instances. Instances that its code calls are those of this
    /// layout.
    pub fn layout(&self) -> &Layout
        ensures { result.now ≡ parameters self.now }
    {
        &self.layout
    }

    /// The number of the initial instance, whose truth is the module's answer.
    pub fn initial(&self) -> u64
        ensures number { result ≡ initial_of self.now }
        ensures inside { result < count_of (parameters self.now) }
    {
        self.initial
    }

    /// The law of verified modules, for crates above to call where they need it: the code of each
    /// equation, run on any arguments of its parameters' carriers, never faults, and ends within
    /// the steps and tokens that it states. The function does nothing.
    pub fn runs_safely(&self)
        ensures accepted { IsAccepted self.now }
        ensures safe { (k : ℕ) (e : EquationContents) → slice_get self.now.equations k ≡ Some e
            → RunsSafely (program_of self.now e) }
    {
        let _ = &self.module;
        pb_bytecode_program::accepted_is_safe();
    }
}
