//! Names that equations are given, one after another.

ghost use Rattle.std.specs.Prelude.{◌≡◌, ◌∷◌, [], true, List, OnOk};
ghost use Rattle.pb_base.specs.Names.{is_spelled};
ghost use Rattle.pb_text_meaning.specs.Syntax.{Name};
ghost use Rattle.pb_model_names.specs.Naming.{Begins, Gives, GivesName};
ghost use Rattle.pb_model_names.specs.View.{bytes_of};
ghost use Rattle.pb_model_translation.specs.Names.{fixpoint_named, operand_named};

use crate::bare_name::BareName;
use crate::taken::Taken;
use std::alloc::{AllocError, Global};

/// The names that equations are given so far, in order. Those are taken, and for the equation of an
/// operand the variables of fixpoints too.
#[derive(Drop)]
pub(crate) struct Naming {
    pub names: Vec<BareName>,
    for_operands: Taken,
    for_fixpoints: Taken,
}

impl Naming {
    /// No names, beside the variables of fixpoints.
    pub fn new(alloc: Global, variables: Taken) -> Naming
        ensures { Begins variables.names result }
    {
        Naming {
            names: Vec::new(alloc),
            for_operands: variables,
            for_fixpoints: Taken::new(alloc),
        }
    }

    fn push(&mut self, alloc: Global, name: BareName) -> Result<(), AllocError>
        ensures { OnOk result (GivesName self.old self.new (bytes_of name)) }
    {
        self.for_operands.push(alloc, &name.text)?;
        self.for_fixpoints.push(alloc, &name.text)?;
        self.names.push(name)?;
        Ok(())
    }

    /// Names the equation of an operand within the fixpoint of a name.
    pub fn push_operand(&mut self, alloc: Global, around: &str) -> Result<(), AllocError>
        requires { is_spelled around.now ≡ true }
        ensures { OnOk result (Gives self.old self.new (operand_named around.now ∷ [])) }
    {
        let name = self.for_operands.new_name(alloc, around)?;
        self.push(alloc, name)
    }

    /// Names the equation of the fixpoint of a variable.
    pub fn push_fixpoint(&mut self, alloc: Global, variable: &str) -> Result<(), AllocError>
        requires { is_spelled variable.now ≡ true }
        ensures { OnOk result (Gives self.old self.new (fixpoint_named variable.now ∷ [])) }
    {
        let name = self.for_fixpoints.new_name(alloc, variable)?;
        self.push(alloc, name)
    }
}
