//! Names that are taken, and a new one beside them.

ghost use Rattle.std.specs.Prelude.{◌≡◌, ◌∷◌, [], true, IfOk, List, OnOk};
ghost use Rattle.pb_base.specs.Names.{is_spelled};
ghost use Rattle.pb_text_meaning.specs.Syntax.{Name};
ghost use Rattle.pb_model_names.specs.Taken.{Adds, AreStarts, IsSetOf, IsStart};
ghost use Rattle.pb_model_names.specs.View.{bytes_of};
ghost use Rattle.pb_model_translation.specs.Names as translation;

use crate::bare_name::BareName;
use crate::fresh::{FreeName, first_free, with_room};
use std::alloc::{AllocError, Global};
use std::collections::{HashMap, HashSet};

/// Names that are taken, and numbers at which the search for one after a name begins. No name
/// becomes free again, so the numbers below needn't be tried twice.
#[derive(Drop)]
pub(crate) struct Taken {
    pub names: HashSet<String>,
    starts: HashMap<String, usize>,
    ghost searched: { AreStarts names starts },
}

impl Taken {
    pub fn new(alloc: Global) -> Taken
        ensures { IsSetOf [] result.names }
    {
        Taken {
            names: HashSet::new(alloc),
            starts: HashMap::new(alloc),
        }
    }

    /// Takes a name.
    pub fn push(&mut self, alloc: Global, name: &str) -> Result<(), AllocError>
        ensures { OnOk result (Adds self.old.names self.new.names (name.now ∷ [])) }
    {
        let name = name.to_owned(alloc)?;
        self.names.insert(name)?;
        Ok(())
    }

    /// The number at which the search for one after a name begins.
    fn start(&self, name: &str) -> usize
        ensures { IsStart self.now.names name.now result }
    {
        match self.starts.get(name) {
            Some(start) => *start,
            None => 1,
        }
    }

    /// The name, or where it is taken, with the first number after it with which it isn't. It is
    /// not taken by this.
    pub fn new_name(&mut self, alloc: Global, wanted: &str) -> Result<BareName, AllocError>
        requires { is_spelled wanted.now ≡ true }
        ensures kept { self.new.names ≡ self.old.names }
        ensures name { IfOk result (λ n. (names : List Name) → IsSetOf names self.old.names
            → bytes_of n ≡ translation.new_name names wanted.now) }
    {
        if !self.names.contains(wanted) {
            let text = wanted.to_owned(alloc)?;
            return Ok(BareName { text });
        }
        let name = with_room(wanted);
        let start = self.start(name);
        let FreeName { text, number } = first_free(alloc, &self.names, name, start)?;
        self.starts.insert(name.to_owned(alloc)?, number)?;
        Ok(BareName { text })
    }
}
