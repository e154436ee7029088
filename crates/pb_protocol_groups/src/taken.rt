//! Names that are taken, and a name that isn't.

ghost use Rattle.std.specs.Prelude.{◌≡◌, ◌++◌, ◌∷◌, map, codes, suc, IfOk, OnOk, string_bytes};
ghost use Rattle.pb_model_translation.specs.Names as translation;
ghost use Rattle.pb_protocol_packing.specs.Apart.{is_among};
ghost use Rattle.pb_protocol_packing.specs.Groups as packing;
ghost use Rattle.pb_protocol_packer.specs.Initial.{names_by};
ghost use Rattle.pb_protocol_packer.specs.View.{name_bytes};
ghost use Rattle.pb_protocol_groups.specs.Taken.{taken_of};

use pb_text_tree::Name;
use std::alloc::{AllocError, Global};

/// The names that a model has, and those that are given to groups, the newest first.
#[derive(Drop)]
pub(crate) struct Taken<'a> {
    pub given: Vec<String>,
    pub declared: Vec<&'a Name>,
}

fn is_given(given: &[String], name: &str) -> bool
    ensures { result ≡ is_among (map string_bytes given.now) name.now }
{
    for other in given {
        if other.as_str() == name {
            return true;
        }
    }
    false
}

fn is_declared(declared: &[&Name], name: &str) -> bool
    ensures { result ≡ is_among (names_by declared.now) name.now }
{
    for other in declared {
        if other.text.as_str() == name {
            return true;
        }
    }
    false
}

fn longest_given(given: &[String]) -> usize
    ensures { result ≡ translation.longest (map string_bytes given.now) }
{
    let mut longest = 0;
    for index in (0..given.len()).rev() {
        longest = given[index].as_str().len().max(longest);
    }
    longest
}

fn longest_declared(declared: &[&Name]) -> usize
    ensures { result ≡ translation.longest (names_by declared.now) }
{
    let mut longest = 0;
    for index in (0..declared.len()).rev() {
        longest = declared[index].text.as_str().len().max(longest);
    }
    longest
}

/// The name with one prime behind it, and so many more.
#[tactic(auto, using(crate::proofs::Primes::primes_more))]
fn primed(alloc: Global, name: &Name, more: usize) -> Result<Name, AllocError>
    ensures { IfOk result
        (λ n. name_bytes n ≡ name_bytes name.now ++ translation.primes (suc more)) }
{
    let mut text = name.text.as_str().to_owned(alloc)?;
    text.push('\'')?;
    for _ in 0..more {
        text.push('\'')?;
    }
    let place = name.place;
    Ok(Name { place, text })
}

impl Taken<'_> {
    /// Whether the name is taken.
    fn contains(&self, name: &str) -> bool
        ensures { result ≡ is_among (taken_of self.now) name.now }
    {
        if is_given(&self.given, name) {
            return true;
        }
        is_declared(&self.declared, name)
    }

    /// How long the longest of them is.
    #[tactic(auto, using(crate::proofs::Primes::longest_append))]
    fn longest(&self) -> usize
        ensures { result ≡ translation.longest (taken_of self.now) }
    {
        longest_given(&self.given).max(longest_declared(&self.declared))
    }

    /// The name of a group whose first variable has this one: with a prime behind it, and where
    /// that is taken with more of them.
    pub fn unused(&self, alloc: Global, first: &Name) -> Result<Name, AllocError>
        ensures { IfOk result (λ n. name_bytes n
            ≡ packing.unused_name (taken_of self.now) (name_bytes first.now ++ codes "'")) }
    {
        let name = primed(alloc, first, 0)?;
        if self.contains(&name.text) {
            return primed(alloc, &name, self.longest());
        }
        Ok(name)
    }

    /// Takes a name.
    pub fn take(&mut self, alloc: Global, name: &Name) -> Result<(), AllocError>
        ensures { OnOk result (taken_of self.new ≡ name_bytes name.now ∷ taken_of self.old) }
    {
        let text = name.text.as_str().to_owned(alloc)?;
        self.given.insert(0, text)?;
        Ok(())
    }
}
