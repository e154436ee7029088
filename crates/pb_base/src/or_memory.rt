//! A fault, or want of memory: the error of each function that asks for memory and may refuse.

ghost use Rattle.std.specs.Prelude.{◌≡◌};
ghost use Rattle.pb_base.specs.OrMemory.{IfFault, raised};
ghost use Rattle.pb_base.specs.declared.or_memory.OrMemory.TheVariants.{Memory, Refused};

use std::alloc::{AllocError, AllocFailed};
use std::fmt;

/// What a layer finds wrong with its input. `?` makes a fault the error of a function that asks for
/// memory too.
pub trait Fault {}

/// Why there is no answer: a fault of the input, or want of memory. The functions of a layer have
/// `OrMemory` of the layer's fault as their error. It shows as the fault does, or as `M01`.
#[derive(Clone, Copy, Debug, PartialEq, Eq)]
pub enum OrMemory<F> {
    /// The input is refused.
    Refused(F),
    /// A request for memory was refused.
    Memory,
}

impl<F> OrMemory<F> {
    /// The error of the layer above, which has the fault as `above` puts it.
    pub fn map<G, M: FnOnce(F) -> G>(self, above: M) -> OrMemory<G>
        requires { IfFault self (M.pre above) }
        ensures { raised (M.post above) self result }
    {
        match self {
            OrMemory::Refused(fault) => OrMemory::Refused(above(fault)),
            OrMemory::Memory => OrMemory::Memory,
        }
    }

    /// The error of the layer above, into whose fault this one converts.
    pub fn raise<G: From<F>>(self) -> OrMemory<G>
        ensures { raised G.from_gives self result }
    {
        match self {
            OrMemory::Refused(fault) => OrMemory::Refused(G::from(fault)),
            OrMemory::Memory => OrMemory::Memory,
        }
    }
}

impl<F: Drop> OrMemory<F> {
    /// The error of a caller that rules each fault out.
    pub fn only_memory(self) -> AllocError
        requires { IfFault self (λ _. ⊥) }
    {
        match self {
            OrMemory::Refused(_) => unreachable!(),
            OrMemory::Memory => AllocError,
        }
    }
}

impl<F> From<AllocError> for OrMemory<F> {
    ghost from_gives = { λ _ error. error ≡ Memory };

    fn from(_: AllocError) -> OrMemory<F> {
        OrMemory::Memory
    }
}

impl<T: Drop, F> From<AllocFailed<T>> for OrMemory<F> {
    ghost from_gives = { λ _ error. error ≡ Memory };

    fn from(_: AllocFailed<T>) -> OrMemory<F> {
        OrMemory::Memory
    }
}

impl<F: Fault> From<F> for OrMemory<F> {
    ghost from_gives = { λ fault error. error ≡ Refused fault };

    fn from(fault: F) -> OrMemory<F> {
        OrMemory::Refused(fault)
    }
}

impl<F: fmt::Display> fmt::Display for OrMemory<F> {
    ghost use Rattle.pb_base.specs.OrMemory.{error_text};

    ghost output = { error_text F.output };

    fn fmt<W: fmt::Write>(&self, f: &mut fmt::Formatter<W>) -> fmt::Result {
        match self {
            OrMemory::Refused(fault) => fault.fmt(f),
            OrMemory::Memory => f.write_str("M01"),
        }
    }
}

impl<F: fmt::Debug + fmt::Display + Drop> std::error::Error for OrMemory<F> {}
