//! What changes with each instruction of a run. A run keeps it apart from its machine, whose memory
//! it works on, so that it stands in registers of the processor.
ghost use Rattle.std.specs.Prelude.{◌≡◌, ◌<◌, ◌+◌, ◌^◌};
ghost use Rattle.pb_bytecode_program.specs.Machine.{Program, State};
ghost use Rattle.pb_machine.specs.Mirror.{Mirrors};
ghost use Rattle.pb_machine.specs.declared.machine.Machine.{Machine as memory};

/// How far a run has come.
#[derive(Clone, Copy, Default, PartialEq, Eq)]
pub struct Registers {
    /// The place of the next instruction.
    pub(crate) place: usize,
    /// How many operands there are.
    pub(crate) depth: usize,
}

impl Registers {
    pub(crate) fn go_to(&mut self, place: usize)
        ensures { (p : Program) (m : memory) (st : State) → Mirrors p m self.old st
            → Mirrors p m self.new (record st { place = place }) }
    {
        self.place = place;
    }

    /// Goes to the next place.
    pub(crate) fn go_on(&mut self)
        requires { self.old.place + 1 < 2 ^ 64 }
        ensures { (p : Program) (m : memory) (st : State) → Mirrors p m self.old st
            → Mirrors p m self.new (record st { place = st.place + 1 }) }
    {
        self.place += 1;
    }
}
