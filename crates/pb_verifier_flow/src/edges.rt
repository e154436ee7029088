//! Where control flows from an instruction.

ghost use Rattle.std.specs.Prelude.{◌≡◌, None, Some};

use pb_verifier_states::state::AbstractState;

/// Where control flows from an instruction, and with what: to the next place, to a target, to both,
/// or nowhere.
#[derive(Drop)]
pub struct Edges {
    pub next: Option<AbstractState>,
    pub jump: Option<(usize, AbstractState)>,
}

impl Edges {
    /// To the next place alone.
    pub(crate) fn next(state: AbstractState) -> Edges
        ensures { result ≡ record { next = Some state; jump = None } }
    {
        Edges {
            next: Some(state),
            jump: None,
        }
    }

    /// To the target alone.
    pub(crate) fn jump(target: u16, state: AbstractState) -> Edges
        ensures { result ≡ record { next = None; jump = Some (target, state) } }
    {
        Edges {
            next: None,
            jump: Some((usize::from(target), state)),
        }
    }

    /// Nowhere: the end.
    pub(crate) fn none() -> Edges
        ensures { result ≡ record { next = None; jump = None } }
    {
        Edges {
            next: None,
            jump: None,
        }
    }
}
