//! What the check of a right side reads besides the part that it checks.

use crate::scope::Scope;
use pb_sorts::Layout;
use pb_typing_declarations::Declarations;
use std::alloc::Global;

/// What the text declares, the carriers of its equations' parameters, and the variables in scope.
#[derive(Clone, Copy)]
pub struct Context<'a, 'd, 't> {
    pub alloc: Global,
    pub declarations: &'a Declarations<'d>,
    pub layout: &'a Layout,
    pub scope: &'a Scope<'a, 't>,
}
