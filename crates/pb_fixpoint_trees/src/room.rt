//! Lists that mostly have room for what is added.
ghost use Rattle.std.specs.Prelude.{◌≡◌, [], ◌∷◌, ◌++◌, OnErr, OnOk};

use std::alloc::AllocError;

/// Adds an item at the end. Where the list has room for it this needs no call, unlike `Vec::push`.
///
/// # Errors
/// Memory was refused. The list is then as it was.
#[inline(always)]
pub fn push<T: Copy>(list: &mut Vec<T>, item: T) -> Result<(), AllocError>
    ensures ok { OnOk result (list.new.items ≡ list.old.items ++ item ∷ []) }
    ensures err { OnErr result (list.new.items ≡ list.old.items) }
{
    if list.len() < list.capacity() {
        list.push_reserved(item);
        return Ok(());
    }
    match list.push(item) {
        Ok(()) => Ok(()),
        Err(_) => Err(AllocError),
    }
}
