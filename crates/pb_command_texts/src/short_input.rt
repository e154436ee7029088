//! Inputs that are no longer than the program takes, so that no call says so of one.
ghost use Rattle.std.specs.Prelude.{◌≤◌, length};
ghost use Rattle.pb_base.specs.declared.limits.TheConstants.{MAX_INPUT_BYTES};

/// The bytes of an input.
#[derive(Clone, Copy)]
pub struct ShortInput<'a> {
    pub bytes: &'a [u8],
    pub ghost short: { length bytes.now ≤ MAX_INPUT_BYTES },
}
