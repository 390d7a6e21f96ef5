// How far a write-behind layer may run ahead of the store below it.
ghost use Rattle.std.specs.Prelude.{T};
ghost use Rattle.layers.specs.Limits.{lengthable};

// At the latest every so many writes one goes below: 1 to 64.
#[derive(Clone, Copy)]
pub struct Length {
    pub(crate) value: u8,
    ghost ok: { T (lengthable value) },
}
