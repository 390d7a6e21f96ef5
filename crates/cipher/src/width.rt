// The two widths of enciphered parts.
ghost use Rattle.std.specs.Prelude.{◌≡◌};
ghost use Rattle.cipher.specs.Widths.{bits};

#[derive(Clone, Copy)]
pub enum Width {
    // The low 57 bits of a first block.
    First,
    // The low 59 bits of a further block.
    Further,
}

impl Width {
    // How many bits a part of this width has.
    pub fn bits(self) -> u32
        ensures { result ≡ bits self }
    {
        match self {
            Width::First => 57,
            Width::Further => 59,
        }
    }
}
