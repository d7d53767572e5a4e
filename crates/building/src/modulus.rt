// A sheet's A as a type.
ghost use Rattle.std.specs.Prelude.{◌≡◌, ◌%◌, true};
ghost use Rattle.convention.specs.Fields.{is_modulus};

use convention::Offset;

// One of document 01's five moduli.
#[derive(Clone, Copy)]
pub(crate) struct Modulus {
    pub(crate) a: u8,
    ghost right: { is_modulus a ≡ true },
}

impl Modulus {
    // An offset's remainder: `stepping::remainder`, as the byte that both a state and a transition have of it.
    pub(crate) fn residue(self, offset: Offset) -> u8
        ensures { result ≡ offset.0 % self.a }
    {
        stepping::remainder(offset.0, self.a as u32) as u8
    }
}
