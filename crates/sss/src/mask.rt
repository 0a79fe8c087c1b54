//! Masks: which bits of a word are sealed.
ghost use Rattle.std.specs.Prelude.{◌≡◌};
ghost use Rattle.sss.specs.Masks.{kind_of};

/// The mask of a sealed word: every bit is sealed.
pub const SEALED: u16 = 0xFFFF;

/// The mask of an open word: no bit is sealed.
pub const OPEN: u16 = 0;

/// How much of a word its mask seals.
#[derive(Clone, Copy, PartialEq, Eq, Debug)]
pub enum MaskKind {
    /// Every bit.
    Sealed,
    /// No bit.
    Open,
    /// Some bits and not others.
    Part,
}

impl MaskKind {
    /// The kind of a mask.
    pub fn of(mask: u16) -> Self
        ensures { result ≡ kind_of mask }
    {
        match mask {
            SEALED => MaskKind::Sealed,
            OPEN => MaskKind::Open,
            _ => MaskKind::Part,
        }
    }
}
