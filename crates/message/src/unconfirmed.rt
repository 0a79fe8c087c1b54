//! The guard over what was opened and may not be handed out yet.
ghost use Rattle.std.specs.Prelude.{◌≡◌, cond, false, true, length, replicate};

/// Output bytes that may not be handed out yet. When it is dropped they are wiped, unless the tag agreed.
pub(crate) struct Unconfirmed<'a> {
    pub(crate) bytes: &'a mut [u8],
    agreed: bool,
}

impl<'a> Unconfirmed<'a> {
    /// Withholds the bytes of a buffer.
    pub(crate) fn new(bytes: &'a mut [u8]) -> Self
        ensures same_reference { result.bytes.ghost_name ≡ bytes.entry.ghost_name }
        ensures bytes { result.bytes.now ≡ bytes.old }
        ensures agreed { result.agreed ≡ false }
    {
        Unconfirmed {
            bytes,
            agreed: false,
        }
    }

    /// The tag agreed: the bytes may be handed out.
    pub(crate) fn confirm(&mut self)
        ensures same_reference { self.new.bytes.ghost_name ≡ self.old.bytes.ghost_name }
        ensures bytes { self.new.bytes.now ≡ self.old.bytes.now }
        ensures agreed { self.new.agreed ≡ true }
    {
        self.agreed = true;
    }
}

impl Drop for Unconfirmed<'_> {
    fn drop(self)
        ensures { self.exit.0.now ≡ cond self.entry.agreed self.entry.bytes.now (replicate (length self.entry.bytes.now) 0) }
    {
        let Unconfirmed { bytes, agreed } = self;
        if !agreed {
            bytes.fill(0);
        }
    }
}
