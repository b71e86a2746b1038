//! The map in a cartridge.
ghost use Rattle.std.specs.Prelude.{◌≡◌, true};
ghost use Rattle.format.specs.Reading.{accepts};

use crate::fields::Fields;

/// Bytes that were found to be a cartridge, read as a map. They are only lent, so several units can share them.
#[derive(Clone, Copy)]
pub struct Cartridge<'a> {
    pub(crate) bytes: &'a [u8],
    ghost accepted: { accepts bytes.now ≡ true },
}

impl<'a> Cartridge<'a> {
    /// The fields of its bytes.
    pub(crate) fn fields(&self) -> Fields<'a>
        ensures { result.bytes.now ≡ self.now.bytes.now }
    {
        Fields { bytes: self.bytes }
    }
}
