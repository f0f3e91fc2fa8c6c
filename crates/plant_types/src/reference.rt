//! The references of a controller.
ghost use Rattle.std.specs.Prelude.{◌≡◌, Some};
ghost use Rattle.plant_types.specs.Reference.{reference_text, leading_digit};

use std::fmt;

/// The four kinds of reference: 0x, 1x, 3x and 4x
/// (*Modicon Ladder Logic Block Library User Guide*).
#[derive(Clone, Copy, Debug, PartialEq, Eq, PartialOrd, Ord)]
pub enum RefKind {
    /// 0x, a coil: on or off.
    Coil,
    /// 1x, a discrete input: on or off.
    Input,
    /// 3x, an input register: 0 to 65,535.
    InputRegister,
    /// 4x, a holding register: 0 to 65,535.
    Register,
}

impl RefKind {
    /// The first of the five digits of a reference of this kind.
    pub fn leading_digit(self) -> u8
        ensures { result ≡ leading_digit self }
    {
        match self {
            RefKind::Coil => 0,
            RefKind::Input => 1,
            RefKind::InputRegister => 3,
            RefKind::Register => 4,
        }
    }
}

/// A reference, as 00001 or 40012; numbers count from 1.
#[derive(Clone, Copy, Debug, PartialEq, Eq, PartialOrd, Ord)]
pub struct Ref {
    pub kind: RefKind,
    pub number: u16,
}

/// Five digits: the kind's, then the number's four.
impl fmt::Display for Ref {
    ghost output = { λ at. Some (reference_text at) };

    fn fmt<W: fmt::Write>(&self, f: &mut fmt::Formatter<W>) -> fmt::Result {
        let kind = self.kind.leading_digit();
        let thousands = self.number / 1000;
        let hundreds = self.number / 100 % 10;
        let tens = self.number / 10 % 10;
        let ones = self.number % 10;
        write!(f, "{kind}{thousands}{hundreds}{tens}{ones}")
    }
}
