// The control octet of a frame.
ghost use Rattle.std.specs.Prelude.{◌≡◌, ◌<◌};
ghost use Rattle.frame.specs.KindsInCode.{subtype_code};
ghost use Rattle.frame.specs.Messages.{control};
ghost use Rattle.frame.specs.Octets.{bits};

// The frame type of LLDN, in bits 0 to 2.
pub(crate) const LLDN: u8 = 4;

// The subtype of a frame, in bits 6 and 7.
#[derive(Clone, Copy)]
pub(crate) enum Subtype {
    Beacon = 0,
    Data = 1,
    Acknowledgment = 2,
    Command = 3,
}

impl Subtype {
    // The subtype in a control octet.
    pub(crate) fn of(control: u8) -> Subtype
        ensures { subtype_code result ≡ bits 6 2 control }
    {
        match control >> 6 {
            0 => Subtype::Beacon,
            1 => Subtype::Data,
            2 => Subtype::Acknowledgment,
            _ => Subtype::Command,
        }
    }

    // The control octet that is written for the subtype.
    pub(crate) fn control(self) -> u8
        ensures { result ≡ control (subtype_code self) }
    {
        LLDN + 64 * self as u8
    }
}

// `count` bits of an octet, from bit `low` on.
pub(crate) fn bits_of(octet: u8, low: u32, count: u32) -> u8
    requires { (low < 8) × (count < 8) }
    ensures { result ≡ bits low count octet }
{
    (octet >> low) & ((1u8 << count) - 1)
}
