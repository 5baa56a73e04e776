ghost use Rattle.std.specs.Prelude.{◌≡◌};
ghost use Rattle.axp_base.specs.Masks.{IsSize};
ghost use Rattle.axp_base.specs.Sizes.{bytes_of, bits_of, low_datum};

/// The sizes of a datum, as the architecture manual names them.
#[derive(Clone, Copy, Debug, PartialEq, Eq)]
pub enum Size {
    /// 1 byte.
    Byte,
    /// 2 bytes.
    Word,
    /// 4 bytes, a longword.
    Long,
    /// 8 bytes, a quadword.
    Quad,
}

impl Size {
    /// The size in bytes.
    pub fn bytes(self) -> u8
        ensures value { result ≡ bytes_of self }
        ensures sized { IsSize result }
    {
        match self {
            Size::Byte => 1,
            Size::Word => 2,
            Size::Long => 4,
            Size::Quad => 8,
        }
    }

    /// The size in bits.
    pub fn bits(self) -> u32
        ensures { result ≡ bits_of self }
    {
        match self {
            Size::Byte => 8,
            Size::Word => 16,
            Size::Long => 32,
            Size::Quad => 64,
        }
    }

    /// The low datum of this size of a number; the bits above it are 0.
    pub fn low(self, value: u64) -> u64
        ensures { result ≡ low_datum self value }
    {
        match self {
            Size::Byte => value & 0xFF,
            Size::Word => value & 0xFFFF,
            Size::Long => value & 0xFFFF_FFFF,
            Size::Quad => value,
        }
    }
}
