// The ten kinds of record, with the byte that begins each and the length of its body.
ghost use Rattle.std.specs.Prelude.{◌≡◌};
ghost use Rattle.reader.specs.Kinds.{byte_of, kind_from, body_length};

#[derive(Clone, Copy, PartialEq, Eq, Debug)]
pub enum Kind {
    Head = 0x01,
    Accepting = 0x02,
    Limit = 0x03,
    Edge = 0x04,
    Guard = 0x05,
    SheetEnd = 0x06,
    Book = 0x10,
    Node = 0x11,
    Bound = 0x12,
    FileEnd = 0x1f,
}

// A byte that begins no record.
#[derive(Clone, Copy, PartialEq, Eq, Debug)]
pub struct UnknownByte(pub u8);

impl From<Kind> for u8 {
    ghost from_gives = { λ kind r. r ≡ byte_of kind };

    // The byte that begins a record of this kind.
    fn from(kind: Kind) -> u8 {
        kind as u8
    }
}

impl TryFrom<u8> for Kind {
    type Error = UnknownByte;

    ghost try_from_gives = { λ byte r. r ≡ kind_from byte };

    // The kind that a byte stands for, if any. The bytes stand here again, since a search through a list of the kinds would be no shorter.
    fn try_from(byte: u8) -> Result<Kind, UnknownByte> {
        match byte {
            0x01 => Ok(Kind::Head),
            0x02 => Ok(Kind::Accepting),
            0x03 => Ok(Kind::Limit),
            0x04 => Ok(Kind::Edge),
            0x05 => Ok(Kind::Guard),
            0x06 => Ok(Kind::SheetEnd),
            0x10 => Ok(Kind::Book),
            0x11 => Ok(Kind::Node),
            0x12 => Ok(Kind::Bound),
            0x1f => Ok(Kind::FileEnd),
            _ => Err(UnknownByte(byte)),
        }
    }
}

impl Kind {
    // How many bytes follow the kind byte.
    pub fn body_len(self) -> usize
        ensures { result ≡ body_length self }
    {
        match self {
            Kind::Head => 3,
            Kind::Accepting => 1,
            Kind::Limit => 5,
            Kind::Edge => 3,
            Kind::Guard => 4,
            Kind::SheetEnd => 0,
            Kind::Book => 2,
            Kind::Node => 4,
            Kind::Bound => 5,
            Kind::FileEnd => 0,
        }
    }
}
