// The grounds of refusal of every layer, with their numbers, and the layers, with their letters.
ghost use Rattle.std.specs.Prelude.{◌≡◌, Some, decimal};
ghost use Rattle.std.proofs.Math.Utf8.{encode};
ghost use Rattle.reader.specs.Grounds.{number_of, letter_of};

use std::fmt;

#[derive(Clone, Copy, PartialEq, Eq, Debug)]
pub enum Ground {
    UnknownKind = 1,
    Truncated = 2,
    OutOfPlace = 3,
    OutOfRange = 4,
    TooMany = 5,
    StartOutsideLimit = 6,
    PlaceTaken = 7,
    PlaceVacant = 8,
    NoDifferences = 9,
    TooWide = 10,
    EmptyZone = 11,
    NotAdmitted = 12,
    Uncovered = 13,
    MarkedUncovered = 14,
    StartUncovered = 15,
    Unmarked = 16,
}

impl From<Ground> for u8 {
    ghost from_gives = { λ reason r. r ≡ number_of reason };

    // The number that stands for a ground in every refusal.
    fn from(reason: Ground) -> u8 {
        reason as u8
    }
}

impl fmt::Display for Ground {
    ghost output = { λ reason. Some (decimal (number_of reason)) };

    fn fmt<W: fmt::Write>(&self, f: &mut fmt::Formatter<W>) -> fmt::Result {
        let number = u8::from(*self);
        write!(f, "{number}")
    }
}

#[derive(Clone, Copy, PartialEq, Eq, Debug)]
pub enum Layer {
    File,
    Sheet,
    Zone,
    Book,
}

impl From<Layer> for char {
    ghost from_gives = { λ layer r. r ≡ letter_of layer };

    // The letter that stands for a layer in every refusal.
    fn from(layer: Layer) -> char {
        match layer {
            Layer::File => 'F',
            Layer::Sheet => 'S',
            Layer::Zone => 'Z',
            Layer::Book => 'B',
        }
    }
}

impl fmt::Display for Layer {
    ghost output = { λ layer. Some (encode (letter_of layer)) };

    fn fmt<W: fmt::Write>(&self, f: &mut fmt::Formatter<W>) -> fmt::Result {
        let letter = char::from(*self);
        write!(f, "{letter}")
    }
}
