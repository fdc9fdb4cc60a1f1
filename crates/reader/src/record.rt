// A record by its kind, with its body as a part of the input.
ghost use Rattle.std.specs.Prelude.{◌≡◌};
ghost use Rattle.std.specs.Option.{option_map};
ghost use Rattle.reader.specs.Entries.{entry_of, cut};
ghost use Rattle.reader.specs.Fields.{fields_of};

use crate::fields::Fields;
use crate::kind::Kind;

#[derive(Clone, Copy)]
pub enum Record<'a> {
    Head(&'a [u8; 3]),
    Accepting(&'a [u8; 1]),
    Limit(&'a [u8; 5]),
    Edge(&'a [u8; 3]),
    Guard(&'a [u8; 4]),
    SheetEnd,
    Book(&'a [u8; 2]),
    Node(&'a [u8; 4]),
    Bound(&'a [u8; 5]),
    FileEnd,
}

impl<'a> Record<'a> {
    pub fn kind(self) -> Kind
        ensures { result ≡ (entry_of self.entry).kind }
    {
        match self {
            Record::Head(_) => Kind::Head,
            Record::Accepting(_) => Kind::Accepting,
            Record::Limit(_) => Kind::Limit,
            Record::Edge(_) => Kind::Edge,
            Record::Guard(_) => Kind::Guard,
            Record::SheetEnd => Kind::SheetEnd,
            Record::Book(_) => Kind::Book,
            Record::Node(_) => Kind::Node,
            Record::Bound(_) => Kind::Bound,
            Record::FileEnd => Kind::FileEnd,
        }
    }

    pub fn fields(self) -> Fields
        ensures { result ≡ fields_of (entry_of self.entry) }
    {
        match self {
            Record::Head(&[clocks, locations, start]) => Fields::Head {
                clocks,
                locations,
                start,
            },
            Record::Accepting(&[location]) => Fields::Accepting { location },
            Record::Limit(&[location, clock, relation, low, high]) => {
                let constant = u16::from_le_bytes([low, high]);
                Fields::Limit {
                    location,
                    clock,
                    relation,
                    constant,
                }
            }
            Record::Edge(&[source, target, zeros]) => Fields::Edge {
                source,
                target,
                zeros,
            },
            Record::Guard(&[clock, relation, low, high]) => {
                let constant = u16::from_le_bytes([low, high]);
                Fields::Guard {
                    clock,
                    relation,
                    constant,
                }
            }
            Record::SheetEnd => Fields::SheetEnd,
            Record::Book(&[zone_kind, question]) => Fields::Book {
                zone_kind,
                question,
            },
            Record::Node(&[place, location, low, high]) => {
                let number = u16::from_le_bytes([low, high]);
                Fields::Node {
                    place,
                    location,
                    number,
                }
            }
            Record::Bound(&[i, j, strict, low, high]) => {
                let constant = i16::from_le_bytes([low, high]);
                Fields::Bound {
                    i,
                    j,
                    strict,
                    constant,
                }
            }
            Record::FileEnd => Fields::FileEnd,
        }
    }

    // The record of this kind whose body begins the given bytes, if they hold all of it.
    pub fn cut(kind: Kind, after: &'a [u8]) -> Option<Record<'a>>
        ensures { option_map entry_of result ≡ cut kind after.now }
    {
        match kind {
            Kind::Head => Some(Record::Head(after.first_chunk::<3>()?)),
            Kind::Accepting => Some(Record::Accepting(after.first_chunk::<1>()?)),
            Kind::Limit => Some(Record::Limit(after.first_chunk::<5>()?)),
            Kind::Edge => Some(Record::Edge(after.first_chunk::<3>()?)),
            Kind::Guard => Some(Record::Guard(after.first_chunk::<4>()?)),
            Kind::SheetEnd => Some(Record::SheetEnd),
            Kind::Book => Some(Record::Book(after.first_chunk::<2>()?)),
            Kind::Node => Some(Record::Node(after.first_chunk::<4>()?)),
            Kind::Bound => Some(Record::Bound(after.first_chunk::<5>()?)),
            Kind::FileEnd => Some(Record::FileEnd),
        }
    }
}
