// The fields of a record by name and value.

#[derive(Clone, Copy, PartialEq, Eq)]
pub enum Fields {
    Head {
        clocks: u8,
        locations: u8,
        start: u8,
    },
    Accepting {
        location: u8,
    },
    Limit {
        location: u8,
        clock: u8,
        relation: u8,
        constant: u16,
    },
    Edge {
        source: u8,
        target: u8,
        zeros: u8,
    },
    Guard {
        clock: u8,
        relation: u8,
        constant: u16,
    },
    SheetEnd,
    Book {
        zone_kind: u8,
        question: u8,
    },
    Node {
        place: u8,
        location: u8,
        number: u16,
    },
    Bound {
        i: u8,
        j: u8,
        strict: u8,
        constant: i16,
    },
    FileEnd,
}
