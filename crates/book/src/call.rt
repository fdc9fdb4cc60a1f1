// A call on a book, as a value.

#[derive(Clone, Copy)]
pub enum Call<Z> {
    Put {
        place: u8,
        location: u8,
        number: u16,
        zone: Z,
    },
    Strike {
        place: u8,
    },
    Examine {
        place: u8,
    },
    Conclude,
}
