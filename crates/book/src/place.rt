// A place for one node, as it lies in the caller's memory.
ghost use Rattle.std.specs.Prelude.{◌≡◌, ◌<◌, true};
ghost use Rattle.book.specs.Calls.{unmarked};
ghost use Rattle.book.specs.Marks.{fresh, vacant_with, with_marks, unleaned};

// How many places a book has at most.
pub const PLACES: usize = 64;

// A plain row: the caller lends the places as a slice of rows with these very fields, and reads them between the calls.
#[derive(Clone, Copy)]
pub struct Place<R> {
    pub standing: bool,
    pub marked: bool,
    // The places that this node leans on.
    pub leans: [bool; PLACES],
    pub location: u8,
    pub number: u16,
    pub zone: R,
}

impl<R: Copy> Place<R> {
    // A place in which no node stands.
    pub fn vacant(zone: R) -> Place<R>
        ensures { result ≡ vacant_with zone }
    {
        Place {
            standing: false,
            marked: false,
            leans: [false; PLACES],
            location: 0,
            number: 0,
            zone,
        }
    }

    // A node as it is put.
    pub(crate) fn fresh(location: u8, number: u16, zone: R) -> Place<R>
        ensures { result ≡ fresh location number zone }
    {
        Place {
            standing: true,
            location,
            number,
            ..Place::vacant(zone)
        }
    }

    // The node examined and granted.
    pub(crate) fn granted(&self, leans: [bool; PLACES]) -> Place<R>
        ensures { result ≡ with_marks true leans self.now }
    {
        Place {
            marked: true,
            leans,
            ..*self
        }
    }

    // Without mark and leans, if the node leans on place i.
    pub(crate) fn unleaned(&self, i: u8) -> Place<R>
        requires { i < 64 }
        ensures { result ≡ unleaned i self.now }
    {
        if self.leans[usize::from(i)] {
            Place {
                marked: false,
                leans: [false; PLACES],
                ..*self
            }
        } else {
            *self
        }
    }

    // Whether a node stands here without a mark.
    pub(crate) fn is_unmarked(&self) -> bool
        ensures { result ≡ unmarked self.now }
    {
        self.standing && !self.marked
    }
}
