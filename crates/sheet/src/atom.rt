// Atoms, which compare one clock with a constant.
ghost use Rattle.std.specs.Prelude.{◌≡◌, ok_or};
ghost use Rattle.sheet.specs.Ready.{compares};
ghost use Rattle.sheet.specs.Relations.{relation_of, number_of};

#[derive(Clone, Copy, PartialEq, Eq, Debug)]
pub enum Relation {
    Less = 0,
    AtMost = 1,
    Equal = 2,
    AtLeast = 3,
    Greater = 4,
}

// A number that stands for no relation.
#[derive(Clone, Copy, PartialEq, Eq, Debug)]
pub struct UnknownRelation(pub u8);

impl TryFrom<u8> for Relation {
    type Error = UnknownRelation;

    ghost try_from_gives = { λ number answer. answer ≡ ok_or (relation_of number) (record { 0 = number }) };

    // The numbers stand here again, since a search through a list of the relations would be no shorter.
    fn try_from(number: u8) -> Result<Relation, UnknownRelation> {
        match number {
            0 => Ok(Relation::Less),
            1 => Ok(Relation::AtMost),
            2 => Ok(Relation::Equal),
            3 => Ok(Relation::AtLeast),
            4 => Ok(Relation::Greater),
            _ => Err(UnknownRelation(number)),
        }
    }
}

impl From<Relation> for u8 {
    ghost from_gives = { λ relation number. number ≡ number_of relation };

    fn from(relation: Relation) -> u8 {
        relation as u8
    }
}

#[derive(Clone, Copy, PartialEq, Eq, Debug)]
pub struct Atom {
    pub clock: u8,
    pub relation: Relation,
    pub constant: u16,
}

impl Atom {
    // Whether this atom holds with all clocks at zero.
    pub(crate) fn holds_at_zero(self) -> bool
        ensures { result ≡ compares self.relation 0 self.constant }
    {
        match self.relation {
            Relation::Less => 0 < self.constant,
            Relation::AtMost => true,
            Relation::Equal | Relation::AtLeast => self.constant == 0,
            Relation::Greater => false,
        }
    }
}
