// Every refusal of the library, with its number, its place and where it is checked.
ghost use Rattle.std.specs.Prelude.{◌≡◌, Some};
ghost use Rattle.reading.specs.Refusals.{number_of, place_of, refusal_text, site_number, site_of};

use std::fmt;

// What a call found wrong. Each case carries the place that it points at, unless that is always 0.
#[derive(Clone, Copy, PartialEq, Eq, Hash, Debug)]
pub enum Refusal {
    ValueOffScale { place: usize },
    WeightOffScale { place: usize },
    ProfileFull { held: usize },
    PrefixAboveHeld { prefix: usize },
    PlaceOutsidePrefix { place: usize },
    NothingHeld,
    TooLittleRoom { needed: usize },
    UnknownLetter { byte: u8 },
    WrongLength { length: usize },
    SizesDiffer,
    TooMany { size: usize },
}

// Where a refusal is checked.
#[derive(Clone, Copy, PartialEq, Eq, Hash, Debug)]
pub enum Site {
    AtReading,
    AtProfile,
    AtSupplied,
    AtLetter,
    AtStored,
}

impl From<Site> for u32 {
    ghost from_gives = { λ site number. number ≡ site_number site };

    fn from(site: Site) -> u32 {
        // Counted from 1, since 0 stands for no site.
        site as u32 + 1
    }
}

impl Refusal {
    // The number under which it is known outside. Cases with data have no `as`, so it is a match.
    pub fn number(self) -> u8
        ensures { result ≡ number_of self }
    {
        match self {
            Refusal::ValueOffScale { .. } => 1,
            Refusal::WeightOffScale { .. } => 2,
            Refusal::ProfileFull { .. } => 3,
            Refusal::PrefixAboveHeld { .. } => 4,
            Refusal::PlaceOutsidePrefix { .. } => 5,
            Refusal::NothingHeld => 6,
            Refusal::TooLittleRoom { .. } => 7,
            Refusal::UnknownLetter { .. } => 8,
            Refusal::WrongLength { .. } => 9,
            Refusal::SizesDiffer => 10,
            Refusal::TooMany { .. } => 11,
        }
    }

    // 0, as the format has it, where there is none.
    pub fn place(self) -> usize
        ensures { result ≡ place_of self }
    {
        match self {
            Refusal::ValueOffScale { place } => place,
            Refusal::WeightOffScale { place } => place,
            Refusal::ProfileFull { held } => held,
            Refusal::PrefixAboveHeld { prefix } => prefix,
            Refusal::PlaceOutsidePrefix { place } => place,
            Refusal::NothingHeld => 0,
            Refusal::TooLittleRoom { needed } => needed,
            Refusal::UnknownLetter { byte } => usize::from(byte),
            Refusal::WrongLength { length } => length,
            Refusal::SizesDiffer => 0,
            Refusal::TooMany { size } => size,
        }
    }

    pub fn site(self) -> Site
        ensures { result ≡ site_of self }
    {
        match self {
            Refusal::ValueOffScale { .. } | Refusal::WeightOffScale { .. } => Site::AtReading,
            Refusal::ProfileFull { .. }
            | Refusal::PrefixAboveHeld { .. }
            | Refusal::PlaceOutsidePrefix { .. }
            | Refusal::NothingHeld => Site::AtProfile,
            Refusal::TooLittleRoom { .. } => Site::AtSupplied,
            Refusal::UnknownLetter { .. } => Site::AtLetter,
            Refusal::WrongLength { .. } | Refusal::SizesDiffer | Refusal::TooMany { .. } =>
                Site::AtStored,
        }
    }
}

// As in `refused 9 3`: the number and the place.
impl fmt::Display for Refusal {
    ghost output = { λ x. Some (refusal_text x) };

    fn fmt<W: fmt::Write>(&self, f: &mut fmt::Formatter<W>) -> fmt::Result {
        let number = self.number();
        let place = self.place();
        write!(f, "refused {number} {place}")
    }
}
