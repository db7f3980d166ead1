// The letters that name the measures.
ghost use Rattle.std.specs.Prelude.{◌≡◌};
ghost use Rattle.listing.specs.Letters.{letter_byte, letter_named, letter_of};

use reading::Refusal;

// A measure, by what it adds up or compares.
#[derive(Clone, Copy, PartialEq, Eq, Hash, Debug)]
pub enum Letter {
    Absolute,
    Squared,
    Largest,
}

impl TryFrom<u8> for Letter {
    type Error = Refusal;

    ghost try_from_gives = { λ byte named. named ≡ letter_named byte };

    fn try_from(byte: u8) -> Result<Letter, Refusal> {
        match byte {
            b'A' => Ok(Letter::Absolute),
            b'S' => Ok(Letter::Squared),
            b'L' => Ok(Letter::Largest),
            _ => Err(Refusal::UnknownLetter { byte }),
        }
    }
}

// A byte is no discriminant: `b'A'` would want a cast there.
impl From<Letter> for u8 {
    ghost from_gives = { λ letter byte. byte ≡ letter_byte letter };

    fn from(letter: Letter) -> u8 {
        match letter {
            Letter::Absolute => b'A',
            Letter::Squared => b'S',
            Letter::Largest => b'L',
        }
    }
}

impl Letter {
    // The measure that the first byte of an input names; byte 0, as the format has it, where there is none.
    pub fn of(input: &[u8]) -> Result<Letter, Refusal>
        ensures { result ≡ letter_of input.now }
    {
        match input {
            [] => Err(Refusal::UnknownLetter { byte: 0 }),
            [byte, ..] => Letter::try_from(*byte),
        }
    }

    // As `From`; without it callers would have to name the type.
    pub fn byte(self) -> u8
        ensures { result ≡ letter_byte self }
    {
        self.into()
    }
}
