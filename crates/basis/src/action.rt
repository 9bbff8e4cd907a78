// Kinds of action, and how the parts of one action act.
ghost use Rattle.std.specs.Prelude.{◌≡◌};
ghost use Rattle.std.specs.Result.{result_ok};
ghost use Rattle.basis.specs.Vocabulary.{kind_of, kind_number, is_variable, spread_of, spread_number, allows as is_allowed};

#[derive(Clone, Copy, PartialEq, Eq, Debug)]
pub enum Kind {
    Permanent = 1,
    Prestress,
    Variable,
    Accidental,
    Seismic,
}

// A number that stands for no kind of action. Each such error has a type of its own, since each becomes another refusal.
#[derive(Clone, Copy, PartialEq, Eq, Debug)]
pub struct UnknownKind;

// The parts of a fixed action act together, those of a free one in any choice, those of an alternative one at a time.
#[derive(Clone, Copy, PartialEq, Eq, Debug)]
pub enum Spread {
    Fixed = 1,
    Free,
    Alternative,
}

// A number that stands for no spread.
#[derive(Clone, Copy, PartialEq, Eq, Debug)]
pub struct UnknownSpread;

// The kind of a number from 1 to 5.
impl TryFrom<u8> for Kind {
    type Error = UnknownKind;

    ghost try_from_gives = { λ number kind. result_ok kind ≡ kind_of number };

    fn try_from(number: u8) -> Result<Kind, UnknownKind> {
        match number {
            1 => Ok(Kind::Permanent),
            2 => Ok(Kind::Prestress),
            3 => Ok(Kind::Variable),
            4 => Ok(Kind::Accidental),
            5 => Ok(Kind::Seismic),
            _ => Err(UnknownKind),
        }
    }
}

impl From<Kind> for u8 {
    ghost from_gives = { λ kind number. number ≡ kind_number kind };

    fn from(kind: Kind) -> u8 {
        kind as u8
    }
}

impl Kind {
    pub fn is_variable(self) -> bool
        ensures { result ≡ is_variable self }
    {
        matches!(self, Kind::Variable)
    }

    // Whether an action of this kind may have the spread.
    pub fn allows(self, spread: Spread) -> bool
        ensures { result ≡ is_allowed self spread }
    {
        match self {
            Kind::Permanent | Kind::Prestress => matches!(spread, Spread::Fixed),
            Kind::Variable => true,
            Kind::Accidental | Kind::Seismic => !matches!(spread, Spread::Free),
        }
    }
}

// The spread of a number from 1 to 3.
impl TryFrom<u8> for Spread {
    type Error = UnknownSpread;

    ghost try_from_gives = { λ number spread. result_ok spread ≡ spread_of number };

    fn try_from(number: u8) -> Result<Spread, UnknownSpread> {
        match number {
            1 => Ok(Spread::Fixed),
            2 => Ok(Spread::Free),
            3 => Ok(Spread::Alternative),
            _ => Err(UnknownSpread),
        }
    }
}

impl From<Spread> for u8 {
    ghost from_gives = { λ spread number. number ≡ spread_number spread };

    fn from(spread: Spread) -> u8 {
        spread as u8
    }
}
