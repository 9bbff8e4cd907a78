// Design situations.
ghost use Rattle.std.specs.Prelude.{◌≡◌};
ghost use Rattle.basis.specs.Vocabulary.{event_kind};

use crate::action::Kind;

#[derive(Clone, Copy, PartialEq, Eq, Debug)]
pub enum Situation {
    // persistent and transient
    Persistent = 1,
    Accidental,
    Seismic,
    Serviceability,
}

impl Situation {
    // The kind of action of which exactly one acts in this situation: none in persistent and serviceability situations.
    pub fn event_kind(self) -> Option<Kind>
        ensures { result ≡ event_kind self }
    {
        match self {
            Situation::Accidental => Some(Kind::Accidental),
            Situation::Seismic => Some(Kind::Seismic),
            Situation::Persistent | Situation::Serviceability => None,
        }
    }
}
