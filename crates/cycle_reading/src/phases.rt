// The phases of a permutation, and what is behind each mark: the next phase, or the end of the permutation.
ghost use Rattle.std.specs.Prelude.{◌≡◌};
ghost use Rattle.cycle_reading.specs.Inner.Phases.{is_quiet, takes_point, behind_blank, behind_opening, behind_closing};
ghost use Rattle.cycle_reading.specs.Inner.Phases.{behind_comma, at_semicolon, first_of_r};

// At its beginning; behind its first `(`; behind `()`; behind a point; where a point must come; behind a cycle.
#[derive(Clone, Copy)]
pub(crate) enum Phase {
    Start,
    Opened,
    Empty,
    Point,
    Wanted,
    Closed,
}

// Why a permutation doesn't go on with a piece: it was over before the piece, or no text can go on so.
#[derive(Clone, Copy)]
pub(crate) enum Stop {
    Over,
    Lost,
}

impl Phase {
    // R begins behind the semicolon, or behind its own `(`.
    pub(crate) fn first_of_r(semi: bool) -> Phase
        ensures { result ≡ first_of_r semi }
    {
        if semi { Phase::Start } else { Phase::Opened }
    }

    // Whether a blank may stand here: at the beginning of a permutation, or where it may be over.
    pub(crate) fn is_quiet(self) -> bool
        ensures { result ≡ is_quiet self }
    {
        matches!(self, Phase::Start | Phase::Empty | Phase::Closed)
    }

    // Whether a point may come here.
    pub(crate) fn takes_point(self) -> bool
        ensures { result ≡ takes_point self }
    {
        matches!(self, Phase::Opened | Phase::Wanted)
    }

    // Behind a blank.
    pub(crate) fn behind_blank(self) -> Result<Phase, Stop>
        ensures { result ≡ behind_blank self }
    {
        if self.is_quiet() {
            Ok(self)
        } else {
            Err(Stop::Lost)
        }
    }

    // Behind a `(`, with a semicolon to come or not, and room for one more point or not.
    pub(crate) fn behind_opening(self, semi: bool, room: bool) -> Result<Phase, Stop>
        ensures { result ≡ behind_opening semi room self }
    {
        match self {
            Phase::Start => Ok(Phase::Opened),
            Phase::Empty | Phase::Closed if !semi => Err(Stop::Over),
            Phase::Closed if room => Ok(Phase::Wanted),
            _ => Err(Stop::Lost),
        }
    }

    // Behind a `)`.
    pub(crate) fn behind_closing(self) -> Result<Phase, Stop>
        ensures { result ≡ behind_closing self }
    {
        match self {
            Phase::Opened => Ok(Phase::Empty),
            Phase::Point => Ok(Phase::Closed),
            _ => Err(Stop::Lost),
        }
    }

    // Behind a comma.
    pub(crate) fn behind_comma(self, room: bool) -> Result<Phase, Stop>
        ensures { result ≡ behind_comma room self }
    {
        match self {
            Phase::Point if room => Ok(Phase::Wanted),
            _ => Err(Stop::Lost),
        }
    }

    // No permutation goes on behind a semicolon.
    pub(crate) fn at_semicolon(self, semi: bool) -> Stop
        ensures { result ≡ at_semicolon semi self }
    {
        if semi && self.is_quiet() {
            Stop::Over
        } else {
            Stop::Lost
        }
    }
}
