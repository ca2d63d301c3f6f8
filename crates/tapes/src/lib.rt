// Tapes: their events, read from a slice.
#![tactic(auto)]

ghost use Rattle.std.specs.Prelude.{◌≡◌};
ghost use Rattle.tapes.specs.Places.Event.{kind_numbered, has_face, has_first, has_second, has_bytes, may_at, taken_at};

// The kinds of events, from number 1 to number 8.
#[derive(Clone, Copy, Debug, PartialEq, Eq)]
pub enum Kind {
    Packet,
    Clock,
    OpenFace,
    CloseFace,
    SetRoute,
    DropRoute,
    AddHop,
    DropHop,
}

// A number that no kind of event has.
#[derive(Clone, Copy, Debug, PartialEq, Eq)]
pub struct UnknownKind(pub u64);

// The kind that has a number.
impl TryFrom<u64> for Kind {
    type Error = UnknownKind;

    ghost try_from_gives = { λ number r. r ≡ kind_numbered number };

    fn try_from(number: u64) -> Result<Self, UnknownKind> {
        match number {
            1 => Ok(Kind::Packet),
            2 => Ok(Kind::Clock),
            3 => Ok(Kind::OpenFace),
            4 => Ok(Kind::CloseFace),
            5 => Ok(Kind::SetRoute),
            6 => Ok(Kind::DropRoute),
            7 => Ok(Kind::AddHop),
            8 => Ok(Kind::DropHop),
            _ => Err(UnknownKind(number)),
        }
    }
}

impl Kind {
    // Whether an event of the kind names a face.
    fn has_face(self) -> bool
        ensures { result ≡ has_face self }
    {
        !matches!(self, Kind::Clock | Kind::SetRoute | Kind::DropRoute)
    }

    // Whether it has a number after that: scope, class or cost.
    fn has_first(self) -> bool
        ensures { result ≡ has_first self }
    {
        matches!(self, Kind::OpenFace | Kind::SetRoute | Kind::AddHop)
    }

    // Whether it has a second: the link.
    fn has_second(self) -> bool
        ensures { result ≡ has_second self }
    {
        matches!(self, Kind::OpenFace)
    }

    // Whether it ends in bytes after their length.
    fn has_bytes(self) -> bool
        ensures { result ≡ has_bytes self }
    {
        !matches!(self, Kind::Clock | Kind::OpenFace | Kind::CloseFace)
    }
}

// An event's kind, time and numbers, those that its kind has not being 0; where its bytes stand; and the place past it.
// One record serves all kinds, and not a case for each: the law `taken_inside` says of every kind where its bytes lie.
#[derive(Clone, Copy, Debug, PartialEq, Eq)]
pub struct Taken {
    pub kind: Kind,
    pub time: u64,
    pub face: u64,
    pub first: u64,
    pub second: u64,
    pub from: usize,
    pub len: usize,
    pub next: usize,
}

// A number at a place, if there is to be one, else 0 there.
fn may_at(s: &[u8], has: bool, at: usize) -> Option<(u64, usize)>
    ensures { result ≡ may_at s.now has at }
{
    if has {
        tape::number_at(s, at)
    } else {
        Some((0, at))
    }
}

// "Events: 1 time face length packet; 2 time; 3 time face scope(0 local, 1 not) link(0, 1, 2 as above); 4 time face (close); 5 time class
// length prefix; 6 time length prefix (drop); 7 time face cost length prefix; 8 time face length prefix (drop hop)."
pub fn event_at(s: &[u8], at: usize) -> Option<Taken>
    ensures { result ≡ taken_at s.now at }
{
    let (number, past_kind) = tape::number_at(s, at)?;
    let kind = Kind::try_from(number).ok()?;
    let (time, past_time) = tape::number_at(s, past_kind)?;
    let (face, past_face) = may_at(s, kind.has_face(), past_time)?;
    let (first, past_first) = may_at(s, kind.has_first(), past_face)?;
    let (second, past_second) = may_at(s, kind.has_second(), past_first)?;
    let (len, from) = may_at(s, kind.has_bytes(), past_second)?;
    if (s.len().saturating_sub(from) as u64) < len {
        return None;
    }
    let len = len as usize;
    Some(Taken {
        kind,
        time,
        face,
        first,
        second,
        from,
        len,
        next: from + len,
    })
}
