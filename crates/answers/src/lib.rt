// The answers of document 01, and the number of each.
#![tactic(auto)]

ghost use Rattle.std.specs.Prelude.{◌≡◌};
ghost use Rattle.answers.specs.Number.{number_of};

// "Answer numbers": one case for each row of the table, under its name there.
#[derive(Clone, Copy, Debug, PartialEq, Eq)]
pub enum Answer {
    Done,
    Clock,
    SmallBuffer,
    BadFace,
    TooLong,
    Malformed,
    Unsupported,
    HopLimit,
    Scope,
    Loop,
    NoRoute,
    NoRoom,
    Unsolicited,
    StaleNack,
    FaceOpen,
    BadSetting,
    TableFull,
}

// The number that document 01 gives an answer.
impl From<Answer> for u64 {
    ghost from_gives = { λ a n. n ≡ number_of a };

    fn from(a: Answer) -> u64 {
        match a {
            Answer::Done => 0,
            Answer::Clock => 1,
            Answer::SmallBuffer => 2,
            Answer::BadFace => 3,
            Answer::TooLong => 4,
            Answer::Malformed => 5,
            Answer::Unsupported => 6,
            Answer::HopLimit => 7,
            Answer::Scope => 8,
            Answer::Loop => 9,
            Answer::NoRoute => 10,
            Answer::NoRoom => 11,
            Answer::Unsolicited => 12,
            Answer::StaleNack => 13,
            Answer::FaceOpen => 14,
            Answer::BadSetting => 15,
            Answer::TableFull => 16,
        }
    }
}
