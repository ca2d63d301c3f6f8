// What the grammar says of bytes.
ghost use Rattle.std.specs.Prelude.{◌≡◌};
ghost use Rattle.wire.specs.Verdict.{is_malformed, is_unsupported};

// Fine; malformed, "bytes break the grammar" (5); or unsupported, "marked so" (6).
#[derive(Clone, Copy, Debug, PartialEq, Eq)]
pub enum Verdict {
    Fine,
    Malformed,
    Unsupported,
}

impl Verdict {
    // Whether it is malformed.
    pub fn is_malformed(self) -> bool
        ensures { result ≡ is_malformed self }
    {
        self == Verdict::Malformed
    }

    // Whether it is unsupported.
    pub fn is_unsupported(self) -> bool
        ensures { result ≡ is_unsupported self }
    {
        self == Verdict::Unsupported
    }
}
