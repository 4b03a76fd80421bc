//! The version of a configuration.
ghost use Rattle.std.specs.Prelude.{◌≡◌};
ghost use Rattle.cq_tables.specs.Terms.{version_of};

/// What a configuration may say: in version 2 a class may have a level, and in version 1 none has.
#[derive(Clone, Copy)]
pub enum Version {
    /// Number 1.
    One,
    /// Number 2.
    Two,
}

impl Version {
    /// The version of a number that is 1 or 2.
    pub fn of(number: u64) -> Version
        ensures { result ≡ version_of number }
    {
        if number == 2 {
            Version::Two
        } else {
            Version::One
        }
    }
}
