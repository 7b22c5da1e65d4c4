//! The versions of an index, as types.
ghost use Rattle.std.specs.Prelude.{◌≡◌, ℕ};

/// A version of an index, by its number in `meta`.
pub trait Version {
    ghost number: { ℕ };

    fn number() -> u32
        ensures { result ≡ number };
}

/// The tables have the bytes of files beside them.
pub struct Version2;

impl Version for Version2 {
    ghost number = { 2 };

    fn number() -> u32 {
        2
    }
}

/// The tables have places in a volume for the bytes of files.
pub struct Version3;

impl Version for Version3 {
    ghost number = { 3 };

    fn number() -> u32 {
        3
    }
}
