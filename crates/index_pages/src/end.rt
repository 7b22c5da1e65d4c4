//! Why a page ended early.
ghost use Rattle.std.specs.Prelude.{◌≡◌};
ghost use Rattle.index_pages.specs.Ends.{count_of};

/// Why a page was not finished, and how many of its bytes were written.
#[derive(Clone, Copy, Debug, PartialEq, Eq, Hash)]
pub enum PageEnd {
    OutOfMemory(u64),
    /// The page has more than 9,223,372,036,854,775,807 bytes.
    Store(u64),
    /// A write failed, or took no byte.
    WriteFault(u64),
}

impl PageEnd {
    /// The number of bytes that were written.
    pub fn count(self) -> u64
        ensures { result ≡ count_of self }
    {
        match self {
            PageEnd::OutOfMemory(count) => count,
            PageEnd::Store(count) => count,
            PageEnd::WriteFault(count) => count,
        }
    }
}
