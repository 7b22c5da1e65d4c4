//! The page of so many long names that it is not gathered in memory.

/// The number of the names.
pub const LONG_NAMES: u32 = 16_000;

/// What each of the names begins with. Its number follows, from 0.
pub const LONG: &str =
    "aaaaaaaaaabbbbbbbbbbccccccccccddddddddddeeeeeeeeeeffffffffffgggggggggghhhhhhhhhhiiiiiiiiiijjjjjjjjjjkkkkkkkkkkllllllllll";

/// The length of the page in HTML. It has 164 bytes beside its rows, of 269 bytes each beside two numbers of one to five
/// digits.
pub const LENGTH_OF_LONG_PAGE: usize = 4_441_944;

/// The head of the reply with the page.
pub const HEAD_OF_LONG_PAGE: &str = crate::reply!(
    "200 OK",
    ["Content-Type: text/html"],
    "4441944",
    ""
);
