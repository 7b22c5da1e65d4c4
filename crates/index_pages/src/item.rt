//! The items of an `Accept` header: cut at its commas, each a media range with its quality.
ghost use Rattle.std.specs.Prelude.{◌≡◌, ◌+◌, ◌≤◌, ◌<◌, ◌∷◌, drop, is_some, length, reverse, IfSome};
ghost use Rattle.std.specs.Str.{byte};
ghost use Rattle.index_pages.specs.Accept.{are_two, cut_at, fraction as fraction_lem, is_blank as is_blank_lem, is_quality, is_readable, item_of, first_quality, quality_of, skip_blanks, thousandths as thousandths_lem, trim as trim_lem};
ghost use Rattle.index_pages.specs.Tally.{pieces_left, rest_cut_at, shown};

/// An item: the text between two commas of an `Accept` header.
#[derive(Drop)]
pub struct Item<'a> {
    /// The media range.
    pub range: &'a [u8],
    /// The quality in thousandths, or `None` if it is malformed.
    pub quality: Option<u16>,
}

impl<'a> Item<'a> {
    /// Reads the text between two commas.
    pub fn read(text: &'a [u8]) -> Item<'a>
        ensures { shown result ≡ item_of text.now }
    {
        let (range, pieces) = cut(text, b';');
        Item {
            range: trim(range),
            quality: quality_among(pieces),
        }
    }

    /// Whether the range is `type/subtype` and the quality is not malformed.
    pub fn is_readable(&self) -> bool
        ensures { result ≡ is_readable (shown self.now) }
    {
        self.quality.is_some() && is_media_range(self.range)
    }
}

/// Whether the range is two texts with a slash between them, both not empty.
fn is_media_range(range: &[u8]) -> bool
    ensures { result ≡ are_two (cut_at (byte "/") range.now) }
{
    match cut(range, b'/') {
        (kind, Some(rest)) => match cut(rest, b'/') {
            (subtype, None) => !kind.is_empty() && !subtype.is_empty(),
            (_, Some(_)) => false,
        },
        (_, None) => false,
    }
}

/// The quality of the first piece with `q=`, or 1,000 thousandths if there is none.
fn quality_among(pieces: Option<&[u8]>) -> Option<u16>
    ensures { result ≡ first_quality (pieces_left pieces.entry) }
{
    let mut left = pieces;
    while let Some(rest) = left {
        let (piece, after) = cut(rest, b';');
        if let Some(text) = quality_text(trim(piece)) {
            return read_quality(text);
        }
        left = after;
    }
    Some(1000)
}

/// The text behind `q=`.
fn quality_text(piece: &[u8]) -> Option<&[u8]>
    ensures is { is_some result ≡ is_quality piece.now }
    ensures text { IfSome result (λ text. text.now ≡ drop 2 piece.now) }
{
    match piece {
        [b'q' | b'Q', b'=', text @ ..] => Some(text),
        _ => None,
    }
}

/// A quality in thousandths, unless it is malformed.
fn read_quality(bytes: &[u8]) -> Option<u16>
    ensures { result ≡ quality_of bytes.now }
{
    let [first, rest @ ..] = bytes else {
        return None;
    };
    if *first == b'0' {
        return fraction(rest);
    }
    if *first != b'1' {
        return None;
    }
    match fraction(rest) {
        Some(0) => Some(1000),
        _ => None,
    }
}

/// Nothing, or a point and up to three digits, in thousandths.
fn fraction(bytes: &[u8]) -> Option<u16>
    ensures { result ≡ fraction_lem bytes.now }
{
    match bytes {
        [] => Some(0),
        [point, digits @ ..] => {
            if *point == b'.' {
                thousandths(digits)
            } else {
                None
            }
        }
    }
}

/// Up to three digits after a point, in thousandths.
fn thousandths(digits: &[u8]) -> Option<u16>
    ensures { result ≡ thousandths_lem digits.now }
{
    match digits {
        [] => Some(0),
        [a] if a.is_ascii_digit() => Some(100 * digit(*a)),
        [a, b] if a.is_ascii_digit() && b.is_ascii_digit() => {
            Some(100 * digit(*a) + 10 * digit(*b))
        }
        [a, b, c] if a.is_ascii_digit() && b.is_ascii_digit() && c.is_ascii_digit() => {
            Some(100 * digit(*a) + 10 * digit(*b) + digit(*c))
        }
        _ => None,
    }
}

/// The value of an ASCII digit.
fn digit(byte: u8) -> u16
    requires { (48 ≤ byte) × (byte ≤ 57) }
    ensures { result + 48 ≡ byte }
{
    u16::from(byte - b'0')
}

/// The bytes before the first separator, and those after it if there is one.
pub fn cut(bytes: &[u8], separator: u8) -> (&[u8], Option<&[u8]>)
    ensures cut { cut_at separator bytes.now ≡ result.0.now ∷ rest_cut_at separator result.1 }
    ensures shorter { IfSome result.1 (λ rest. length rest.now < length bytes.now) }
{
    let mut at = 0;
    while at < bytes.len() {
        if bytes[at] == separator {
            return (&bytes[..at], Some(&bytes[at + 1..]));
        }
        at += 1;
    }
    (bytes, None)
}

/// Whether the byte is optional white space (RFC 9110, section 5.6.3).
fn is_blank(byte: u8) -> bool
    ensures { result ≡ is_blank_lem byte }
{
    byte == b' ' || byte == b'\t'
}

/// The bytes without the blanks that they begin with.
fn trim_start(bytes: &[u8]) -> &[u8]
    ensures { result.now ≡ skip_blanks bytes.now }
{
    let mut rest = bytes;
    while let [first, more @ ..] = rest {
        if !is_blank(*first) {
            break;
        }
        rest = more;
    }
    rest
}

/// The bytes without the blanks that they end in.
fn trim_end(bytes: &[u8]) -> &[u8]
    ensures { result.now ≡ reverse (skip_blanks (reverse bytes.now)) }
{
    let mut rest = bytes;
    while let [more @ .., last] = rest {
        if !is_blank(*last) {
            break;
        }
        rest = more;
    }
    rest
}

/// The bytes without the spaces and tabs at both ends.
#[tactic(auto, unfolding(crate::specs::Accept::trim))]
pub fn trim(bytes: &[u8]) -> &[u8]
    ensures { result.now ≡ trim_lem bytes.now }
{
    trim_end(trim_start(bytes))
}
