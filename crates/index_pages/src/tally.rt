//! What the items of `Accept` headers claim for each type, item by item.
ghost use Rattle.std.specs.Prelude.{◌≡◌, map};
ghost use Rattle.std.specs.Char.{to_ascii_lowercase};
ghost use Rattle.std.specs.Str.{byte};
ghost use Rattle.index_pages.specs.Accept.{claim, cut_at, item_of, names as names_lem, names_all_beside as names_all_beside_lem, specificity as specificity_lem, IsFirstGreatest};
ghost use Rattle.index_pages.specs.Tally.{after, after_all, better as better_lem, no_tally, quality_on, shown};

use crate::item::{Item, cut};
use crate::served::Served;

/// How specifically an item names a type, and the quality that it gives it.
#[derive(Clone, Copy)]
pub struct Claim {
    /// 3 for the type itself, 2 for all types beside it, 1 for any type, and 0 for none.
    pub specificity: u8,
    /// The quality in thousandths.
    pub quality: u16,
}

/// The claims of the items so far.
#[derive(Clone, Copy)]
pub struct Tally {
    /// Whether an item was readable.
    pub is_readable: bool,
    /// The best claim on each type.
    pub plain: Claim,
    pub html: Claim,
    pub json: Claim,
}

const NO_CLAIM: Claim = Claim {
    specificity: 0,
    quality: 0,
};

impl Tally {
    /// The tally of no items.
    pub fn new() -> Tally
        ensures { result ≡ no_tally }
    {
        Tally {
            is_readable: false,
            plain: NO_CLAIM,
            html: NO_CLAIM,
            json: NO_CLAIM,
        }
    }

    /// A tally with the items of one more value.
    pub fn with_value(self, value: &[u8]) -> Tally
        ensures { result ≡ after_all self (map item_of (cut_at (byte ",") value.now)) }
    {
        let mut tally = self;
        let mut left = Some(value);
        while let Some(rest) = left {
            let (item, more) = cut(rest, b',');
            tally = tally.with(&Item::read(item));
            left = more;
        }
        tally
    }

    /// A tally with one more item.
    fn with(self, item: &Item<'_>) -> Tally
        ensures { result ≡ after self (shown item.now) }
    {
        Tally {
            is_readable: self.is_readable || item.is_readable(),
            plain: better(self.plain, claim_of(Served::PlainHtml, item)),
            html: better(self.html, claim_of(Served::Html, item)),
            json: better(self.json, claim_of(Served::Json, item)),
        }
    }

    /// The first type with the greatest quality, if that is not 0.
    pub fn choose(self) -> Option<Served>
        ensures { IsFirstGreatest (quality_on self) result }
    {
        let (plain, html, json) = (self.plain.quality, self.html.quality, self.json.quality);
        if plain > 0 && plain >= html && plain >= json {
            Some(Served::PlainHtml)
        } else if html > 0 && html >= json {
            Some(Served::Html)
        } else if json > 0 {
            Some(Served::Json)
        } else {
            None
        }
    }
}

/// The second claim if it is above the first.
fn better(a: Claim, b: Claim) -> Claim
    ensures { result ≡ better_lem a b }
{
    if b.specificity > a.specificity || b.specificity == a.specificity && b.quality > a.quality {
        b
    } else {
        a
    }
}

/// The claim of an item on a type: none if its range does not cover the type, or its quality is malformed.
fn claim_of(served: Served, item: &Item<'_>) -> Claim
    ensures { result ≡ claim served (shown item.now) }
{
    let specificity = specificity(served, item.range);
    match item.quality {
        Some(quality) if specificity > 0 => Claim {
            specificity,
            quality,
        },
        _ => NO_CLAIM,
    }
}

/// How specifically a range names a type; 0 if it does not cover it.
#[tactic(auto, unfolding(crate::specs::Accept::specificity))]
fn specificity(served: Served, range: &[u8]) -> u8
    ensures { result ≡ specificity_lem served (map to_ascii_lowercase range.now) }
{
    if names(served, range) {
        3
    } else if names_all_beside(served, range) {
        2
    } else if range.eq_ignore_ascii_case(b"*/*") {
        1
    } else {
        0
    }
}

/// Whether a range is the type itself.
#[tactic(auto, unfolding(crate::specs::Accept::names))]
fn names(served: Served, range: &[u8]) -> bool
    ensures { result ≡ names_lem served (map to_ascii_lowercase range.now) }
{
    match served {
        Served::PlainHtml => range.eq_ignore_ascii_case(b"text/html"),
        Served::Html => {
            range.eq_ignore_ascii_case(b"application/vnd.pypi.simple.v1+html")
                || range.eq_ignore_ascii_case(b"application/vnd.pypi.simple.latest+html")
        }
        Served::Json => {
            range.eq_ignore_ascii_case(b"application/vnd.pypi.simple.v1+json")
                || range.eq_ignore_ascii_case(b"application/vnd.pypi.simple.latest+json")
        }
    }
}

/// Whether a range is that of all types beside this one.
#[tactic(auto, unfolding(crate::specs::Accept::names_all_beside))]
fn names_all_beside(served: Served, range: &[u8]) -> bool
    ensures { result ≡ names_all_beside_lem served (map to_ascii_lowercase range.now) }
{
    match served {
        Served::PlainHtml => range.eq_ignore_ascii_case(b"text/*"),
        Served::Html => range.eq_ignore_ascii_case(b"application/*"),
        Served::Json => range.eq_ignore_ascii_case(b"application/*"),
    }
}
