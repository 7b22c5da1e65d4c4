//! The parts of the name of a wheel (PEP 427, "File name convention").
ghost use Rattle.std.specs.Prelude.{◌≡◌, not, option_map};
ghost use Rattle.std.specs.List.{list_all, slice_split};
ghost use Rattle.index_names.specs.FileName.{wheel_cut_of, read_wheel};
ghost use Rattle.index_names.specs.Spelling.{is_hyphen, is_distribution, is_tag_byte, is_tag, is_build_tag, is_wheel_cut};
ghost use Rattle.index_names.specs.Cut.{IsCutOf, wheel_cut};

use crate::file_name::{Cut, FileKind, split_at_first_hyphen};
use crate::project::is_name;
use crate::release::is_version;

/// The parts of a wheel's name (PEP 427, "File name convention").
#[derive(Clone, Copy)]
pub struct WheelParts<'a> {
    distribution: &'a [u8],
    version: &'a [u8],
    build: Option<&'a [u8]>,
    python: &'a [u8],
    abi: &'a [u8],
    platform: &'a [u8],
}

/// The parts of a wheel's name that name its project and its release, by its stem.
pub fn cut_wheel(stem: &[u8]) -> Option<Cut<'_>>
    ensures { IsCutOf result (read_wheel stem.now) }
{
    let wheel = wheel_parts(stem)?;
    if is_wheel(&wheel) {
        Some(Cut {
            name: wheel.distribution,
            version: wheel.version,
            kind: FileKind::Wheel,
        })
    } else {
        None
    }
}

// The parts between the hyphens: five, or six with a build tag.
fn wheel_parts(stem: &[u8]) -> Option<WheelParts<'_>>
    ensures { option_map wheel_cut result ≡ wheel_cut_of (slice_split is_hyphen stem.now) }
{
    let (distribution, rest) = split_at_first_hyphen(stem)?;
    let (version, rest) = split_at_first_hyphen(rest)?;
    let (third, rest) = split_at_first_hyphen(rest)?;
    let (fourth, rest) = split_at_first_hyphen(rest)?;
    let Some((fifth, sixth)) = split_at_first_hyphen(rest) else {
        return Some(WheelParts {
            distribution,
            version,
            build: None,
            python: third,
            abi: fourth,
            platform: rest,
        });
    };
    if split_at_first_hyphen(sixth).is_some() {
        return None;
    }
    Some(WheelParts {
        distribution,
        version,
        build: Some(third),
        python: fourth,
        abi: fifth,
        platform: sixth,
    })
}

/// Whether each part is valid in its place in a wheel's name.
fn is_wheel(parts: &WheelParts<'_>) -> bool
    ensures { result ≡ is_wheel_cut (wheel_cut parts.now) }
{
    is_distribution(parts.distribution)
        && is_version(parts.version)
        && parts.build.is_none_or(is_build_tag)
        && is_tag(parts.python)
        && is_tag(parts.abi)
        && is_tag(parts.platform)
}

/// Whether the bytes are a project name without a hyphen.
fn is_distribution(bytes: &[u8]) -> bool
    ensures { result ≡ is_distribution bytes.now }
{
    is_name(bytes) && lacks_hyphen(bytes)
}

fn lacks_hyphen(bytes: &[u8]) -> bool
    ensures { result ≡ list_all (λ c. not (is_hyphen c)) bytes.now }
{
    bytes.iter().all(|&byte| byte != b'-')
}

/// Whether the bytes are a tag that begins with a digit.
fn is_build_tag(bytes: &[u8]) -> bool
    ensures { result ≡ is_build_tag bytes.now }
{
    is_tag(bytes) && bytes[0].is_ascii_digit()
}

/// Whether the bytes are one or more letters, digits, dots and underscores.
fn is_tag(bytes: &[u8]) -> bool
    ensures { result ≡ is_tag bytes.now }
{
    !bytes.is_empty() && has_tag_bytes(bytes)
}

/// Whether each byte is one that tags may have.
fn has_tag_bytes(bytes: &[u8]) -> bool
    ensures { result ≡ list_all is_tag_byte bytes.now }
{
    bytes.iter().all(|&byte| byte.is_ascii_alphanumeric() || byte == b'.' || byte == b'_')
}
