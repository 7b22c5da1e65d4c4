//! The second line that an end prints: the cause, if it is known, and its subject.
ghost use Rattle.std.specs.Prelude.{◌≡◌, option_map};
ghost use Rattle.index.specs.SecondLines.{JobPrintsCause, cause_of_version, subject_of, volume_of_job};

use crate::cause::Cause;
use crate::end::End;
use index_args::Job;
use index_digest::Digest256;
use index_rules::OpenFault;

/// The cause of an end, if it is known.
pub fn cause_of_end(asked: Job<'_>, end: End) -> Option<Cause>
    ensures { JobPrintsCause asked.entry end result }
{
    match end {
        End::Store(cause) => cause,
        End::Volume { cause, path } => {
            drop(path);
            cause
        }
        End::Listen(cause) => Some(cause),
        End::Open(OpenFault::BadFirstUser) => match asked {
            Job::Init { token, .. } => match Digest256::read_hex(token.as_bytes()) {
                None => Some(Cause::NoDigest),
                Some(digest) if digest == Digest256::of(b"") => Some(Cause::EmptyToken),
                Some(_) => Some(Cause::NoUserId),
            },
            _ => None,
        },
        End::Open(OpenFault::NotEmpty) => Some(Cause::HasTables),
        End::Open(OpenFault::NotAnIndex) => Some(Cause::NoIndex),
        End::Open(OpenFault::OtherVersion) => Some(cause_of_version(asked)),
        _ => None,
    }
}

/// The cause of an index of another version.
fn cause_of_version(asked: Job<'_>) -> Cause
    ensures { result ≡ cause_of_version asked.entry }
{
    if volume_of_job(asked).is_some() {
        Cause::WithoutVolume
    } else {
        Cause::OtherVersion
    }
}

/// The path of the volume that a job is given.
fn volume_of_job<'a>(asked: Job<'a>) -> Option<&'a str>
    ensures { result ≡ volume_of_job asked.entry }
{
    match asked {
        Job::Init { paths, .. }
        | Job::Serve { paths, .. }
        | Job::Report { paths }
        | Job::Check { paths } => paths.volume,
        Job::Apply { paths } => paths?.volume,
    }
}

/// The subject of a cause: the address of a server, or the path of the database.
pub fn subject_of<'a>(asked: Job<'a>, cause: &Cause) -> Option<&'a str>
    ensures { option_map (λ it. it.now) result ≡ subject_of asked.entry cause.now }
{
    match asked {
        Job::Serve { args, .. } if cause.is_of_address() => Some(args.listen),
        _ if cause.is_of_address() => None,
        Job::Init { paths, .. }
        | Job::Serve { paths, .. }
        | Job::Report { paths }
        | Job::Check { paths } => Some(paths.db),
        Job::Apply { paths } => Some(paths?.db),
    }
}
