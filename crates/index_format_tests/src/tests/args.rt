//! Command lines of each subcommand, and those that are refused.
use index_args::{ArgsEnd, Job, Paths, ServeArgs, read_args};
use std::alloc::AllocGlobal;
use std::process::Abort;

/// The arguments of a command line, cut at spaces.
fn words_of(rt: &(impl Abort + AllocGlobal), line: &str) -> Vec<String> {
    let mut args = Vec::new(rt.alloc());
    for word in line.split(' ') {
        let word = String::from_str(rt.alloc(), word).expect(rt, "a word");
        args.push(word).expect(rt, "arguments");
    }
    args
}

/// The command line asks for this job.
fn assert_asks(rt: &(impl Abort + AllocGlobal), line: &str, job: Job<'_>) {
    let args = words_of(rt, line);
    let asked = read_args(rt.alloc(), args.as_slice());
    assert!(rt; matches!(&asked, Ok(read) if *read == job), "{line}");
}

/// The command line ends in clap, with this status.
fn assert_ends(rt: &(impl Abort + AllocGlobal), line: &str, status: i32) {
    let args = words_of(rt, line);
    let asked = read_args(rt.alloc(), args.as_slice());
    assert!(rt;
        matches!(&asked, Err(ArgsEnd::Clap(error)) if error.exit_code() == status),
        "{line}"
    );
}

/// The path of a database alone.
fn alone(db: &str) -> Paths<'_> {
    Paths { db, volume: None }
}

/// The path of a database, and that of its volume.
fn beside<'a>(db: &'a str, volume: &'a str) -> Paths<'a> {
    Paths {
        db,
        volume: Some(volume),
    }
}

#[test]
fn reads_the_words(rt: HostRuntime) {
    let token = "ba78";
    let made = Job::Init {
        paths: alone("a"),
        user: "office",
        token,
        page_sums: false,
    };
    assert_asks(
        &rt,
        "index init --db a --user office --token-sha256 ba78",
        made,
    );
    assert_asks(
        &rt,
        "index init --token-sha256=ba78 --user=office --db=a",
        made,
    );
    let summed = Job::Init {
        paths: alone("a"),
        user: "office",
        token,
        page_sums: true,
    };
    assert_asks(
        &rt,
        "index init --page-sums --db a --user office --token-sha256 ba78",
        summed,
    );
    let paths = alone("a");
    assert_asks(&rt, "index apply", Job::Apply { paths: None });
    assert_asks(&rt, "index apply --db a", Job::Apply { paths: Some(paths) });
    assert_asks(&rt, "index report --db a", Job::Report { paths });
    assert_asks(&rt, "index check --db a", Job::Check { paths });
}

/// An init with a volume, with and without its path.
fn assert_makes_volume(rt: &(impl Abort + AllocGlobal), options: &str, volume: &str) {
    let line = format!(in rt.alloc(); "index init --user office {options} --token-sha256 ba78");
    let line = line.expect(rt, "a line");
    let made = Job::Init {
        paths: beside("a", volume),
        user: "office",
        token: "ba78",
        page_sums: false,
    };
    assert_asks(rt, line.as_str(), made);
}

#[test]
fn reads_the_path_of_a_volume(rt: HostRuntime) {
    assert_makes_volume(&rt, "--db a --volume b", "b");
    assert_makes_volume(&rt, "--volume=b --db a", "b");
    assert_makes_volume(&rt, "--db a --volume", "");
    assert_makes_volume(&rt, "--volume --db a", "");
    assert_makes_volume(&rt, "--db a --volume=", "");
    let paths = beside("a", "b");
    let apply = Job::Apply { paths: Some(paths) };
    assert_asks(&rt, "index apply --volume b --db a", apply);
    assert_asks(&rt, "index report --db a --volume b", Job::Report { paths });
    assert_asks(&rt, "index check --db a --volume b", Job::Check { paths });
}

#[test]
fn reads_serve(rt: HostRuntime) {
    let listen = "127.0.0.1:8080";
    let rows = [
        ("--requests 1000000", 1_000_000, 1, None, None),
        ("--requests 7 --at 0", 7, 1, Some(0), None),
        ("--requests 7 --keep-recent 0", 7, 1, None, Some(0)),
        ("--requests 7 --rounds 3", 7, 3, None, None),
        (
            "--rounds 1000000 --requests 1000000",
            1_000_000,
            1_000_000,
            None,
            None,
        ),
        (
            "--at 18446744073709551615 --requests=1",
            1,
            1,
            Some(18_446_744_073_709_551_615),
            None,
        ),
    ];
    for (options, requests, rounds, at, keep_recent) in rows {
        let line = format!(in rt.alloc(); "index serve --db a --listen {listen} {options}");
        let line = line.expect(&rt, "a line");
        let args = ServeArgs {
            listen,
            requests,
            rounds,
            at,
            keep_recent,
        };
        let paths = alone("a");
        assert_asks(&rt, line.as_str(), Job::Serve { paths, args });
        let more = format!(in rt.alloc(); "{line} --volume b").expect(&rt, "a line");
        let paths = beside("a", "b");
        assert_asks(&rt, more.as_str(), Job::Serve { paths, args });
    }
}

#[test]
fn refuses_other_words(rt: HostRuntime) {
    let refused = [
        "index",
        "index claim",
        "index init",
        "index init --db a --user office",
        "index init --db a --token-sha256 ba78",
        "index init --user office --token-sha256 ba78",
        "index version",
        "index init --version",
        "index apply now",
        "index apply --db",
        "index apply --db a --db b",
        "index apply --volume b",
        "index apply --db a --volume",
        "index check --volume b",
        "index report --db a --volume",
        "index init --db a --user office --token-sha256 ba78 --volume b c",
        "index init --db a --user office --token-sha256 ba78 --volume --volume",
        "index report",
        "index report --db",
        "index check",
        "index check --db a b",
    ];
    for line in refused {
        assert_ends(&rt, line, 2);
    }
}

#[test]
fn helps(rt: HostRuntime) {
    let asked = [
        "index --help",
        "index help",
        "index init --help",
        "index apply --help",
        "index serve --help",
        "index report --help",
        "index check --help",
    ];
    for line in asked {
        assert_ends(&rt, line, 0);
    }
}

#[test]
fn tells_the_version(rt: HostRuntime) {
    for line in ["index --version", "index -V"] {
        assert_ends(&rt, line, 0);
    }
}

#[test]
fn refuses_other_serves(rt: HostRuntime) {
    let refused = [
        "index serve",
        "index serve --db a --requests 1",
        "index serve --db a --listen 127.0.0.1:0",
        "index serve --listen 127.0.0.1:0 --requests 1",
        "index serve --db a --listen 127.0.0.1:0 --requests 0",
        "index serve --db a --listen 127.0.0.1:0 --requests 1000001",
        "index serve --db a --listen 127.0.0.1:0 --requests x",
        "index serve --db a --listen 127.0.0.1:0 --rounds 1",
        "index serve --db a --listen 127.0.0.1:0 --requests 1 --rounds 0",
        "index serve --db a --listen 127.0.0.1:0 --requests 1 --rounds 1000001",
        "index serve --db a --listen 127.0.0.1:0 --requests 1 --rounds x",
        "index serve --db a --listen 127.0.0.1:0 --requests 1 --rounds",
        "index serve --db a --listen 127.0.0.1:0 --requests 1 --rounds 2 --rounds 2",
        "index serve --db a --listen 127.0.0.1:0 --requests 1 --at -1",
        "index serve --db a --listen 127.0.0.1:0 --requests 1 --at 18446744073709551616",
        "index serve --db a --listen 127.0.0.1:0 --requests 1 --requests 2",
        "index serve --db a --listen 127.0.0.1:0 --requests 1 --keep-recent -1",
        "index serve --db a --listen 127.0.0.1:0 --requests 1 --volume",
    ];
    for line in refused {
        assert_ends(&rt, line, 2);
    }
}
