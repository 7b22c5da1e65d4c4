//! Each look at the tables finds what was written.
use super::{FILE, FROB, body, connection_of, new_database, new_desk};
use index_desk::Desk;
use index_io::Output;
use index_names::{NormalName, normal};
use index_rules::{Books, FileRow, NameRow, Taker};
use sqlite::{Alter, Connection};
use std::alloc::AllocGlobal;
use std::process::Abort;

/// Takes each row, and counts them.
#[derive(Drop)]
struct Count {
    rows: u64,
}

impl Taker<NameRow> for Count {
    ghost use Rattle.std.specs.Prelude.{⊤};

    ghost takes = { λ _ _ _. ⊤ };

    ghost stops = { λ _ _ _. ⊤ };

    fn take(&mut self, _row: &NameRow) -> bool {
        self.rows = self.rows.saturating_add(1);
        true
    }
}

impl Taker<FileRow> for Count {
    ghost use Rattle.std.specs.Prelude.{⊤};

    ghost takes = { λ _ _ _. ⊤ };

    ghost stops = { λ _ _ _. ⊤ };

    fn take(&mut self, _row: &FileRow) -> bool {
        self.rows = self.rows.saturating_add(1);
        true
    }
}

/// The bytes of the file are those that were uploaded.
fn assert_bytes<B: Books>(rt: &(impl Abort + AllocGlobal), desk: &mut Desk<B>) {
    let found = body(rt, desk).expect(rt, "a look").expect(rt, "a body");
    assert_eq!(rt; found.bytes(), b"abc".as_slice());
}

fn find_bytes<S: Alter + Drop>(rt: &(impl Abort + AllocGlobal), conn: Connection<S>) {
    let mut desk = new_desk(rt, conn, &[FROB, FILE]);
    assert_bytes(rt, &mut desk);
    drop(connection_of(desk));
}

#[test]
fn bytes_are_found(rt: HostRuntime) {
    find_bytes(&rt, new_database(&rt));
}

/// One look finds one file of a held name.
fn assert_one_file<B: Books>(
    rt: &(impl Abort + AllocGlobal),
    desk: &mut Desk<B>,
    name: &NormalName,
) {
    let found = desk.project_rows(rt.alloc(), name).expect(rt, "a look");
    let rows = found.expect(rt, "a held name");
    assert_eq!(rt; rows.len(), 1);
}

/// A walk passes one file of a held name to its taker.
fn assert_one_file_walked<B: Books>(
    rt: &(impl Abort + AllocGlobal),
    desk: &mut Desk<B>,
    name: &NormalName,
) {
    let mut count = Count { rows: 0 };
    let held = desk.walk_project(rt.alloc(), name, &mut count);
    assert!(rt; matches!(&held, Ok(true)));
    assert_eq!(rt; count.rows, 1);
}

fn find_files<S: Alter + Drop>(rt: &(impl Abort + AllocGlobal), conn: Connection<S>) {
    let mut desk = new_desk(rt, conn, &[FROB, FILE]);
    let name = normal(rt.alloc(), b"frob").expect(rt, "a name");
    assert_one_file(rt, &mut desk, &name);
    assert_one_file_walked(rt, &mut desk, &name);
    drop(connection_of(desk));
}

#[test]
fn rows_of_files_are_found(rt: HostRuntime) {
    find_files(&rt, new_database(&rt));
}

/// One look finds one held name.
fn assert_one_name<B: Books>(rt: &(impl Abort + AllocGlobal), desk: &mut Desk<B>) {
    let rows = desk.root_rows(rt.alloc()).expect(rt, "a look");
    assert_eq!(rt; rows.len(), 1);
}

/// A walk passes one held name to its taker.
fn assert_one_name_walked<B: Books>(rt: &(impl Abort + AllocGlobal), desk: &mut Desk<B>) {
    let mut count = Count { rows: 0 };
    let walked = desk.walk_root(rt.alloc(), &mut count);
    assert!(rt; matches!(&walked, Ok(())));
    assert_eq!(rt; count.rows, 1);
}

fn find_names<S: Alter + Drop>(rt: &(impl Abort + AllocGlobal), conn: Connection<S>) {
    let mut desk = new_desk(rt, conn, &[FROB, FILE]);
    assert_one_name(rt, &mut desk);
    assert_one_name_walked(rt, &mut desk);
    drop(connection_of(desk));
}

#[test]
fn rows_of_names_are_found(rt: HostRuntime) {
    find_names(&rt, new_database(&rt));
}

/// The office prohibits a free name.
const SPAM: &[[&str; 2]] = &[[
    r#"{"at":12,"token":"office","do":"prohibit","name":"spam"}"#,
    super::ACCEPTED,
]];

const REPORT: &str = "\
frob                     held              1              3     1073741824
spam                     prohibited        0              0              0
";

/// The report on the names is this.
fn assert_report<B: Books>(rt: &(impl Abort + AllocGlobal), desk: &mut Desk<B>, want: &str) {
    let mut output = Output::new(Vec::new(rt.alloc()));
    let ended = desk.report(rt.alloc(), &mut output);
    assert!(rt; matches!(&ended, Ok(())));
    assert_eq!(rt; output.writer.as_slice(), want.as_bytes());
}

fn report_names<S: Alter + Drop>(rt: &(impl Abort + AllocGlobal), conn: Connection<S>) {
    let mut desk = new_desk(rt, conn, &[FROB, FILE, SPAM]);
    assert_report(rt, &mut desk, REPORT);
    drop(connection_of(desk));
}

#[test]
fn names_are_reported(rt: HostRuntime) {
    report_names(&rt, new_database(&rt));
}
