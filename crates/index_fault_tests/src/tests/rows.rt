//! Rows, walks over them, a check and a report end with each fault of the books.
use super::fakes::{BooksCall, TakesAll};
use super::faults::failing_desk;
use super::new_books;
use index_desk::{Desk, ReportFault};
use index_io::Output;
use index_names::normal;
use index_rules::{Books, Fault, WalkEnd};
use std::alloc::AllocGlobal;
use std::process::Abort;

/// The fault in place of the rows of the held names.
fn fault_of_root<B: Books>(rt: &(impl Abort + AllocGlobal), desk: &mut Desk<B>) -> Option<Fault> {
    let rows = desk.root_rows(rt.alloc());
    let fault = rows.as_ref().err().copied();
    drop(rows);
    fault
}

/// The fault in place of the rows of `frob`.
fn fault_of_project<B: Books>(
    rt: &(impl Abort + AllocGlobal),
    desk: &mut Desk<B>,
) -> Option<Fault> {
    let name = normal(rt.alloc(), b"frob").expect(rt, "frob");
    let rows = desk.project_rows(rt.alloc(), &name);
    let fault = rows.as_ref().err().copied();
    drop(rows);
    fault
}

/// If this call of the books fails, these are the faults in place of the rows of the held names and of `frob`.
fn assert_rows<B: Books + Drop>(
    rt: &(impl Abort + AllocGlobal),
    books: B,
    call: BooksCall,
    fault: Fault,
    root: Option<Fault>,
    project: Option<Fault>,
) {
    let mut desk = failing_desk(rt, books, call, fault);
    let of_root = fault_of_root(rt, &mut desk);
    let of_project = fault_of_project(rt, &mut desk);
    assert!(rt; of_root == root && of_project == project, "{fault}");
}

#[test]
fn rows_are_answered_by_the_fault(rt: HostRuntime) {
    for fault in [Fault::Store, Fault::OutOfMemory] {
        assert_rows(
            &rt,
            new_books(&rt),
            BooksCall::Names,
            fault,
            Some(fault),
            None,
        );
        assert_rows(
            &rt,
            new_books(&rt),
            BooksCall::FilesOf,
            fault,
            None,
            Some(fault),
        );
        assert_rows(
            &rt,
            new_books(&rt),
            BooksCall::IsHeld,
            fault,
            None,
            Some(fault),
        );
        assert_rows(&rt, new_books(&rt), BooksCall::WalkHeld, fault, None, None);
    }
}

/// If this call of the books fails, the walks over the held names and over the files of `frob` end like this.
fn assert_walks<B: Books + Drop>(
    rt: &(impl Abort + AllocGlobal),
    books: B,
    call: BooksCall,
    fault: Fault,
    root: Result<(), WalkEnd>,
    project: Result<bool, WalkEnd>,
) {
    let mut desk = failing_desk(rt, books, call, fault);
    let of_root = desk.walk_root(rt.alloc(), &mut TakesAll);
    let name = normal(rt.alloc(), b"frob").expect(rt, "frob");
    let of_project = desk.walk_project(rt.alloc(), &name, &mut TakesAll);
    assert!(rt; of_root == root && of_project == project, "{fault}");
}

#[test]
fn walks_end_by_the_fault(rt: HostRuntime) {
    for fault in [Fault::Store, Fault::OutOfMemory] {
        let end = WalkEnd::from(fault);
        assert_walks(
            &rt,
            new_books(&rt),
            BooksCall::WalkHeld,
            fault,
            Err(end),
            Ok(true),
        );
        assert_walks(
            &rt,
            new_books(&rt),
            BooksCall::WalkFiles,
            fault,
            Ok(()),
            Err(end),
        );
        assert_walks(
            &rt,
            new_books(&rt),
            BooksCall::IsHeld,
            fault,
            Ok(()),
            Err(end),
        );
        assert_walks(
            &rt,
            new_books(&rt),
            BooksCall::HeldRow,
            fault,
            Err(end),
            Ok(true),
        );
        assert_walks(
            &rt,
            new_books(&rt),
            BooksCall::FilesRow,
            fault,
            Ok(()),
            Err(end),
        );
    }
}

/// How a report ends. A report that failed wrote nothing, and one that succeeded wrote something.
fn end_of_report<B: Books>(
    rt: &(impl Abort + AllocGlobal),
    desk: &mut Desk<B>,
) -> Result<(), ReportFault> {
    let mut told = Vec::new(rt.alloc());
    let ended = desk.report(rt.alloc(), &mut Output::new(&mut told));
    let is_empty = told.is_empty();
    drop(told);
    assert!(rt; is_empty == ended.is_err());
    ended
}

/// If this call of the books fails, the check and the report end like this.
fn assert_sums<B: Books + Drop>(
    rt: &(impl Abort + AllocGlobal),
    books: B,
    call: BooksCall,
    fault: Fault,
    check: Result<u64, Fault>,
    report: Result<(), ReportFault>,
) {
    let mut desk = failing_desk(rt, books, call, fault);
    let of_check = desk.check(rt.alloc());
    let of_report = end_of_report(rt, &mut desk);
    assert!(rt; of_check == check && of_report == report);
}

#[test]
fn a_check_and_a_report_end_by_the_fault(rt: HostRuntime) {
    for fault in [Fault::Store, Fault::OutOfMemory] {
        let end = Err(ReportFault::from(fault));
        assert_sums(
            &rt,
            new_books(&rt),
            BooksCall::Names,
            fault,
            Err(fault),
            end,
        );
        assert_sums(
            &rt,
            new_books(&rt),
            BooksCall::FilesOf,
            fault,
            Err(fault),
            Ok(()),
        );
    }
}
