//! The report: a line for each held or prohibited name.
ghost use Rattle.std.specs.Prelude.{◌≡◌, ◌++◌, IfOk, OnOk, replicate};
ghost use Rattle.index_desk.specs.Looks.{LooksAt, LeavesTables};
ghost use Rattle.index_desk.specs.Reports.{ReportFailsOnly, Reports, at_left, at_right, name_columns, number_columns, report_in, report_line, report_of, state_text as state_text_lem};

use super::Desk;
use index_io::{Sink, write_bytes};
use index_rules::{Books, Fault, NameRecord, NameRow};
use std::alloc::{AllocError, Global};

/// Why a report is not whole.
#[derive(Clone, Copy, Debug, PartialEq, Eq, Hash)]
pub enum ReportFault {
    OutOfMemory,
    Store,
    /// A write failed or took no byte, after this many bytes.
    WriteFault(u64),
}

impl From<Fault> for ReportFault {
    ghost use Rattle.index_desk.specs.Reports.{report_fault_of};

    ghost from_gives = { λ fault end. end ≡ report_fault_of fault };

    fn from(fault: Fault) -> ReportFault {
        match fault {
            Fault::OutOfMemory => ReportFault::OutOfMemory,
            Fault::Store => ReportFault::Store,
        }
    }
}

impl<B: Books> Desk<B> {
    /// Writes a line for each held or prohibited name, in byte order: the name, its state, the number of its undeleted
    /// files, its charge and its quota, both in bytes. It changes no table.
    ///
    /// # Errors
    ///
    /// The whole report is made before the first byte is written. After `OutOfMemory`, and after `Store` if the books
    /// fail, nothing was written. After `WriteFault` that many bytes were.
    #[tactic(auto, using(crate::proofs::LeavesLemmas::look_leaves))]
    pub fn report<S: Sink>(&mut self, alloc: Global, sink: &mut S) -> Result<(), ReportFault>
        // Holds also if a fault has shut the store.
        ensures report { B.IsHonest self.old → B.IsClean self.new → Reports
            (report_in (B.tables self.old)) (S.contents sink.old) (S.contents sink.new) result }
        ensures fails { ReportFailsOnly B.Books S.Sink self.old self.new sink.old sink.new result }
        ensures leaves { LeavesTables B.Books self.old self.new }
    {
        let text = report_text(&mut self.books, alloc)?;
        match write_bytes(sink, text.as_slice()) {
            Ok(()) => Ok(()),
            Err(count) => Err(ReportFault::WriteFault(count as u64)),
        }
    }
}

/// The text of the report. It changes no table.
fn report_text<B: Books>(books: &mut B, alloc: Global) -> Result<Vec<u8>, Fault>
    ensures { LooksAt B.Books books.old books.new result (λ T text. text.items ≡ report_in T) }
{
    let rows = books.names(alloc)?;
    let text = lines_of(alloc, rows.as_slice())?;
    Ok(text)
}

/// A line for each row.
fn lines_of(alloc: Global, rows: &[NameRow]) -> Result<Vec<u8>, AllocError>
    ensures { IfOk result (λ text. text.items ≡ report_of rows.now) }
{
    let mut text = Vec::new(alloc);
    for row in rows {
        add_line(&mut text, alloc, row)?;
    }
    Ok(text)
}

/// Adds the line of a row.
fn add_line(text: &mut Vec<u8>, alloc: Global, row: &NameRow) -> Result<(), AllocError>
    ensures { OnOk result (text.new.items ≡ text.old.items ++ report_line row.now) }
{
    add_name(text, row)?;
    add_numbers(text, alloc, &row.record)?;
    text.push(b'\n')?;
    Ok(())
}

/// Adds the name and its state, with a space after each.
fn add_name(text: &mut Vec<u8>, row: &NameRow) -> Result<(), AllocError>
    ensures { OnOk result (text.new.items ≡ text.old.items ++ name_columns row.now) }
{
    add_left(text, row.name.text().as_bytes(), 24)?;
    text.push(b' ')?;
    add_left(text, state_text(&row.record), 10)?;
    text.push(b' ')?;
    Ok(())
}

/// The word for a name's state.
fn state_text(known: &NameRecord) -> &'static [u8]
    ensures { result.now ≡ state_text_lem known.now }
{
    match known {
        NameRecord::Held(_) => b"held",
        NameRecord::Prohibited => b"prohibited",
    }
}

/// Adds the number of undeleted files, the charge and the quota, with spaces between them.
fn add_numbers(text: &mut Vec<u8>, alloc: Global, known: &NameRecord) -> Result<(), AllocError>
    ensures { OnOk result (text.new.items ≡ text.old.items ++ number_columns known.now) }
{
    let (undeleted, charge, quota) = match known {
        NameRecord::Held(project) => (project.undeleted(), project.charge(), project.quota()),
        NameRecord::Prohibited => (0, 0, 0),
    };
    add_right(text, alloc, undeleted, 8)?;
    text.push(b' ')?;
    add_right(text, alloc, charge, 14)?;
    text.push(b' ')?;
    add_right(text, alloc, quota, 14)
}

/// Adds a text, padded with spaces to this width.
fn add_left(text: &mut Vec<u8>, piece: &[u8], width: usize) -> Result<(), AllocError>
    ensures { OnOk result (text.new.items ≡ text.old.items ++ at_left width piece.now) }
{
    text.extend_from_slice(piece)?;
    add_spaces(text, width.saturating_sub(piece.len()))
}

/// Adds a number, padded on the left with spaces to this width.
fn add_right(text: &mut Vec<u8>, alloc: Global, number: u64, width: usize) -> Result<(), AllocError>
    ensures { OnOk result (text.new.items ≡ text.old.items ++ at_right width number) }
{
    let digits = number.to_string(alloc)?;
    add_spaces(text, width.saturating_sub(digits.len()))?;
    text.extend_from_slice(digits.as_bytes())
}

/// Adds this many spaces.
fn add_spaces(text: &mut Vec<u8>, count: usize) -> Result<(), AllocError>
    ensures { OnOk result (text.new.items ≡ text.old.items ++ replicate count 32) }
{
    for _ in 0..count {
        text.push(b' ')?;
    }
    Ok(())
}
