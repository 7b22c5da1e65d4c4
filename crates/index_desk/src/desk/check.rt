//! Counts the names whose charge is wrong.
ghost use Rattle.std.specs.Prelude.{◌≡◌, ◌==◌, count_by, sum_by};
ghost use Rattle.index_rules.specs.Sound.{IsSound};
ghost use Rattle.index_desk.specs.Checks.{charge_of as charge_of_lem, is_charged_wrong_in, wrong_charges_in};
ghost use Rattle.index_desk.specs.Looks.{LooksAt};

use super::Desk;
use index_rules::{Books, Fault, FileRow, NameRecord, NameRow};
use std::alloc::Global;

impl<B: Books> Desk<B> {
    /// The number of names whose charge is not the sum of the sizes of their undeleted files: 0 in sound tables. It
    /// changes no table.
    ///
    /// # Errors
    ///
    /// `OutOfMemory` if memory runs out, and `Store` if the books fail.
    pub fn check(&mut self, alloc: Global) -> Result<u64, Fault>
        ensures { LooksAt B.Books self.old self.new result
            (λ T count. (count ≡ wrong_charges_in T) × (IsSound T → count ≡ 0)) }
    {
        let rows = self.books.names(alloc)?;
        wrong_charges(&mut self.books, alloc, rows.as_slice())
    }
}

/// The number of these names whose charge is wrong. It changes no table.
fn wrong_charges<B: Books>(books: &mut B, alloc: Global, rows: &[NameRow]) -> Result<u64, Fault>
    ensures { LooksAt B.Books books.old books.new result
        (λ T count. count ≡ count_by (is_charged_wrong_in T) rows.now) }
{
    let mut count = 0;
    for row in rows {
        if is_charged_wrong(books, alloc, row)? {
            count += 1;
        }
    }
    Ok(count)
}

/// Whether a name's charge is not the sum of the sizes of its undeleted files. It changes no table.
fn is_charged_wrong<B: Books>(books: &mut B, alloc: Global, row: &NameRow) -> Result<bool, Fault>
    ensures { LooksAt B.Books books.old books.new result
        (λ T wrong. wrong ≡ is_charged_wrong_in T row.now) }
{
    let files = books.files_of(alloc, &row.name)?;
    Ok(!is_sum(charge_of(row), files.as_slice()))
}

/// The charge of a name: 0 if it is prohibited.
fn charge_of(row: &NameRow) -> u64
    ensures { result ≡ charge_of_lem row.now.record }
{
    match &row.record {
        NameRecord::Held(project) => project.charge(),
        NameRecord::Prohibited => 0,
    }
}

/// Whether the charge is the sum of the sizes of these files, however large that is.
fn is_sum(charge: u64, files: &[FileRow]) -> bool
    ensures { result ≡ (charge == sum_by (λ file. file.size) files.now) }
{
    let mut left = charge;
    for file in files {
        match left.checked_sub(file.size) {
            Some(rest) => left = rest,
            None => return false,
        }
    }
    left == 0
}
