//! Laws of pages. Each function does nothing: its contract is the law.
ghost use Rattle.std.specs.Prelude.{List};
ghost use Rattle.index_rules.specs.declared.rows.FileRow.{FileRow};
ghost use Rattle.index_pages.specs.Versions.{ListsReleases};

/// The versions of a project's page are exactly the releases of its files, each once and in byte order.
#[tactic(auto, using(crate::proofs::VersionLemmas::lists_releases))]
pub fn versions_are_the_releases()
    ensures { (rows : List FileRow) → ListsReleases rows }
{}
