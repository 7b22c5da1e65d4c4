//! Laws of the definitions that contracts cite. Each function does nothing, and its contract is the law.
ghost use Rattle.std.specs.Prelude.{◌≡◌, ℕ, List};
ghost use Rattle.index_names.specs.Project.{read_name, IsNormalName};
ghost use Rattle.index_names.specs.Release.{read_release, IsRelease};
ghost use Rattle.index_names.specs.FileName.{SpellsAtMostOne, IsReadAsSpelled, IsUnreadWhereUnspelled, Spelled, read_file_name};

/// A file name spells at most one project, release and kind, however it is cut.
pub fn file_name_spells_at_most_one()
    ensures { (f : List ℕ) → SpellsAtMostOne f }
{}

/// A text is read as what it spells by the grammar of PEP 427 and PEP 625, and as nothing if no cut of it spells
/// anything.
pub fn file_name_is_read_as_spelled()
    ensures spelled { (f : List ℕ) → IsReadAsSpelled f }
    ensures unspelled { (f : List ℕ) → IsUnreadWhereUnspelled f }
{}

/// A name is read as a normal form: read again, that gives itself.
pub fn normal_form_is_read_as_itself()
    ensures { (x name : List ℕ) → read_name x ≡ Some name → IsNormalName name }
{}

/// A version text is read as a release: read again, that gives itself.
pub fn release_is_read_as_itself()
    ensures { (x release : List ℕ) → read_release x ≡ Some release → IsRelease release }
{}

/// The project that a file name spells is a normal form, and its release a release.
pub fn file_name_has_a_project_and_a_release()
    ensures { (f : List ℕ) (spelled : Spelled) → read_file_name f ≡ Some spelled
        → IsNormalName spelled.project × IsRelease spelled.release }
{}
