//! The laws of what is served and shown. The functions do nothing: their contracts are the laws.
ghost use Rattle.std.specs.Prelude.{◌≡◌};
ghost use Rattle.index_rules.specs.History.{History};
ghost use Rattle.index_rules.specs.Legal.{IsLegal};
ghost use Rattle.index_rules.specs.Maps.{Bytes};
ghost use Rattle.index_desk.specs.Apart.{RefutesOthers, ShowSame, entries_of};
ghost use Rattle.index_desk.specs.OnPages.{RefutesOtherBytes, ServesWhatItShows, ShowsWhatItServes};

/// Each file that is served is found by the name of its project: that is held, and its page has the file once, with the
/// digest of the bytes that are served. No other page has it. And a page has no file that is not served.
#[tactic(auto, using(crate::proofs::OnPageLemmas::serves_what_it_shows, crate::proofs::OnPageLemmas::shows_what_it_serves))]
pub fn each_file_stands_on_its_page()
    ensures served { (h : History) → IsLegal h → ServesWhatItShows h }
    ensures shown { (h : History) → ShowsWhatItServes h }
{}

/// The law excludes a wrong outcome: other bytes of a file than those whose digest its page shows.
pub fn no_empty_word_is_said_of_served_files()
    ensures { (h : History) → IsLegal h → RefutesOtherBytes h }
{}

/// Names are apart. What is shown of a name depends on its own entries alone: on who made each, when, and for what it
/// asked. By any two histories that have the same entries of the name, its standing, its page and the bytes of its files
/// are the same, whatever was asked of other names, whoever the users are and whatever tokens they have.
#[tactic(auto, using(crate::proofs::ApartLemmas::show_same))]
pub fn names_are_apart()
    ensures { (n : Bytes) (h h' : History) → entries_of n h ≡ entries_of n h' → ShowSame n h h' }
{}

/// There are such histories that differ, and the law excludes a wrong outcome: a standing that is right, and has behind
/// it whether another name is held.
pub fn no_empty_word_is_said_of_other_names()
    ensures { RefutesOthers }
{}
