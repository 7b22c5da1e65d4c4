//! Laws of every legal history. Each function does nothing, and its contract is the law.
ghost use Rattle.index_rules.specs.FirstTables.{first_tables};
ghost use Rattle.index_rules.specs.History.{History, begins};
ghost use Rattle.index_rules.specs.Maps.{Bytes};
ghost use Rattle.index_rules.specs.Legal.{IsLegal};
ghost use Rattle.index_rules.specs.Tables.{Tables};
ghost use Rattle.index_rules.specs.Sound.{IsSound};
ghost use Rattle.index_rules.specs.StandsFor.{StandsFor};
ghost use Rattle.index_rules.specs.Laws.{BindsFiles, DeclaresBodies, HasOneBearerOfEach, KeepsBans, MovesAsRecorded, ServesBound, ServesUploads, StandsAlone, TransfersWereReady};
ghost use Rattle.index_rules.specs.Looks.{LooksPassOver};
ghost use Rattle.index_rules.specs.Refuted.{RefutesRights};
ghost use Rattle.index_rules.specs.Retries.{RepeatsAreAlready};
ghost use Rattle.index_rules.specs.Rights.{ServesOwnersUploads, StaysAsItIs, WereAllowed};

/// A token has one bearer: no two users have tokens with one digest.
#[tactic(auto, using(crate::proofs::StandsOn::one_bearer_of_each))]
pub fn tokens_have_one_bearer()
    ensures { (h : History) → IsLegal h → HasOneBearerOfEach h }
{}

/// A file name is bound for good: the bodies of any two uploads of it have the same digest and size, even if a delete
/// or a prohibition of the project stands between them. Each upload declares the digest of its body. After a ban of the
/// file there is no upload of it.
#[tactic(auto, using(crate::proofs::BindLemmas::binds_files, crate::proofs::BindLemmas::declares_bodies, crate::proofs::BindLemmas::keeps_bans))]
pub fn file_names_are_bound()
    ensures bound { (h : History) → IsLegal h → BindsFiles h }
    ensures declared { (h : History) → IsLegal h → DeclaresBodies h }
    ensures bans { (h : History) → IsLegal h → KeepsBans h }
{}

/// What is served is bound: the bytes served of one file name, at any two points of one history, have the same digest
/// and size. They are those of an upload of the file.
#[tactic(auto, using(crate::proofs::ServeLemmas::serves_uploads))]
pub fn served_bytes_are_bound()
    ensures bound { (h : History) → IsLegal h → ServesBound h }
    ensures uploads { (h : History) → ServesUploads h }
{}

/// An entry changes a charge, a state and owners as its request says, and only of its own name. An upload is of a file
/// that is not undeleted, and adds its size to the charge. A delete and a ban of an undeleted file take the file's size
/// off the charge; a prohibition sets the charge to 0. Only a claim, a relinquish, a prohibition and an allow change the
/// state. Only these, a transfer and the requests on owners change who owns the name.
#[tactic(auto, using(crate::proofs::MoveLemmas::moves_as_recorded))]
pub fn charges_states_and_owners_move_as_recorded()
    ensures { (h : History) → IsLegal h → MovesAsRecorded h }
{}

/// Every transfer was ready. A case was open on the name, and no owner had acted on the name since it was opened. At
/// least three attempts had been sent and each means tried. Six weeks had passed since the first attempt that was sent,
/// and a year since the latest upload. The office stated that the owner's home page is quiet. After the transfer the
/// candidate alone owns the name; its quota and yanks are unchanged.
#[tactic(auto, using(crate::proofs::TransferLemmas::transfers_were_ready))]
pub fn transfers_were_ready()
    ensures { (h : History) → IsLegal h → TransfersWereReady h }
{}

/// Names are independent of one another. The opening, the entries on users and those on one name, in their order, are a
/// legal history themselves; a call on that name has the same verdict in it as in the whole history.
#[tactic(auto, using(crate::proofs::AloneLemmas::stands_alone))]
pub fn names_stand_alone()
    ensures { (h : History) → IsLegal h → StandsAlone h }
{}

/// Tables that stand for a legal history are sound. In particular, no two users have tokens with one digest.
#[tactic(auto, using(crate::proofs::StandsOn::sound_when_legal))]
pub fn tables_of_a_legal_history_are_sound()
    ensures { (h : History) → IsLegal h → (T : Tables) → StandsFor T h → IsSound T }
{}

/// The tables of a new index stand for the opening alone.
pub fn first_tables_stand_for_the_opening()
    ensures { (user token : Bytes) → StandsFor (first_tables user token) (begins user token) }
{}

/// Nobody else changes a name. An entry changes a user only if its own user is of the office; no user is removed, and no
/// office flag changes. It changes a name with its files only if its user is of the office or owns the name, or if it
/// claims the name while that is free; and it leaves every other name as it is. Others can only open a case on a name
/// that has none, and close their own. So a name and its files stay as they are through whatever others do. Only the
/// office sets a quota, bans a file and prohibits a name. Not even the office takes a held name from its owners but by a
/// transfer or a prohibition.
#[tactic(auto, using(crate::proofs::RightLemmas::were_allowed, crate::proofs::RightLemmas::stays_as_it_is))]
pub fn only_its_owners_and_the_office_change_a_name()
    ensures allowed { (h : History) → IsLegal h → WereAllowed h }
    ensures stays { (h : History) → IsLegal h → StaysAsItIs h }
{}

/// The bytes that are served of a file were uploaded by a user who owned the file's project then.
#[tactic(auto, using(crate::proofs::RightLemmas::serves_owners_uploads))]
pub fn served_bytes_come_from_owners()
    ensures { (h : History) → IsLegal h → ServesOwnersUploads h }
{}

/// Who looks learns nothing of a token: pages, standings and bytes are the same, whatever users and tokens there are.
#[tactic(auto, using(crate::proofs::LookLemmas::looks_pass_over))]
pub fn looks_show_no_token()
    ensures { LooksPassOver }
{}

/// A client that saw no answer can ask again: what was accepted, and is asked again at once, is already so. That is for
/// all requests whose effect is a state, as an upload; but whoever set his own token, or removed himself from the owners,
/// has lost the right to ask.
#[tactic(auto, using(crate::proofs::RetryLemmas::repeats_are_already))]
pub fn repeated_requests_are_already()
    ensures { (h : History) → IsLegal h → RepeatsAreAlready h }
{}

/// The laws of rights exclude wrong outcomes. If an owner adds an owner, or uploads a file, the same by somebody else is
/// excluded; so is a look that shows a token's digest, and whoever removed himself is not told that it is already so.
#[tactic(auto, using(crate::proofs::WrongRights::refutes_rights))]
pub fn no_empty_word_is_said_of_rights()
    ensures { RefutesRights }
{}
