//! The laws of what replies show. The functions do nothing: their contracts are the laws.
ghost use Rattle.std.specs.Prelude.{◌≡◌, Some, true};
ghost use Rattle.index_rules.specs.Maps.{Bytes};
ghost use Rattle.index_message.specs.declared.message.Message.{Message};
ghost use Rattle.index_http.specs.Apart.{DependsOnName, InputMayGetAfter, MayGetAfter, RefutesShownOthers, looks_at};
ghost use Rattle.index_http.specs.Hides.{HidesTokens, InputMayGet, MayGet, RefutesShownTokens, makes_no_call};
ghost use Rattle.index_http.specs.Shows.{GivesMessage};

/// Whoever only reads learns nothing of tokens. The reply to a message that makes no call, as to each `GET` and `HEAD`,
/// is the same byte for byte, whoever the users are and whatever tokens they have, unless it reports a fault. So is that
/// to an input that begins with one.
pub fn replies_show_no_token()
    ensures messages { (message : Message) → makes_no_call message ≡ true
        → HidesTokens (MayGet message) }
    ensures inputs { (input : Bytes) → GivesMessage makes_no_call (Some input)
        → HidesTokens (InputMayGet input) }
{}

/// The law excludes a wrong outcome: a reply that is right, and has the digest of a user's token behind it.
pub fn no_empty_word_is_said_of_tokens()
    ensures { RefutesShownTokens }
{}

/// Replies are about one name. The reply to a `GET` or `HEAD` of a name's standing, of its page or of one of its files is
/// the same byte for byte by any two histories that have the same entries of the name, whatever was asked of other names,
/// unless it reports a fault. So is that to an input that begins with one.
pub fn replies_are_about_one_name()
    ensures messages { (n : Bytes) (message : Message) → looks_at n message ≡ true
        → DependsOnName n (MayGetAfter message) }
    ensures inputs { (n input : Bytes) → GivesMessage (looks_at n) (Some input)
        → DependsOnName n (InputMayGetAfter input) }
{}

/// The law excludes a wrong outcome: a reply that is right, and says behind it whether another name is held.
pub fn no_empty_word_is_said_of_other_names()
    ensures { RefutesShownOthers }
{}
