//! The law of messages. The function does nothing: its contract is the law.
ghost use Rattle.std.specs.Prelude.{◌≡◌};
ghost use Rattle.index_rules.specs.Maps.{Bytes};
ghost use Rattle.index_message.specs.Messages.{IsMessage};
ghost use Rattle.index_message.specs.declared.message.Message.{Message};

/// An input begins with at most one message, which its bytes alone decide.
pub fn one_message()
    ensures { (input : Bytes) (m k : Message) → IsMessage input m → IsMessage input k → m ≡ k }
{}
