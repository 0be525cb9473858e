//! What is found or missing, as a line answers it.
ghost use Rattle.std.specs.Prelude.{◌≡◌};
ghost use Rattle.std.specs.Option.{option_map};
ghost use Rattle.fx_base.specs.Names.{name_of as name_numbered};
ghost use Rattle.fx_stage_types.specs.declared.refusals.Refusal.TheVariants as word;
ghost use Rattle.fx_stage_model.specs.Answers.{both, earlier, or_word};
ghost use Rattle.fx_stage_words.specs.Told.{no_node_as};

use fx_base::{Name, NodeKey};
use fx_stage_types::{Outcome, Refusal, StageError};

/// The property, or the word for why there is none.
pub fn or_property(name: Option<Name>) -> Result<Name, Refusal>
    ensures { result ≡ or_word word.Property (option_map name_numbered (option_map (λ n. n.0) name)) }
{
    match name {
        Some(name) => Ok(name),
        None => Err(Refusal::Property),
    }
}

/// The property, or the word for a path that nothing has.
pub fn or_unknown(name: Option<Name>) -> Result<Name, Refusal>
    ensures { result ≡ or_word word.Unknown name }
{
    match name {
        Some(name) => Ok(name),
        None => Err(Refusal::Unknown),
    }
}

/// Both, or the word that comes first.
pub fn both<T: Drop, U: Drop>(
    one: Result<T, Refusal>,
    other: Result<U, Refusal>,
) -> Result<(T, U), Refusal>
    ensures { result ≡ both one other }
{
    match one {
        Ok(one) => match other {
            Ok(other) => Ok((one, other)),
            Err(word) => Err(word),
        },
        Err(word) => match other {
            Ok(_) => Err(word),
            Err(other) => Err(earlier(word, other)),
        },
    }
}

/// The word that comes first in the order of words.
pub fn earlier(one: Refusal, other: Refusal) -> Refusal
    ensures { result ≡ earlier one other }
{
    if one.rank() <= other.rank() {
        one
    } else {
        other
    }
}

/// The answer of a step that makes no node.
pub fn no_node(answer: Result<Outcome, StageError>) -> Result<Option<NodeKey>, StageError>
    ensures { result ≡ no_node_as answer }
{
    match answer {
        Ok(_) => Ok(None),
        Err(error) => Err(error),
    }
}
