//! What the store's answers tell, as a stage tells it.
ghost use Rattle.std.specs.Prelude.{◌≡◌};
ghost use Rattle.fx_stage_words.specs.Told.{key_as, made_as, plain_as, silence, silent_as, told_as, told_value_as};

use fx_base::{List, NodeKey, Value};
use fx_stage_types::{Outcome, StageError};
use fx_store_model::{Notices, StoreError};
use std::alloc::{AllocError, Global};

/// What a change of the store tells.
pub fn told(alloc: Global, answer: Result<Notices, StoreError>) -> Result<Outcome, StageError>
    ensures { result ≡ told_as answer }
{
    match answer {
        Ok(notices) => Ok(Outcome {
            notices,
            ..nothing(alloc)
        }),
        Err(error) => Err(StageError::from(error)),
    }
}

/// What a read of the store tells.
pub fn told_value(alloc: Global, answer: Result<Value, StoreError>) -> Result<Outcome, StageError>
    ensures { result ≡ told_value_as answer }
{
    match answer {
        Ok(value) => Ok(Outcome {
            value: Some(value),
            ..nothing(alloc)
        }),
        Err(error) => Err(StageError::from(error)),
    }
}

/// Nothing is told.
pub fn nothing(alloc: Global) -> Outcome
    ensures { result ≡ silence }
{
    Outcome {
        value: None,
        notices: Notices {
            added: None,
            invalid: List::new(alloc),
            changed: List::new(alloc),
        },
        warnings: List::new(alloc),
        events: List::new(alloc),
    }
}

/// What a change of the scene graph tells: nothing, if it isn't refused.
pub fn silent(alloc: Global, answer: Result<(), StageError>) -> Result<Outcome, StageError>
    ensures { result ≡ silent_as answer }
{
    match answer {
        Ok(()) => Ok(nothing(alloc)),
        Err(error) => Err(error),
    }
}

/// What a change of the scene graph tells that only want of memory can hinder.
pub fn plain(alloc: Global, answer: Result<(), AllocError>) -> Result<Outcome, StageError>
    ensures { result ≡ plain_as answer }
{
    match answer {
        Ok(()) => Ok(nothing(alloc)),
        Err(_) => Err(StageError::Memory),
    }
}

/// What the making of a node tells: nothing, if it isn't refused.
pub fn made(alloc: Global, answer: Result<NodeKey, StageError>) -> Result<Outcome, StageError>
    ensures { result ≡ made_as answer }
{
    match answer {
        Ok(_) => Ok(nothing(alloc)),
        Err(error) => Err(error),
    }
}

/// The answer of a step that makes a node.
pub fn one_node(answer: Result<NodeKey, StageError>) -> Result<Option<NodeKey>, StageError>
    ensures { result ≡ key_as answer }
{
    match answer {
        Ok(key) => Ok(Some(key)),
        Err(error) => Err(error),
    }
}
