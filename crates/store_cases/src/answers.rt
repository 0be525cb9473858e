//! What is printed of answers, values, notices and states.
use crate::commands::Run;
use fx_base::{Name, Value};
use fx_store_model::{Notices, StoreError};
use std::alloc::{AllocError, Global};

/// The flags of so many properties are printed.
const FLAGS: u32 = 20;

fn of_value(alloc: Global, value: &Value) -> Result<String, AllocError> {
    match value {
        Value::Int(number) => format!(in alloc; "i{number}"),
        Value::Bool(truth) => String::from_str(alloc, if *truth { "b1" } else { "b0" }),
        Value::Text(text) => format!(in alloc; "t{}", text.as_str()),
        Value::Choice(_, _) | Value::Color(_) | Value::Sides(_) => String::from_str(alloc, "?"),
    }
}

pub fn of_error(alloc: Global, error: &StoreError) -> anyhow::Result<String> {
    let text = match error {
        StoreError::Unknown(name) => named(alloc, "unknown", name),
        StoreError::ReadOnly(name) => named(alloc, "readonly", name),
        StoreError::WrongKind(name) => named(alloc, "type", name),
        StoreError::Bound(name) => named(alloc, "bound", name),
        StoreError::Cycle(name) => named(alloc, "cycle", name),
        StoreError::Mixed(name) => named(alloc, "mixed", name),
        StoreError::Full => String::from_str(alloc, "full"),
        StoreError::InUse(_) => String::from_str(alloc, "used"),
        StoreError::Same => String::from_str(alloc, "same"),
        StoreError::StaleOwner => String::from_str(alloc, "stale"),
        StoreError::Memory => String::from_str(alloc, "memory"),
    };
    Ok(text?)
}

fn named(alloc: Global, word: &str, name: &Name) -> Result<String, AllocError> {
    format!(in alloc; "{word} {}", name.0)
}

pub fn of_change(alloc: Global, answer: Result<Notices, StoreError>) -> anyhow::Result<String> {
    match answer {
        Ok(notices) => of_notices(alloc, &notices),
        Err(error) => of_error(alloc, &error),
    }
}

/// A value that was read, and from where it came.
pub fn of_read(alloc: Global, value: &Value, origin: &str) -> anyhow::Result<String> {
    let value = of_value(alloc, value)?;
    Ok(format!(in alloc; "value {value} {origin}")?)
}

fn of_notices(alloc: Global, notices: &Notices) -> anyhow::Result<String> {
    let mut text = String::from_str(alloc, "ok")?;
    match push_notices(alloc, &mut text, notices) {
        Ok(()) => Ok(text),
        Err(error) => Err(error.into()),
    }
}

fn push_notices(alloc: Global, text: &mut String, notices: &Notices) -> Result<(), AllocError> {
    if let Some(number) = notices.added {
        write!(text, " added {number}")?;
    }
    for notice in notices.invalid.as_slice() {
        write!(text, " invalid {} {}", notice.0.0, notice.1)?;
    }
    for notice in notices.changed.as_slice() {
        let before = of_value(alloc, &notice.2)?;
        let after = of_value(alloc, &notice.3)?;
        write!(text, " changed {} {} {before} {after}", notice.0.0, notice.1)?;
    }
    Ok(())
}

/// The flags of the first properties.
pub fn flags_of(alloc: Global, run: &Run) -> Result<String, AllocError> {
    let mut text = String::new(alloc);
    for place in 0..FLAGS {
        let flag = if run.store.is_unread(Name(place)) {
            "1"
        } else {
            "0"
        };
        text.push_str(flag)?;
    }
    Ok(text)
}
