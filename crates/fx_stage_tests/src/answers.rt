//! Refusals by their words.
use fx_base::Name;
use fx_events::EventError;
use fx_stage_types::{Refusal, StageError};
use fx_store_model::StoreError;
use fx_tree::TreeError;
use std::alloc::AllocError;

#[test]
fn a_refusal_has_its_word(rt: HostRuntime) {
    assert!(rt; Refusal::WouldLoop.word() == "wouldloop");
}

fn is(error: StageError, refusal: Refusal) -> bool {
    error == StageError::Refused(refusal)
}

fn are_refused() -> bool {
    is(StageError::from(StoreError::InUse(Name(3))), Refusal::Used)
        && is(StageError::from(TreeError::Depth), Refusal::Depth)
        && is(StageError::from(EventError::Full), Refusal::Full)
        && is(StageError::from(Refusal::Syntax), Refusal::Syntax)
        && StageError::from(AllocError) == StageError::Memory
}

#[test]
fn the_parts_refuse_in_the_words_of_scripts(rt: HostRuntime) {
    assert!(rt; are_refused());
}
