//! The line `explain` on a stage with ample memory. What is done with the stage stands in functions that are lent it.
ghost use Rattle.std.specs.Prelude.{◌≡◌};

use fx_base::{Ledgers, List, Text, Work};
use fx_kinds::Class;
use fx_play_explain::explain_line;
use fx_play_steps::Trace;
use fx_stage::Stage;
use fx_stage_types::BuildStep;
use std::alloc::{AllocError, Global};
use std::marker::Brand;
use std::sync::ledger::Blank;

/// The path of one name.
fn path_of(alloc: Global, name: &str) -> Result<List<Text>, AllocError> {
    let Ok(name) = Text::from_str(alloc, name) else {
        return Err(AllocError);
    };
    let mut names = Vec::new(alloc);
    names.push(name)?;
    Ok(List::from_vec(names))
}

/// Makes a Button the root of the scene, named `b`.
fn has_a_button<L: Ledgers>(alloc: Global, stage: &mut Stage, work: &mut Work<L>) -> bool {
    let Ok(Some(key)) = stage.build(alloc, BuildStep::Node(Class::Button), work) else {
        return false;
    };
    let Ok(path) = path_of(alloc, "b") else {
        return false;
    };
    stage
        .build(alloc, BuildStep::Named(key, path), work)
        .is_ok()
        && stage.build(alloc, BuildStep::Root(key), work).is_ok()
}

/// Takes the line, and compares what it tells.
fn tells<L: Ledgers>(
    alloc: Global,
    stage: &mut Stage,
    trace: &mut Trace,
    work: &mut Work<L>,
) -> bool {
    let Ok(path) = path_of(alloc, "b") else {
        return false;
    };
    let Ok(name) = Text::from_str(alloc, "-fx-padding") else {
        return false;
    };
    explain_line(alloc, stage, 1, path.as_slice(), &name, trace, work).is_ok()
        && trace.text.as_slice() == b"win agent 0 1 0 1 3 3\n".as_slice()
}

fn tells_of_a_button<L: Ledgers>(
    alloc: Global,
    stage: &mut Stage,
    trace: &mut Trace,
    evaluated: Blank,
    styled: Blank,
    laid: Blank,
    painted: Blank,
) -> bool
    requires evaluated { (evaluated.name ≡ L.evaluated_name) × (evaluated.parts ≡ 1) }
    requires styled { (styled.name ≡ L.styled_name) × (styled.parts ≡ 1) }
    requires laid { (laid.name ≡ L.laid_name) × (laid.parts ≡ 1) }
    requires painted { (painted.name ≡ L.painted_name) × (painted.parts ≡ 1) }
{
    let mut work: Work<L> = Work::new(evaluated, styled, laid, painted);
    has_a_button(alloc, stage, &mut work) && tells(alloc, stage, trace, &mut work)
}

#[test]
fn a_button_has_its_padding_from_the_agent(rt: HostRuntime) {
    let alloc = rt.alloc();
    let mut stage = Stage::new(alloc);
    let mut trace = Trace::new(alloc);
    assert!(rt;
        tells_of_a_button::<Brand>(
            alloc,
            &mut stage,
            &mut trace,
            Blank::new(1),
            Blank::new(1),
            Blank::new(1),
            Blank::new(1),
        )
    );
}
