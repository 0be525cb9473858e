//! Whom a change told of what.
ghost use Rattle.std.specs.Prelude.{◌≡◌, ◌++◌, OnOk};
ghost use Rattle.std.specs.List.{flat_map};
ghost use Rattle.fx_stage_text.specs.Printing as spec;
ghost use Rattle.fx_stage_text.specs.Printing.{path_text};

use fx_base::{Name, Value};
use fx_stage::Stage;
use fx_stage_text::{put, put_path};
use fx_store_model::Notices;
use std::alloc::{AllocError, Global};

/// Appends a line for each listener that was told: first who was told that a value is unread, then who was told of
/// another value.
pub(crate) fn print_notices(
    alloc: Global,
    out: &mut Vec<u8>,
    stage: &Stage,
    notices: &Notices,
) -> Result<(), AllocError>
    ensures { OnOk result (out.new.items
        ≡ out.old.items ++ spec.notice_lines stage.now.names.written notices.now) }
{
    print_invalid(out, stage, notices.invalid.as_slice())?;
    print_changed(alloc, out, stage, notices.changed.as_slice())
}

fn print_invalid(
    out: &mut Vec<u8>,
    stage: &Stage,
    notices: &[(Name, u32)],
) -> Result<(), AllocError>
    ensures { OnOk result (out.new.items
        ≡ out.old.items ++ flat_map (spec.invalid_line stage.now.names.written) notices.now) }
{
    for notice in notices {
        print_unread(out, stage, notice)?;
    }
    Ok(())
}

#[tactic(auto, unfolding(fx_stage_text::specs::Printing::invalid_line))]
fn print_unread(out: &mut Vec<u8>, stage: &Stage, notice: &(Name, u32)) -> Result<(), AllocError>
    ensures { OnOk result (out.new.items
        ≡ out.old.items ++ spec.invalid_line stage.now.names.written notice.now) }
{
    put(out, b"invalid ")?;
    put_path_of(out, stage, notice.1)?;
    put(out, b"\n")
}

fn print_changed(
    alloc: Global,
    out: &mut Vec<u8>,
    stage: &Stage,
    notices: &[(Name, u32, Value, Value)],
) -> Result<(), AllocError>
    ensures { OnOk result (out.new.items
        ≡ out.old.items ++ flat_map (spec.changed_line stage.now.names.written) notices.now) }
{
    for notice in notices {
        print_change(alloc, out, stage, notice)?;
    }
    Ok(())
}

#[tactic(auto, unfolding(fx_stage_text::specs::Printing::changed_line))]
fn print_change(
    alloc: Global,
    out: &mut Vec<u8>,
    stage: &Stage,
    notice: &(Name, u32, Value, Value),
) -> Result<(), AllocError>
    ensures { OnOk result (out.new.items
        ≡ out.old.items ++ spec.changed_line stage.now.names.written notice.now) }
{
    put(out, b"changed ")?;
    put_path_of(out, stage, notice.1)?;
    put(out, b" ")?;
    notice.2.print(alloc, out)?;
    put(out, b" ")?;
    notice.3.print(alloc, out)?;
    put(out, b"\n")
}

/// Appends the path by which the listener of this number was asked for.
fn put_path_of(out: &mut Vec<u8>, stage: &Stage, listener: u32) -> Result<(), AllocError>
    ensures { OnOk result (out.new.items
        ≡ out.old.items ++ path_text (spec.path_of stage.now.names.written listener)) }
{
    match stage.written(listener) {
        None => Ok(()),
        Some(path) => put_path(out, path),
    }
}
