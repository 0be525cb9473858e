//! The line that tells a fault.
ghost use Rattle.std.specs.Prelude.{◌≡◌, IfOk};
ghost use Rattle.fx_load_parts.specs.Faults as spec;
ghost use Rattle.fx_load_parts.specs.Faults.{fault_line};
ghost use Rattle.fx_load_parts.specs.Views.{fault_of};
ghost use Rattle.fx_port.specs.Causes.{HasCause};
ghost use Rattle.fx_port.specs.Pieces.{Writes};
ghost use Rattle.fx_port.specs.declared.pieces.PutError.TheVariants.{Failed};

use crate::files::FileFault;
use fx_base::Position;
use fx_port::{PutError, Sink};
use fx_scene_flaws::{FaultKind, Flaw};
use std::alloc::{AllocError, Global};

/// Writes `fault KIND FILE LINE COLUMN`.
pub fn put_fault<O: Sink>(alloc: Global, fault: &FileFault<'_>, out: &mut O) -> Result<(), PutError>
    ensures cause { HasCause Failed (O.faults out.old) (O.faults out.new) result }
    ensures writes { Writes (O.written out.old) (O.written out.new) result (fault_line (fault_of fault.now)) }
{
    let text = fault_text(alloc, fault)?;
    out.put(text.as_slice())
}

#[tactic(auto, unfolding(crate::specs::Faults::fault_line))]
fn fault_text(alloc: Global, fault: &FileFault<'_>) -> Result<Vec<u8>, AllocError>
    ensures { IfOk result (λ text. text.items ≡ fault_line (fault_of fault.now)) }
{
    let word = kind_word(fault.kind);
    let file = fault.file;
    let Position { line, column } = fault.position;
    Ok(format!(in alloc; "fault {word} {file} {line} {column}\n")?.into_bytes())
}

#[tactic(auto, unfolding(crate::specs::Faults::kind_word))]
fn kind_word(kind: FaultKind) -> &'static str
    ensures { result.now ≡ spec.kind_word kind }
{
    match kind {
        FaultKind::Missing => "missing",
        FaultKind::TooLarge => "toolarge",
        FaultKind::NotUtf8 => "notutf8",
        FaultKind::Markup => "markup",
        FaultKind::Flawed(flaw) => flaw_word(flaw),
    }
}

#[tactic(auto, unfolding(crate::specs::Faults::flaw_word))]
fn flaw_word(flaw: Flaw) -> &'static str
    ensures { result.now ≡ spec.flaw_word flaw }
{
    match flaw {
        Flaw::Class => "class",
        Flaw::Import => "import",
        Flaw::Property => "property",
        Flaw::Value => "value",
        Flaw::Duplicate => "duplicate",
        Flaw::Name => "name",
        Flaw::IncludeCycle => "includecycle",
        Flaw::Expression => "expression",
        Flaw::Kinds => "type",
        Flaw::Cycle => "cycle",
        Flaw::Child => "child",
        Flaw::ReadOnly => "readonly",
        Flaw::Limit => "limit",
    }
}
