//! Documents of a scene: fetched and read, or why not.
ghost use Rattle.std.specs.Prelude.{◌≡◌, ◌<◌, ◌≤◌, Err, IfOk, Ok, Some, length};
ghost use Rattle.fx_doc.specs.Judgements.{Tells};
ghost use Rattle.fx_doc.specs.Reads.{HasFault};
ghost use Rattle.fx_doc.specs.Views.{reading};
ghost use Rattle.fx_doc_runs.specs.declared.document.Document.{Document as Held};
ghost use Rattle.fx_doc_grammar.specs.Judgements.{Judgement};
ghost use Rattle.fx_load_parts.specs.Says.{LoadSays};
ghost use Rattle.fx_load_parts.specs.declared.files.LoadError.TheVariants.{Failed};
ghost use Rattle.fx_port.specs.Causes.{HasCause};
ghost use Rattle.fx_port.specs.Files.{Files};
ghost use Rattle.fx_scene_load.specs.Documents.{document_in, document_of, read_by_judgement};

use fx_doc::{DocError, Document, place_behind, read_document};
use fx_load_parts::{FileFault, LoadError, fetch_file};
use fx_port::Shelf;
use fx_scene_flaws::{FaultKind, Flaw};
use std::alloc::Global;

/// The document in the file of this name, which is of this number behind the script.
pub fn fetch_document<'a, F: Shelf>(
    alloc: Global,
    shelf: &mut F,
    file: usize,
    name: &'a str,
) -> Result<Document, LoadError<'a>>
    ensures held { F.held shelf.new ≡ F.held shelf.old }
    ensures cause { HasCause Failed (F.faults shelf.old) (F.faults shelf.new) result }
    ensures says { (files : Files) → F.held shelf.old ≡ Some files → LoadSays reading result
        (document_in files file name.now) }
    ensures few { IfOk result (λ _. file < 63) }
{
    let bytes = fetch_file(alloc, shelf, file, name)?;
    document_of(alloc, name, bytes.as_slice())
}

/// What the bytes of a file are read as, or why they are refused.
fn document_of<'a>(alloc: Global, name: &'a str, bytes: &[u8]) -> Result<Document, LoadError<'a>>
    requires { length bytes.now ≤ 4194304 }
    ensures says { LoadSays reading result (document_of name.now bytes.now) }
    ensures fetches_nothing { ¬ (result ≡ Err LoadError.Failed) }
{
    match read_document(alloc, bytes) {
        Ok(document) => Ok(document),
        Err(error) => Err(refused(name, bytes, error)),
    }
}

/// The refusal of a file that is no document.
fn refused<'a>(name: &'a str, bytes: &[u8], error: DocError) -> LoadError<'a>
    requires size { length bytes.now ≤ 4194304 }
    requires fault { HasFault bytes.now error }
    ensures says { (j : Judgement) → Tells (Err error) j →
        LoadSays {A = Held} reading (Err result) (read_by_judgement name.now bytes.now j) }
    ensures fetches_nothing { ¬ (result ≡ LoadError.Failed) }
{
    match error {
        DocError::NotUtf8(valid) => {
            let position = place_behind(bytes.split_at(valid).0);
            LoadError::Fault(FileFault::at(FaultKind::NotUtf8, name, position))
        }
        DocError::Markup(position) => {
            LoadError::Fault(FileFault::at(FaultKind::Markup, name, position))
        }
        DocError::Depth(position) | DocError::Long(position) => LoadError::Fault(FileFault::at(
            FaultKind::Flawed(Flaw::Limit),
            name,
            position,
        )),
        DocError::Memory => LoadError::Memory,
    }
}
