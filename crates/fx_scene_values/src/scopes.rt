//! What the texts of a document are read with.
use fx_base::Text;
use fx_scene_things::Settled;

/// A document: the name of its file, the texts of its imports, and the nodes that were read already of the definitions
/// within the value that is read.
#[derive(Clone, Copy)]
pub struct Scope<'a> {
    pub file: &'a str,
    pub imports: &'a [Text],
    pub settled: &'a [Settled],
}
