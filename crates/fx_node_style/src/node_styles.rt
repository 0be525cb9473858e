//! What is kept of a node's style.

use fx_base::List;
use fx_look::Look;
use fx_lookup::NamedPaint;

/// The look of a node, and its paints that are looked up by name: of the names that are no rows of the style table, and
/// of `-fx-text-fill`, the one row that has one paint.
#[derive(Drop)]
pub struct NodeStyle {
    pub look: Look,
    pub paints: List<NamedPaint>,
}
