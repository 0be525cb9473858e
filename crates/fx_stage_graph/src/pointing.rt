//! Which nodes the pointer, the button and the focus are on.
ghost use Rattle.std.specs.Prelude.{◌≡◌};
ghost use Rattle.fx_stage_model.specs.Graphs.{kept_outside, outside};

use fx_base::NodeKey;
use fx_stage_tables::is_among;

/// What the pointer, the button and the focus are on.
#[derive(Drop)]
pub struct Pointing {
    /// The nodes that the pointer is over, from the outermost.
    pub hover: Vec<NodeKey>,
    /// The nodes that the button holds, from the outermost.
    pub pressed: Vec<NodeKey>,
    /// The node that was pressed, while the button is down.
    pub target: Option<NodeKey>,
    pub focus: Option<NodeKey>,
}

/// Takes out the keys that are gone.
pub(crate) fn leave(keys: &mut Vec<NodeKey>, gone: &[NodeKey])
    ensures { keys.new.items ≡ outside gone.now keys.old.items }
{
    keys.retain(|key| !is_among(gone, *key));
}

/// The key, if it isn't gone.
pub(crate) fn keep_outside(gone: &[NodeKey], kept: Option<NodeKey>) -> Option<NodeKey>
    ensures { result ≡ kept_outside gone.now kept }
{
    match kept {
        None => None,
        Some(key) => { if is_among(gone, key) { None } else { Some(key) } }
    }
}
