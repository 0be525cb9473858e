//! Blocks of a window: some columns of some rows.
ghost use Rattle.std.specs.Prelude.{◌≡◌, ◌≤ℤ◌, ◌≤◌, pos};
ghost use Rattle.fx_canvas.specs.Painting.{AreEdges, HasEdges};

use fx_picture::Bounds;

/// The columns from `left` on and before `right`, in the rows from `top` on and before `bottom`.
#[derive(Clone, Copy)]
pub(crate) struct Block {
    pub(crate) left: usize,
    pub(crate) right: usize,
    pub(crate) top: usize,
    pub(crate) bottom: usize,
}

/// The block with these edges.
pub(crate) fn block_of(bounds: Bounds) -> Block
    requires { AreEdges bounds }
    ensures { HasEdges result bounds }
{
    Block {
        left: bounds.min_x as usize,
        right: bounds.max_x as usize,
        top: bounds.min_y as usize,
        bottom: bounds.max_y as usize,
    }
}
