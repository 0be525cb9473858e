//! The scene that a frame is made of.
ghost use Rattle.std.specs.Prelude.{◌≡◌};
ghost use Rattle.fx_pulse_touched.specs.Sights.{scene_of, seen};

use fx_base::List;
use fx_css_types::SheetAt;
use fx_kinds::{BoxFacts, StyleFacts};
use std::alloc::Global;

/// The sheets, and of each node that hangs on the root, in pre-order, the facts for its style, those for its layout,
/// and whether it is disabled itself.
#[derive(Clone, Copy)]
pub struct Scene<'a> {
    pub sheets: &'a [SheetAt],
    pub styles: &'a [StyleFacts],
    pub boxes: &'a [BoxFacts],
    pub disabled: &'a [bool],
}

/// The same lists, owned.
#[derive(Drop)]
pub struct SceneLists {
    pub sheets: List<SheetAt>,
    pub styles: List<StyleFacts>,
    pub boxes: List<BoxFacts>,
    pub disabled: List<bool>,
}

impl SceneLists {
    /// No nodes and no sheets.
    pub fn new(alloc: Global) -> SceneLists {
        SceneLists {
            sheets: List::new(alloc),
            styles: List::new(alloc),
            boxes: List::new(alloc),
            disabled: List::new(alloc),
        }
    }

    /// Lends them.
    pub fn scene(&self) -> Scene<'_>
        ensures { seen result ≡ scene_of self.now }
    {
        Scene {
            sheets: self.sheets.as_slice(),
            styles: self.styles.as_slice(),
            boxes: self.boxes.as_slice(),
            disabled: self.disabled.as_slice(),
        }
    }
}
