//! The laws of a canvas from one frame to the next.
ghost use Rattle.std.specs.Prelude.{◌≡◌, ℕ, List, Option, Some, true};
ghost use Rattle.std.specs.List.{list_all};
ghost use Rattle.fx_picture.specs.Entries.{HasDistinctBirths, Rises};
ghost use Rattle.fx_picture.specs.declared.entries.Entry.{Entry as Node};
ghost use Rattle.fx_damage.specs.Damage.{damage};
ghost use Rattle.fx_canvas.specs.Surfaces.{Surface, lies_in};
ghost use Rattle.fx_canvas_laws.specs.Frames.{IsRepainted, Shows};

/// A canvas that shows a picture shows the next one after the rectangles of the damage between both are painted anew.
pub fn frames_follow()
    ensures { (olds nows : List Node) (before after : Surface) → Rises olds → Rises nows → HasDistinctBirths olds
        → HasDistinctBirths nows → Shows before olds
        → IsRepainted before nows (damage (Some olds) nows before.width before.height) after → Shows after nows }
{}

/// Every rectangle of the damage of a window lies in the window, so that it can be painted anew.
pub fn damage_lies_in_the_window()
    ensures { (olds : Option (List Node)) (nows : List Node) (w h : ℕ)
        → list_all (lies_in w h) (damage olds nows w h) ≡ true }
{}
