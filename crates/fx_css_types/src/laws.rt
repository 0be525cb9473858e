//! What sheets within their limits give to the layers above.
ghost use Rattle.std.specs.Prelude.{List};
ghost use Rattle.fx_css_types.specs.declared.sheets.SheetAt.{SheetAt};
ghost use Rattle.fx_css_types.specs.Limits.{AreShort, AreWithinLimits};

/// Sheets within their limits are short enough to be matched.
pub fn sheets_within_limits_are_short()
    ensures { (sheets : List SheetAt) → AreWithinLimits sheets → AreShort sheets }
{}
