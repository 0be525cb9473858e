//! The rows of looks are those of the style table.
ghost use Rattle.std.specs.Prelude.{◌≡◌, map};
ghost use Rattle.fx_look.specs.Styles.{styles};
ghost use Rattle.fx_cascade.specs.Sources.{row_name};
ghost use Rattle.fx_node_style.specs.Rows.{rows};

/// Each field of a look is read from the row that the style table has at its place.
pub fn rows_are_named()
    ensures { map row_name rows ≡ map (λ row. row.name) styles }
{}
