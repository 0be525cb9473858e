//! The colour names, and the colour of each.
//! Colours in any case of letters are read by them.
ghost use Rattle.std.specs.Prelude.{◌≡◌, map, ℕ, List};
ghost use Rattle.std.specs.Option.{option_map};
ghost use Rattle.std.specs.List.{find};
ghost use Rattle.std.specs.Str.{bytes_eq, str_to_ascii_lowercase};
ghost use Rattle.fx_look.specs.ColorNames.{names};
ghost use Rattle.fx_look.specs.Colors.{entry_at, same_letters};

/// Each name with its colour as 0x00RRGGBB, a choice among the names of the JavaFX CSS Reference Guide.
const NAMES: [(&str, u32); 53] = [
    ("aqua", 0x0000_ffff),
    ("aquamarine", 0x007f_ffd4),
    ("azure", 0x00f0_ffff),
    ("beige", 0x00f5_f5dc),
    ("bisque", 0x00ff_e4c4),
    ("black", 0x0000_0000),
    ("blue", 0x0000_00ff),
    ("brown", 0x00a5_2a2a),
    ("chocolate", 0x00d2_691e),
    ("coral", 0x00ff_7f50),
    ("crimson", 0x00dc_143c),
    ("cyan", 0x0000_ffff),
    ("darkblue", 0x0000_008b),
    ("darkgray", 0x00a9_a9a9),
    ("darkgreen", 0x0000_6400),
    ("darkred", 0x008b_0000),
    ("dodgerblue", 0x001e_90ff),
    ("fuchsia", 0x00ff_00ff),
    ("gold", 0x00ff_d700),
    ("gray", 0x0080_8080),
    ("green", 0x0000_8000),
    ("grey", 0x0080_8080),
    ("indigo", 0x004b_0082),
    ("ivory", 0x00ff_fff0),
    ("khaki", 0x00f0_e68c),
    ("lavender", 0x00e6_e6fa),
    ("lightblue", 0x00ad_d8e6),
    ("lightgray", 0x00d3_d3d3),
    ("lightgreen", 0x0090_ee90),
    ("lime", 0x0000_ff00),
    ("magenta", 0x00ff_00ff),
    ("maroon", 0x0080_0000),
    ("navy", 0x0000_0080),
    ("olive", 0x0080_8000),
    ("orange", 0x00ff_a500),
    ("orchid", 0x00da_70d6),
    ("pink", 0x00ff_c0cb),
    ("plum", 0x00dd_a0dd),
    ("purple", 0x0080_0080),
    ("red", 0x00ff_0000),
    ("salmon", 0x00fa_8072),
    ("sienna", 0x00a0_522d),
    ("silver", 0x00c0_c0c0),
    ("skyblue", 0x0087_ceeb),
    ("steelblue", 0x0046_82b4),
    ("tan", 0x00d2_b48c),
    ("teal", 0x0000_8080),
    ("tomato", 0x00ff_6347),
    ("turquoise", 0x0040_e0d0),
    ("violet", 0x00ee_82ee),
    ("wheat", 0x00f5_deb3),
    ("white", 0x00ff_ffff),
    ("yellow", 0x00ff_ff00),
];

/// The colour that this name has in any case of letters, as 0x00RRGGBB.
pub fn named(name: &[u8]) -> Option<u32>
    ensures { result ≡ entry_at names name.now }
{
    entry(&NAMES, name)
}

fn entry(table: &[(&str, u32)], name: &[u8]) -> Option<u32>
    ensures { result ≡ entry_at (map (λ e. (e.0.now, e.1)) table.now) name.now }
{
    find_entry(table, name)
}

fn find_entry(table: &[(&str, u32)], name: &[u8]) -> Option<u32>
    ensures { result ≡ option_map (λ e. e.1) (find (λ e. same_letters e.0.now name.now) table.now) }
{
    table
        .iter()
        .find(|e| same_letters(e.0.as_bytes(), name))
        .map(|e| e.1)
}

/// Are the two one text in any case of ASCII letters?
pub fn same_letters(a: &[u8], b: &[u8]) -> bool
    ensures { result ≡ same_letters a.now b.now }
{
    a.eq_ignore_ascii_case(b)
}
