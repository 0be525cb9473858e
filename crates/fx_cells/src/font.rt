//! The font: a glyph of three columns and five rows for each printable character of ASCII.
//! It stands by itself; painting enlarges the glyphs.
ghost use Rattle.std.specs.Prelude.{◌≡◌, ◌-◌, ◌^◌, ◌<◌, length, slice_index};
ghost use Rattle.fx_cells.specs.Font.{glyph_of, glyphs};

/// The glyph of each character that has none of its own: a full block.
const BLOCK: u16 = 0o77777;

/// The glyphs from the space to the tilde.
static GLYPHS: [u16; 95] = [
    0o00000, 0o22202, 0o55000, 0o57575, 0o36236, 0o51245, 0o25253, 0o22000, 0o12221, 0o42224,
    0o05250, 0o02720, 0o00024, 0o00700, 0o00002, 0o11244, 0o75557, 0o26227, 0o71747, 0o71717,
    0o55711, 0o74717, 0o74757, 0o71111, 0o75757, 0o75717, 0o02020, 0o02024, 0o12421, 0o07070,
    0o42124, 0o71202, 0o75743, 0o25755, 0o65656, 0o34443, 0o65556, 0o74647, 0o74644, 0o34553,
    0o55755, 0o72227, 0o11152, 0o55655, 0o44447, 0o57755, 0o65555, 0o25552, 0o65644, 0o25563,
    0o65655, 0o34216, 0o72222, 0o55557, 0o55552, 0o55775, 0o55255, 0o55222, 0o71247, 0o64446,
    0o44211, 0o31113, 0o25000, 0o00007, 0o42000, 0o03553, 0o44656, 0o03443, 0o11353, 0o02743,
    0o12722, 0o03536, 0o44655, 0o20222, 0o10152, 0o44565, 0o62227, 0o07755, 0o06555, 0o02552,
    0o06564, 0o03531, 0o03444, 0o03616, 0o27221, 0o05553, 0o05552, 0o05577, 0o05225, 0o05536,
    0o07147, 0o32623, 0o22222, 0o62326, 0o03600,
];

/// The glyph of a character: five rows of three bits, from the top row in the highest three bits to the
/// bottom row in the lowest three, with the left column in the greatest bit of each row.
pub fn glyph(c: char) -> u16
    ensures value { result ≡ glyph_of c }
    ensures bits { result < 2 ^ 15 }
{
    match c {
        ' '..='~' => glyph_at(c as usize - ' ' as usize),
        _ => BLOCK,
    }
}

fn glyph_at(place: usize) -> u16
    requires { place < 95 }
    ensures value { result ≡ slice_index glyphs place }
    ensures bits { result < 2 ^ 15 }
{
    GLYPHS[place]
}
