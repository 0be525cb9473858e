//! A pane and its children from the words of a line. A fact is a letter and a number: `a`, `b` and `c` are minimum,
//! preferred and maximum width, `d`, `e` and `f` the same of the height, and `t`, `r`, `u` and `l` are the top, right,
//! bottom and left of insets or a margin; the functions below have the other letters. What isn't said is as in a new
//! pane, and a child grows without end.
use anyhow::bail;
use fx_base::{ChildSize, List, PaneFacts, Sides, Sizes, Text, Track};
use std::alloc::Global;
use std::str::Split;

/// A pane with its children, and the size that it is given.
#[derive(Drop)]
pub struct Case<'a> {
    pub class: &'a str,
    pub width: i64,
    pub height: i64,
    pub facts: PaneFacts,
    pub children: Vec<ChildSize>,
}

const NO_SIDES: Sides = Sides {
    top: 0,
    right: 0,
    bottom: 0,
    left: 0,
};

const NO_SIZES: Sizes = Sizes {
    min_w: -1,
    pref_w: -1,
    max_w: -1,
    min_h: -1,
    pref_h: -1,
    max_h: -1,
};

const CHILD: ChildSize = ChildSize {
    sizes: Sizes {
        min_w: 0,
        pref_w: 0,
        max_w: 100_000,
        min_h: 0,
        pref_h: 0,
        max_h: 100_000,
    },
    margin: NO_SIDES,
    hgrow: None,
    vgrow: None,
    alignment: None,
    halign: None,
    valign: None,
    top: None,
    right: None,
    bottom: None,
    left: None,
    column: 0,
    row: 0,
    column_span: 1,
    row_span: 1,
    fill_width: true,
    fill_height: true,
    edge: None,
    layout_x: 0,
    layout_y: 0,
};

const TRACK: Track = Track {
    min: -1,
    pref: -1,
    max: -1,
    grow: None,
    align: None,
};

/// The pane of a line.
pub fn read_case<'a>(alloc: Global, line: &'a str) -> anyhow::Result<Case<'a>> {
    let (head, rest) = line.split_once(';').unwrap_or((line, ""));
    let mut words = head.split(' ');
    let class = words.next().unwrap_or("");
    let width = next_number(&mut words)?;
    let height = next_number(&mut words)?;
    let mut case = Case {
        class,
        width,
        height,
        facts: read_facts(alloc, &mut words)?,
        children: Vec::new(alloc),
    };
    if !rest.is_empty() {
        read_pieces(alloc, rest, &mut case)?;
    }
    Ok(case)
}

fn next_number(words: &mut Split<'_, char>) -> anyhow::Result<i64> {
    match words.next() {
        Some(word) => Ok(word.parse::<i64>()?),
        None => bail!("a number is wanting"),
    }
}

fn read_pieces(alloc: Global, rest: &str, case: &mut Case<'_>) -> anyhow::Result<()> {
    let mut columns = Vec::new(alloc);
    let mut rows = Vec::new(alloc);
    for piece in rest.split(';') {
        let (word, facts) = piece.split_once(' ').unwrap_or((piece, ""));
        match word {
            "child" => case.children.push(read_child(facts)?)?,
            "column" => columns.push(read_track(facts)?)?,
            "row" => rows.push(read_track(facts)?)?,
            "text" => case.facts.text = Text::from_str(alloc, facts)?,
            _ => bail!("no such piece"),
        }
    }
    case.facts.columns = List::from_vec(columns);
    case.facts.rows = List::from_vec(rows);
    Ok(())
}

/// The letter and the number of a fact.
fn split_fact(word: &str) -> anyhow::Result<(u8, i64)> {
    let Some((letter, digits)) = word.split_at_checked(1) else {
        bail!("a fact is wanting");
    };
    let letter = letter.as_bytes().first().copied().unwrap_or(0);
    Ok((letter, digits.parse::<i64>()?))
}

fn choice(number: i64) -> Option<u8> {
    u8::try_from(number).ok()
}

fn count(number: i64) -> u32 {
    u32::try_from(number).unwrap_or(0)
}

/// Sets one of the six sizes or four sides, or answers false.
fn set_length(sizes: &mut Sizes, sides: &mut Sides, letter: u8, number: i64) -> bool {
    match letter {
        b'a' => sizes.min_w = number,
        b'b' => sizes.pref_w = number,
        b'c' => sizes.max_w = number,
        b'd' => sizes.min_h = number,
        b'e' => sizes.pref_h = number,
        b'f' => sizes.max_h = number,
        b't' => sides.top = number,
        b'r' => sides.right = number,
        b'u' => sides.bottom = number,
        b'l' => sides.left = number,
        _ => return false,
    }
    true
}

/// `p` is alignment, `s` spacing, `h` and `v` are the gaps, `x` and `y` fillWidth and fillHeight, `z` is the font's
/// size and `w` wrapText.
fn read_facts(alloc: Global, words: &mut Split<'_, char>) -> anyhow::Result<PaneFacts> {
    let mut facts = PaneFacts {
        own: NO_SIZES,
        insets: NO_SIDES,
        alignment: 0,
        spacing: 0,
        hgap: 0,
        vgap: 0,
        fill_width: true,
        fill_height: true,
        font_size: 6,
        text: Text::new(alloc),
        wrap: false,
        columns: List::new(alloc),
        rows: List::new(alloc),
    };
    for word in words {
        let (letter, number) = split_fact(word)?;
        if !set_length(&mut facts.own, &mut facts.insets, letter, number) {
            set_fact(&mut facts, letter, number);
        }
    }
    Ok(facts)
}

fn set_fact(facts: &mut PaneFacts, letter: u8, number: i64) {
    match letter {
        b'p' => facts.alignment = choice(number).unwrap_or(0),
        b's' => facts.spacing = number,
        b'h' => facts.hgap = number,
        b'v' => facts.vgap = number,
        b'x' => facts.fill_width = number == 1,
        b'y' => facts.fill_height = number == 1,
        b'z' => facts.font_size = number,
        _ => facts.wrap = number == 1,
    }
}

fn read_child(facts: &str) -> anyhow::Result<ChildSize> {
    let mut child = CHILD;
    for word in facts.split(' ') {
        if !word.is_empty() {
            let (letter, number) = split_fact(word)?;
            if !set_length(&mut child.sizes, &mut child.margin, letter, number)
                && !set_cell(&mut child, letter, number)
            {
                set_place(&mut child, letter, number);
            }
        }
    }
    Ok(child)
}

/// `i` and `I` are column and column span, `j` and `J` row and row span, `h` and `v` the alignments in cells, and `x`
/// and `y` fillWidth and fillHeight.
fn set_cell(child: &mut ChildSize, letter: u8, number: i64) -> bool {
    match letter {
        b'i' => child.column = count(number),
        b'j' => child.row = count(number),
        b'I' => child.column_span = count(number),
        b'J' => child.row_span = count(number),
        b'h' => child.halign = choice(number),
        b'v' => child.valign = choice(number),
        b'x' => child.fill_width = number == 1,
        b'y' => child.fill_height = number == 1,
        _ => return false,
    }
    true
}

/// `g` and `G` are hgrow and vgrow, `p` is alignment, `k` the edge, `A`, `E`, `U` and `L` are the anchors at the top,
/// right, bottom and left, and `X` and `Y` the place.
fn set_place(child: &mut ChildSize, letter: u8, number: i64) {
    match letter {
        b'g' => child.hgrow = choice(number),
        b'G' => child.vgrow = choice(number),
        b'p' => child.alignment = choice(number),
        b'k' => child.edge = choice(number),
        b'A' => child.top = Some(number),
        b'E' => child.right = Some(number),
        b'U' => child.bottom = Some(number),
        b'L' => child.left = Some(number),
        b'X' => child.layout_x = number,
        _ => child.layout_y = number,
    }
}

/// `a`, `b` and `c` are minimum, preferred and maximum length, `g` is the priority and `p` the alignment.
fn read_track(facts: &str) -> anyhow::Result<Track> {
    let mut track = TRACK;
    for word in facts.split(' ') {
        if !word.is_empty() {
            let (letter, number) = split_fact(word)?;
            set_track(&mut track, letter, number);
        }
    }
    Ok(track)
}

fn set_track(track: &mut Track, letter: u8, number: i64) {
    match letter {
        b'a' => track.min = number,
        b'b' => track.pref = number,
        b'c' => track.max = number,
        b'g' => track.grow = choice(number),
        _ => track.align = choice(number),
    }
}
