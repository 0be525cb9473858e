//! A node from its text: its class, the slot and the birth of its key, its parent's place or `-`, and its facts, each a
//! letter and a number. `a`, `b` and `c` are minimum, preferred and maximum width, `d`, `e` and `f` the same of the
//! height, `t`, `r`, `u` and `l` the padding at the top, right, bottom and left, and the functions below have the other
//! letters. Behind semicolons stand its text, its tracks, the layers of its border and its constraints, as in `text AB
//! CD`, `column b3 g1`, `border 1 1 1 1 0 0 0 0` (the widths and the insets of a layer) and `HBox.hgrow ALWAYS`. What
//! isn't said is as nothing styles it.
use anyhow::bail;
use fx_base::{Color, List, NodeKey, Sides, Text, Track};
use fx_kinds::{BoxFacts, Class, Constraint, class_of, constraint_value};
use fx_look::Look;
use std::alloc::Global;
use std::str::Split;

const TRACK: Track = Track {
    min: -1,
    pref: -1,
    max: -1,
    grow: None,
    align: None,
};

const BLACK: Color = Color {
    r: 0,
    g: 0,
    b: 0,
    a: 255,
};

/// The facts and the look of a node.
pub fn read_node(alloc: Global, text: &str) -> anyhow::Result<(BoxFacts, Look)> {
    let (head, rest) = text.split_once(';').unwrap_or((text, ""));
    let mut words = head.split(' ');
    let mut node = new_node(alloc, &mut words)?;
    let mut look = Look::initial(alloc, 0)?;
    match read_facts(alloc, &mut words, rest, &mut node, &mut look) {
        Ok(()) => Ok((node, look)),
        Err(error) => Err(error),
    }
}

fn read_facts(
    alloc: Global,
    words: &mut Split<'_, char>,
    rest: &str,
    node: &mut BoxFacts,
    look: &mut Look,
) -> anyhow::Result<()> {
    for word in words {
        let (letter, number) = split_fact(word)?;
        set_fact(node, look, letter, number);
    }
    if rest.is_empty() {
        return Ok(());
    }
    read_pieces(alloc, rest, node)?;
    read_borders(alloc, rest, look)
}

fn new_node(alloc: Global, words: &mut Split<'_, char>) -> anyhow::Result<BoxFacts> {
    let class = read_class(words.next().unwrap_or(""))?;
    let key = read_key(words.next().unwrap_or(""))?;
    let parent = read_parent(words.next().unwrap_or(""))?;
    Ok(BoxFacts {
        key,
        parent,
        class,
        constraints: List::new(alloc),
        edge: None,
        columns: List::new(alloc),
        rows: List::new(alloc),
        text: Text::new(alloc),
        layout_x: 0,
        layout_y: 0,
        focus_traversable: false,
    })
}

fn read_class(word: &str) -> anyhow::Result<Class> {
    match class_of(word) {
        Some(class) => Ok(class),
        None => bail!("no such class"),
    }
}

fn read_key(word: &str) -> anyhow::Result<NodeKey> {
    let Some((slot, birth)) = word.split_once('.') else {
        bail!("no key");
    };
    Ok(NodeKey {
        slot: slot.parse::<usize>()?,
        birth: birth.parse::<u32>()?,
    })
}

fn read_parent(word: &str) -> anyhow::Result<Option<usize>> {
    if word == "-" {
        return Ok(None);
    }
    Ok(Some(word.parse::<usize>()?))
}

/// The letter and the number of a fact.
fn split_fact(word: &str) -> anyhow::Result<(u8, i64)> {
    let Some((letter, digits)) = word.split_at_checked(1) else {
        bail!("a fact is wanting");
    };
    let letter = letter.as_bytes().first().copied().unwrap_or(0);
    Ok((letter, digits.parse::<i64>()?))
}

fn choice(number: i64) -> Option<u8> {
    u8::try_from(number).ok()
}

/// `k` is the edge of a BorderPane, and `X` and `Y` are the place.
fn set_fact(node: &mut BoxFacts, look: &mut Look, letter: u8, number: i64) {
    match letter {
        b'k' => node.edge = choice(number),
        b'X' => node.layout_x = number,
        b'Y' => node.layout_y = number,
        _ => {
            if !set_length(look, letter, number) {
                set_look(look, letter, number);
            }
        }
    }
}

/// Sets one of the six sizes or four paddings, or answers false.
fn set_length(look: &mut Look, letter: u8, number: i64) -> bool {
    match letter {
        b'a' => look.min_width = number,
        b'b' => look.pref_width = number,
        b'c' => look.max_width = number,
        b'd' => look.min_height = number,
        b'e' => look.pref_height = number,
        b'f' => look.max_height = number,
        b't' => look.padding.top = number,
        b'r' => look.padding.right = number,
        b'u' => look.padding.bottom = number,
        b'l' => look.padding.left = number,
        _ => return false,
    }
    true
}

/// `p` is alignment, `s` spacing, `h` and `v` are the gaps, `x` and `y` fillWidth and fillHeight, `z` is the font's
/// size and `w` wrapText.
fn set_look(look: &mut Look, letter: u8, number: i64) {
    match letter {
        b'p' => look.alignment = choice(number).unwrap_or(0),
        b's' => look.spacing = number,
        b'h' => look.hgap = number,
        b'v' => look.vgap = number,
        b'x' => look.fill_width = number == 1,
        b'y' => look.fill_height = number == 1,
        b'z' => look.font_size = number,
        _ => look.wrap_text = number == 1,
    }
}

/// The lists of a node, as far as they are read.
#[derive(Drop)]
struct Lists {
    columns: Vec<Track>,
    rows: Vec<Track>,
    constraints: Vec<Constraint>,
}

fn read_pieces(alloc: Global, rest: &str, node: &mut BoxFacts) -> anyhow::Result<()> {
    let mut lists = Lists {
        columns: Vec::new(alloc),
        rows: Vec::new(alloc),
        constraints: Vec::new(alloc),
    };
    let read = read_lists(alloc, rest, node, &mut lists);
    node.columns = List::from_vec(lists.columns);
    node.rows = List::from_vec(lists.rows);
    node.constraints = List::from_vec(lists.constraints);
    read
}

fn read_lists(
    alloc: Global,
    rest: &str,
    node: &mut BoxFacts,
    lists: &mut Lists,
) -> anyhow::Result<()> {
    for piece in rest.split(';') {
        let (word, facts) = piece.split_once(' ').unwrap_or((piece, ""));
        match word {
            "text" => node.text = Text::from_str(alloc, facts)?,
            "column" => lists.columns.push(read_track(facts)?)?,
            "row" => lists.rows.push(read_track(facts)?)?,
            "border" => {}
            _ => lists
                .constraints
                .push(read_constraint(alloc, word, facts)?)?,
        }
    }
    Ok(())
}

/// The layers of a border, as far as they are read.
#[derive(Drop)]
struct Layers {
    colors: Vec<Color>,
    widths: Vec<Sides>,
    insets: Vec<Sides>,
}

/// The layers of a border.
fn read_borders(alloc: Global, rest: &str, look: &mut Look) -> anyhow::Result<()> {
    let mut layers = Layers {
        colors: Vec::new(alloc),
        widths: Vec::new(alloc),
        insets: Vec::new(alloc),
    };
    let read = read_layers(rest, &mut layers);
    look.border_color = List::from_vec(layers.colors);
    look.border_width = List::from_vec(layers.widths);
    look.border_insets = List::from_vec(layers.insets);
    read
}

fn read_layers(rest: &str, layers: &mut Layers) -> anyhow::Result<()> {
    for piece in rest.split(';') {
        let (word, facts) = piece.split_once(' ').unwrap_or((piece, ""));
        if word == "border" {
            let mut numbers = facts.split(' ');
            layers.colors.push(BLACK)?;
            layers.widths.push(read_sides(&mut numbers)?)?;
            layers.insets.push(read_sides(&mut numbers)?)?;
        }
    }
    Ok(())
}

fn read_sides(numbers: &mut Split<'_, char>) -> anyhow::Result<Sides> {
    Ok(Sides {
        top: next_number(numbers)?,
        right: next_number(numbers)?,
        bottom: next_number(numbers)?,
        left: next_number(numbers)?,
    })
}

fn next_number(numbers: &mut Split<'_, char>) -> anyhow::Result<i64> {
    match numbers.next() {
        Some(word) => Ok(word.parse::<i64>()?),
        None => bail!("a number is wanting"),
    }
}

fn read_constraint(alloc: Global, name: &str, text: &str) -> anyhow::Result<Constraint> {
    match constraint_value(alloc, name, text)? {
        Some(value) => Ok(Constraint {
            name: Text::from_str(alloc, name)?,
            value,
        }),
        None => bail!("no such constraint"),
    }
}

/// `a`, `b` and `c` are minimum, preferred and maximum length, `g` is the priority and `p` the alignment.
fn read_track(facts: &str) -> anyhow::Result<Track> {
    let mut track = TRACK;
    for word in facts.split(' ') {
        if !word.is_empty() {
            let (letter, number) = split_fact(word)?;
            set_track(&mut track, letter, number);
        }
    }
    Ok(track)
}

fn set_track(track: &mut Track, letter: u8, number: i64) {
    match letter {
        b'a' => track.min = number,
        b'b' => track.pref = number,
        b'c' => track.max = number,
        b'g' => track.grow = choice(number),
        _ => track.align = choice(number),
    }
}
