//! A node from the words of a line: its number, the place of its parent or `-`, its class, and what else it has, each
//! word by its first sign. `#` stands before the id, `.` before a class, `:` before a pseudo-class, `~` before the
//! place of its inline style, and `@` before that of a sheet that it lists. `s9=i17` says that code set the value of
//! the style table's row 9, and `b9=i17` that a binding gives it; its letter says what it is: `i` a size, `t` a truth,
//! `p` the place of a position, `n` sides and `c` a colour.
use anyhow::bail;
use fx_base::{Color, Family, List, NodeKey, Sides, Text, Value};
use fx_kinds::{Class, StyleFacts, class_of};
use fx_look::{CodeValue, StyleName};
use std::alloc::Global;
use std::str::Split;

/// What a node has beside its number, its parent and its class.
#[derive(Drop)]
struct Traits {
    id: Text,
    classes: Vec<Text>,
    pseudos: Vec<Text>,
    inline: Option<usize>,
    sheets: Vec<usize>,
    codes: Vec<CodeValue>,
}

/// The facts of the node of a line.
pub fn read_node(alloc: Global, line: &str) -> anyhow::Result<StyleFacts> {
    let mut words = line.split(' ');
    let birth = next_word(&mut words)?.parse::<u32>()?;
    let parent = next_word(&mut words)?.parse::<usize>().ok();
    let class = read_class(next_word(&mut words)?)?;
    let mut traits = Traits::new(alloc);
    read_traits(alloc, &mut traits, &mut words)?;
    Ok(StyleFacts {
        key: NodeKey { slot: 7, birth },
        parent,
        class,
        id: traits.id,
        classes: List::from_vec(traits.classes),
        pseudos: List::from_vec(traits.pseudos),
        inline: traits.inline,
        sheets: List::from_vec(traits.sheets),
        codes: List::from_vec(traits.codes),
    })
}

impl Traits {
    fn new(alloc: Global) -> Traits {
        Traits {
            id: Text::new(alloc),
            classes: Vec::new(alloc),
            pseudos: Vec::new(alloc),
            inline: None,
            sheets: Vec::new(alloc),
            codes: Vec::new(alloc),
        }
    }
}

fn next_word<'a>(words: &mut Split<'a, char>) -> anyhow::Result<&'a str> {
    match words.next() {
        Some(word) => Ok(word),
        None => bail!("a word is wanting"),
    }
}

fn read_class(word: &str) -> anyhow::Result<Class> {
    match class_of(word) {
        Some(class) => Ok(class),
        None => bail!("no such class"),
    }
}

/// Puts the places of a line behind these.
pub fn read_places(line: &str, places: &mut Vec<usize>) -> anyhow::Result<()> {
    for word in line.split(' ') {
        if !word.is_empty() {
            places.push(read_place(word)?)?;
        }
    }
    Ok(())
}

/// The number of a place in a list.
fn read_place(word: &str) -> anyhow::Result<usize> {
    Ok(word.parse::<usize>()?)
}

fn read_traits(
    alloc: Global,
    traits: &mut Traits,
    words: &mut Split<'_, char>,
) -> anyhow::Result<()> {
    for word in words {
        let (sign, rest) = split_sign(word)?;
        read_trait(alloc, traits, sign, rest)?;
    }
    Ok(())
}

/// The first sign of a word, and what is behind it.
fn split_sign(word: &str) -> anyhow::Result<(u8, &str)> {
    let Some((sign, rest)) = word.split_at_checked(1) else {
        bail!("a word is empty");
    };
    Ok((sign.as_bytes().first().copied().unwrap_or(0), rest))
}

fn read_trait(alloc: Global, traits: &mut Traits, sign: u8, rest: &str) -> anyhow::Result<()> {
    match sign {
        b'#' => traits.id = Text::from_str(alloc, rest)?,
        b'.' => traits.classes.push(Text::from_str(alloc, rest)?)?,
        b':' => traits.pseudos.push(Text::from_str(alloc, rest)?)?,
        b'~' => traits.inline = Some(read_place(rest)?),
        b'@' => traits.sheets.push(read_place(rest)?)?,
        _ => traits.codes.push(read_code(rest, sign == b'b')?)?,
    }
    Ok(())
}

fn read_code(text: &str, bound: bool) -> anyhow::Result<CodeValue> {
    let Some((row, value)) = text.split_once('=') else {
        bail!("a value is wanting");
    };
    let style = StyleName(row.parse::<u32>()?);
    let value = read_value(value)?;
    Ok(CodeValue {
        style,
        value,
        bound,
    })
}

fn read_value(text: &str) -> anyhow::Result<Value> {
    let (letter, rest) = split_sign(text)?;
    match letter {
        b'i' => Ok(Value::Int(rest.parse::<i64>()?)),
        b't' => Ok(Value::Bool(rest == "1")),
        b'p' => Ok(Value::Choice(Family::Pos, rest.parse::<u8>()?)),
        b'n' => Ok(Value::Sides(read_sides(rest)?)),
        _ => Ok(Value::Color(read_color(rest)?)),
    }
}

fn read_sides(text: &str) -> anyhow::Result<Sides> {
    let mut numbers = text.split(',');
    Ok(Sides {
        top: next_word(&mut numbers)?.parse::<i64>()?,
        right: next_word(&mut numbers)?.parse::<i64>()?,
        bottom: next_word(&mut numbers)?.parse::<i64>()?,
        left: next_word(&mut numbers)?.parse::<i64>()?,
    })
}

fn read_color(text: &str) -> anyhow::Result<Color> {
    let mut numbers = text.split(',');
    Ok(Color {
        r: next_word(&mut numbers)?.parse::<u8>()?,
        g: next_word(&mut numbers)?.parse::<u8>()?,
        b: next_word(&mut numbers)?.parse::<u8>()?,
        a: next_word(&mut numbers)?.parse::<u8>()?,
    })
}
