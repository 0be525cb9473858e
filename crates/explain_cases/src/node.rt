//! What is given of a node: the sheets, those that it sees, the rules that match it, and its code values.
use crate::words::number;
use anyhow::bail;
use fx_base::{List, Text, Value};
use fx_css_types::{Candidate, Declaration, Declared, Rule, Sheet, SheetAt, SheetOrigin};
use fx_look::{CodeValue, style_named};
use std::alloc::{AllocError, Global};

#[derive(Drop)]
pub struct Node {
    pub sheets: Vec<SheetAt>,
    pub seen: Vec<usize>,
    pub matched: Vec<Candidate>,
    pub codes: Vec<CodeValue>,
}

impl Node {
    pub fn new(alloc: Global) -> Node {
        Node {
            sheets: Vec::new(alloc),
            seen: Vec::new(alloc),
            matched: Vec::new(alloc),
            codes: Vec::new(alloc),
        }
    }

    /// Takes a line: its first word, and the others.
    pub fn take(&mut self, alloc: Global, word: &str, words: &[&str]) -> anyhow::Result<()> {
        match word {
            "sheet" => self.take_sheet(alloc, words),
            "rule" => self.take_rule(alloc, words),
            "seen" => self.take_seen(words),
            "match" => self.take_match(words),
            "code" => self.take_code(words),
            _ => bail!("no such line"),
        }
    }

    fn take_sheet(&mut self, alloc: Global, words: &[&str]) -> anyhow::Result<()> {
        self.sheets.push(SheetAt {
            sheet: Sheet {
                rules: List::new(alloc),
                warnings: List::new(alloc),
            },
            origin: origin(words)?,
        })?;
        Ok(())
    }

    /// A further rule of the last sheet.
    fn take_rule(&mut self, alloc: Global, names: &[&str]) -> anyhow::Result<()> {
        let Some(last) = self.sheets.pop() else {
            bail!("a rule without a sheet");
        };
        let SheetAt { sheet, origin } = last;
        let mut rules = sheet.rules.into_vec();
        rules.push(Rule {
            selectors: List::new(alloc),
            declarations: List::from_vec(declarations(alloc, names)?),
        })?;
        self.sheets.push(SheetAt {
            sheet: Sheet {
                rules: List::from_vec(rules),
                warnings: List::new(alloc),
            },
            origin,
        })?;
        Ok(())
    }

    fn take_seen(&mut self, words: &[&str]) -> anyhow::Result<()> {
        for place in 0..words.len() {
            self.seen.push(number(words, place)? as usize)?;
        }
        Ok(())
    }

    fn take_match(&mut self, words: &[&str]) -> anyhow::Result<()> {
        let sheet = number(words, 0)? as usize;
        let Some(given) = self.sheets.as_slice().get(sheet) else {
            bail!("a match without a sheet");
        };
        self.matched.push(Candidate {
            sheet,
            rule: number(words, 1)? as usize,
            specificity: (number(words, 2)?, number(words, 3)?, number(words, 4)?),
            origin: given.origin,
        })?;
        Ok(())
    }

    fn take_code(&mut self, words: &[&str]) -> anyhow::Result<()> {
        let [name, how] = words else {
            bail!("a code value has a name and `set` or `bound`");
        };
        let Some(style) = style_named(name) else {
            bail!("no such row");
        };
        self.codes.push(CodeValue {
            style,
            value: Value::Bool(true),
            bound: *how == "bound",
        })?;
        Ok(())
    }
}

fn declarations(alloc: Global, names: &[&str]) -> anyhow::Result<Vec<Declaration>> {
    let mut all = Vec::new(alloc);
    for name in names {
        all.push(declaration(alloc, name)?)?;
    }
    Ok(all)
}

fn declaration(alloc: Global, name: &str) -> anyhow::Result<Declaration> {
    Ok(Declaration {
        name: Text::from_str(alloc, name)?,
        row: style_named(name),
        value: Declared::Inherit,
    })
}

fn origin(words: &[&str]) -> anyhow::Result<SheetOrigin> {
    let [word] = words else {
        bail!("an origin is one word");
    };
    match *word {
        "agent" => Ok(SheetOrigin::Agent),
        "scene" => Ok(SheetOrigin::Scene),
        "inline" => Ok(SheetOrigin::Inline),
        other => match other.strip_prefix("parent:") {
            Some(depth) => Ok(SheetOrigin::Parent(depth.parse::<u32>()?)),
            None => bail!("no such origin"),
        },
    }
}
