//! The sheet of the user agent, built rule by rule.
//! It stands lowest in the cascade of every scene.
ghost use Rattle.std.specs.Prelude.{◌≡◌, ◌≤◌, [], ◌∷◌, length, IfOk};
ghost use Rattle.fx_css_types.specs.Limits.{IsWithinLimits};
ghost use Rattle.fx_css.specs.Agent as spec;

use fx_base::{Color, Family, List, Sides, Text, Value};
use fx_css_types::{Compound, Declaration, Declared, NameList, Paint, Rule, Selector, Sheet};
use fx_look::style_named;
use std::alloc::{AllocError, Global};

const BLACK: Color = Color {
    r: 0,
    g: 0,
    b: 0,
    a: 255,
};

const NAVY: Color = Color {
    r: 0,
    g: 0,
    b: 128,
    a: 255,
};

const GRAY: Color = Color {
    r: 128,
    g: 128,
    b: 128,
    a: 255,
};

const DARK_GRAY: Color = Color {
    r: 169,
    g: 169,
    b: 169,
    a: 255,
};

const LIGHT_GRAY: Color = Color {
    r: 211,
    g: 211,
    b: 211,
    a: 255,
};

const WHITE: Color = Color {
    r: 255,
    g: 255,
    b: 255,
    a: 255,
};

fn name(alloc: Global, word: &str) -> Result<Text, AllocError>
    requires { length word.now ≤ 4096 }
    ensures { IfOk result (λ text. text ≡ word.now) }
{
    let word = String::from_str(alloc, word)?;
    match Text::from_string(word) {
        Some(text) => Ok(text),
        None => unreachable!(),
    }
}

fn names(alloc: Global, word: &str) -> Result<NameList, AllocError>
    requires { length word.now ≤ 4096 }
    ensures { IfOk result (λ list. list ≡ word.now ∷ []) }
{
    Ok(NameList::one(name(alloc, word)?))
}

fn declaration(alloc: Global, word: &str, value: Declared) -> Result<Declaration, AllocError>
    requires { length word.now ≤ 4096 }
    ensures { IfOk result (λ d. d ≡ spec.declaration_of word.now value) }
{
    Ok(Declaration {
        name: name(alloc, word)?,
        row: style_named(word),
        value,
    })
}

/// A selector of one compound.
#[tactic(auto, unfolding(crate::specs::Agent::selector_of))]
fn selector(alloc: Global, classes: NameList, pseudos: NameList) -> Result<Selector, AllocError>
    ensures { IfOk result (λ s. s ≡ spec.selector_of classes pseudos) }
{
    let mut compounds = Vec::new(alloc);
    compounds.push(Compound {
        combinator: None,
        kind: None,
        classes,
        ids: NameList::new(),
        pseudos,
    })?;
    Ok(Selector {
        compounds: List::from_vec(compounds),
    })
}

fn rule(
    alloc: Global,
    classes: NameList,
    pseudos: NameList,
    declarations: Vec<Declaration>,
) -> Result<Rule, AllocError>
    ensures { IfOk result (λ r. r ≡ spec.rule_of classes pseudos declarations.items) }
{
    let mut selectors = Vec::new(alloc);
    selectors.push(selector(alloc, classes, pseudos)?)?;
    Ok(Rule {
        selectors: List::from_vec(selectors),
        declarations: List::from_vec(declarations),
    })
}

#[tactic(auto, unfolding(crate::specs::Agent::text_fill))]
fn text_fill(alloc: Global, color: Color) -> Result<Declaration, AllocError>
    ensures { IfOk result (λ d. d ≡ spec.text_fill color) }
{
    declaration(alloc, "-fx-text-fill", Declared::Paint(Paint::Color(color)))
}

#[tactic(auto, unfolding(crate::specs::Agent::background))]
fn background(alloc: Global, under: Color, over: Color) -> Result<Declaration, AllocError>
    ensures { IfOk result (λ d. d ≡ spec.background under over) }
{
    let mut paints = Vec::new(alloc);
    paints.push(Paint::Color(under))?;
    paints.push(Paint::Color(over))?;
    declaration(
        alloc,
        "-fx-background-color",
        Declared::Paints(List::from_vec(paints)),
    )
}

#[tactic(auto, unfolding(crate::specs::Agent::alignment))]
fn alignment(alloc: Global, place: u8) -> Result<Declaration, AllocError>
    ensures { IfOk result (λ d. d ≡ spec.alignment place) }
{
    declaration(
        alloc,
        "-fx-alignment",
        Declared::Plain(Value::Choice(Family::Pos, place)),
    )
}

#[tactic(auto, unfolding(crate::specs::Agent::button_insets))]
fn button_insets(alloc: Global) -> Result<Declaration, AllocError>
    ensures { IfOk result (λ d. d ≡ spec.button_insets) }
{
    let mut layers = Vec::new(alloc);
    layers.push(Sides {
        top: 0,
        right: 0,
        bottom: 0,
        left: 0,
    })?;
    layers.push(Sides {
        top: 1,
        right: 1,
        bottom: 1,
        left: 1,
    })?;
    declaration(
        alloc,
        "-fx-background-insets",
        Declared::SidesList(List::from_vec(layers)),
    )
}

#[tactic(auto, unfolding(crate::specs::Agent::button_padding))]
fn button_padding(alloc: Global) -> Result<Declaration, AllocError>
    ensures { IfOk result (λ d. d ≡ spec.button_padding) }
{
    let sides = Sides {
        top: 2,
        right: 4,
        bottom: 2,
        left: 4,
    };
    declaration(alloc, "-fx-padding", Declared::Plain(Value::Sides(sides)))
}

#[tactic(auto, unfolding(crate::specs::Agent::root_rule))]
fn root_rule(alloc: Global) -> Result<Rule, AllocError>
    ensures { IfOk result (λ r. r ≡ spec.root_rule) }
{
    let mut declarations = Vec::new(alloc);
    declarations.push(declaration(alloc, "-fx-font-size", Declared::Plain(Value::Int(12)))?)?;
    rule(alloc, names(alloc, "root")?, NameList::new(), declarations)
}

#[tactic(auto, unfolding(crate::specs::Agent::label_rule))]
fn label_rule(alloc: Global) -> Result<Rule, AllocError>
    ensures { IfOk result (λ r. r ≡ spec.label_rule) }
{
    let mut declarations = Vec::new(alloc);
    declarations.push(text_fill(alloc, BLACK)?)?;
    declarations.push(alignment(alloc, 3)?)?;
    rule(alloc, names(alloc, "label")?, NameList::new(), declarations)
}

#[tactic(auto, unfolding(crate::specs::Agent::button_rule))]
fn button_rule(alloc: Global) -> Result<Rule, AllocError>
    ensures { IfOk result (λ r. r ≡ spec.button_rule) }
{
    let mut declarations = Vec::new(alloc);
    declarations.push(background(alloc, GRAY, LIGHT_GRAY)?)?;
    declarations.push(button_insets(alloc)?)?;
    declarations.push(button_padding(alloc)?)?;
    declarations.push(text_fill(alloc, BLACK)?)?;
    declarations.push(alignment(alloc, 4)?)?;
    rule(
        alloc,
        names(alloc, "button")?,
        NameList::new(),
        declarations,
    )
}

/// A button in a state.
#[tactic(auto, unfolding(crate::specs::Agent::state_rule))]
fn state_rule(alloc: Global, state: &str, only: Declaration) -> Result<Rule, AllocError>
    requires { length state.now ≤ 4096 }
    ensures { IfOk result (λ r. r ≡ spec.state_rule state.now only) }
{
    let mut declarations = Vec::new(alloc);
    declarations.push(only)?;
    rule(
        alloc,
        names(alloc, "button")?,
        names(alloc, state)?,
        declarations,
    )
}

/// The sheet of the user agent.
pub fn agent_sheet(alloc: Global) -> Result<Sheet, AllocError>
    ensures rules { IfOk result (λ sheet. sheet ≡ record { rules = spec.agent_rules; warnings = [] }) }
    ensures within { IfOk result (λ sheet. IsWithinLimits sheet) }
{
    built(alloc)
}

fn built(alloc: Global) -> Result<Sheet, AllocError>
    ensures { IfOk result (λ sheet. sheet ≡ record { rules = spec.agent_rules; warnings = [] }) }
{
    let mut rules = Vec::new(alloc);
    rules.push(root_rule(alloc)?)?;
    rules.push(label_rule(alloc)?)?;
    rules.push(button_rule(alloc)?)?;
    rules.push(state_rule(alloc, "focused", background(alloc, NAVY, LIGHT_GRAY)?)?)?;
    rules.push(state_rule(alloc, "hover", background(alloc, GRAY, WHITE)?)?)?;
    rules.push(state_rule(alloc, "pressed", background(alloc, GRAY, DARK_GRAY)?)?)?;
    rules.push(state_rule(alloc, "disabled", text_fill(alloc, GRAY)?)?)?;
    Ok(Sheet {
        rules: List::from_vec(rules),
        warnings: List::new(alloc),
    })
}
