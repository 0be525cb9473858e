//! All that speaks for a property, in the order in which it is found: code values, then declarations.
ghost use Rattle.std.specs.Prelude.{◌≡◌, ◌++◌, ◌∷◌, [], IfOk, OnOk, map};
ghost use Rattle.fx_cascade.specs.Sources.{code_voice, declared_voices, row_name, rule_voices, sources_for, voice, voices};

use fx_cascade::{Source, declarations_at};
use fx_css_types::{Candidate, Declaration, SheetAt};
use fx_look::{CodeValue, StyleName};
use std::alloc::{AllocError, Global};

/// All that speaks for the property of this name.
pub(crate) fn sources_for(
    alloc: Global,
    sheets: &[SheetAt],
    matched: &[Candidate],
    codes: &[CodeValue],
    property: &str,
) -> Result<Vec<Source>, AllocError>
    ensures { IfOk result (λ found. found.items
        ≡ sources_for property.now (voices sheets.now matched.now codes.now)) }
{
    let mut sources = Vec::new(alloc);
    push_codes(&mut sources, codes, property)?;
    push_matched(&mut sources, sheets, matched, property)?;
    Ok(sources)
}

fn push_codes(
    sources: &mut Vec<Source>,
    codes: &[CodeValue],
    property: &str,
) -> Result<(), AllocError>
    ensures { OnOk result (sources.new.items
        ≡ sources.old.items ++ sources_for property.now (map code_voice codes.now)) }
{
    for code in codes {
        push_named(
            sources,
            row_name(code.style),
            Source::Code(code.bound),
            property,
        )?;
    }
    Ok(())
}

fn push_matched(
    sources: &mut Vec<Source>,
    sheets: &[SheetAt],
    matched: &[Candidate],
    property: &str,
) -> Result<(), AllocError>
    ensures { OnOk result (sources.new.items
        ≡ sources.old.items ++ sources_for property.now (declared_voices sheets.now 0 matched.now)) }
{
    for (at, candidate) in matched.iter().enumerate() {
        push_rule(sources, declarations_at(sheets, candidate), at, property)?;
    }
    Ok(())
}

fn push_rule(
    sources: &mut Vec<Source>,
    declarations: &[Declaration],
    at: usize,
    property: &str,
) -> Result<(), AllocError>
    ensures { OnOk result (sources.new.items
        ≡ sources.old.items ++ sources_for property.now (rule_voices at 0 declarations.now)) }
{
    for (place, declaration) in declarations.iter().enumerate() {
        push_named(
            sources,
            declaration.name.as_str(),
            Source::Declared(at, place),
            property,
        )?;
    }
    Ok(())
}

/// Puts the source behind the others if it speaks for the property.
fn push_named(
    sources: &mut Vec<Source>,
    said: &str,
    source: Source,
    property: &str,
) -> Result<(), AllocError>
    ensures { OnOk result (sources.new.items
        ≡ sources.old.items ++ sources_for property.now (voice said.now source ∷ [])) }
{
    if said == property {
        sources.push(source)?;
    }
    Ok(())
}

/// The name of a row of the style table.
fn row_name(row: StyleName) -> &'static str
    ensures { result.now ≡ row_name row.0 }
{
    match row.style() {
        Some(style) => style.name,
        None => "",
    }
}
