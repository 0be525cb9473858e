//! Documents. An outline is one line: tags with their places, attributes and runs in brackets.
use anyhow::bail;
use fx_doc::{Content, DocError, Document, Element, read_document};
use std::alloc::Global;
use std::fmt::Write;

fn write_element(out: &mut String, element: &Element) -> anyhow::Result<()> {
    let at = element.position;
    write!(out, "<{}@{}:{}", element.name.as_str(), at.line, at.column)?;
    for attribute in element.attributes.as_slice() {
        let name = attribute.name.as_str();
        let value = attribute.value.as_str();
        let at = attribute.position;
        write!(out, " {name}@{}:{}=[{value}]", at.line, at.column)?;
    }
    out.push('>')?;
    for piece in &element.content {
        match piece {
            Content::Child(child) => write_element(out, child)?,
            Content::Chars(text, at) => {
                write!(out, "{{{}}}@{}:{}", text.as_str(), at.line, at.column)?;
            }
        }
    }
    out.push_str("</>")?;
    Ok(())
}

fn write_outline(out: &mut String, document: &Document) -> anyhow::Result<()> {
    for import in document.imports.as_slice() {
        write!(out, "import[{}]", import.as_str())?;
    }
    write_element(out, &document.root)
}

/// What is read of the bytes.
pub fn write_document(alloc: Global, bytes: &[u8], out: &mut String) -> anyhow::Result<()> {
    if bytes.len() > 4_194_304 {
        bail!("the document is too long");
    }
    match read_document(alloc, bytes) {
        Ok(document) => write_outline(out, &document),
        Err(error) => write_error(out, error),
    }
}

fn write_error(out: &mut String, error: DocError) -> anyhow::Result<()> {
    match error {
        DocError::NotUtf8(valid) => write!(out, "notutf8 {valid}")?,
        DocError::Markup(at) => write!(out, "markup {}:{}", at.line, at.column)?,
        DocError::Depth(at) => write!(out, "depth {}:{}", at.line, at.column)?,
        DocError::Long(at) => write!(out, "long {}:{}", at.line, at.column)?,
        DocError::Memory => bail!("out of memory"),
    }
    Ok(())
}

/// What is read of each text that this one begins with, but for itself.
pub fn write_prefixes(alloc: Global, bytes: &[u8], out: &mut String) -> anyhow::Result<()> {
    for end in 0..bytes.len() {
        write_document(alloc, &bytes[..end], out)?;
        out.push_str(";")?;
    }
    Ok(())
}
