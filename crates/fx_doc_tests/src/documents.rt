//! A document is read, and a bad one isn't. Documents as the reference reads them, and limits, are stored cases of
//! reader_cases.
use fx_doc::{Content, DocError, Document, read_document};
use std::test::Fail;

fn has_child(document: &Document) -> bool {
    match document.root.content.as_slice() {
        [Content::Child(child)] => child.name.equals("Label"),
        _ => false,
    }
}

#[test]
fn reads_a_document(rt: HostRuntime) -> Result<(), Fail> {
    let document = read_document(rt.alloc(), b"<?import a.*?><Pane><Label text='hi'/></Pane>")?;
    assert!(rt; document.imports.as_slice().len() == 1);
    assert!(rt; has_child(&document));
    Ok(())
}

#[test]
fn refuses_what_is_no_document(rt: HostRuntime) {
    let read = read_document(rt.alloc(), b"<Pane></Pan>");
    assert!(rt; matches!(read, Err(DocError::Markup(_))));
}
