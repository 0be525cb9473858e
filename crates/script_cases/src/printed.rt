//! Text that is printed piece by piece.
use fx_base::{List, Text};
use std::alloc::{AllocError, Global};

#[derive(Drop)]
pub struct Printed {
    pub text: String,
}

impl Printed {
    pub fn new(alloc: Global) -> Printed {
        Printed {
            text: String::new(alloc),
        }
    }

    pub fn put(&mut self, piece: &str) -> Result<(), AllocError> {
        self.text.push_str(piece)
    }

    /// A word, and texts in brackets.
    pub fn words(&mut self, word: &str, texts: &[&str]) -> Result<(), AllocError> {
        self.put(word)?;
        for text in texts {
            self.bracketed(text)?;
        }
        Ok(())
    }

    /// A word, a path, and texts in brackets.
    pub fn path(
        &mut self,
        word: &str,
        path: &List<Text>,
        texts: &[&str],
    ) -> Result<(), AllocError> {
        self.put(word)?;
        self.names(path)?;
        self.words("", texts)
    }

    /// A word, two paths, and texts in brackets.
    pub fn paths(
        &mut self,
        word: &str,
        one: &List<Text>,
        other: &List<Text>,
        texts: &[&str],
    ) -> Result<(), AllocError> {
        self.put(word)?;
        self.names(one)?;
        self.path("", other, texts)
    }

    /// A path in brackets, with a dot between names.
    pub fn names(&mut self, path: &List<Text>) -> Result<(), AllocError> {
        let mut before = "[";
        for name in path.as_slice() {
            self.put(before)?;
            self.put(name.as_str())?;
            before = ".";
        }
        self.put("]")
    }

    fn bracketed(&mut self, text: &str) -> Result<(), AllocError> {
        self.put("[")?;
        self.put(text)?;
        self.put("]")
    }
}
