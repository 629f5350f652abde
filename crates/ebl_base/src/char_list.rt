//! Unicode texts inside public types.
ghost use Rattle.std.specs.Prelude.{◌≡◌, ℕ, List, [], length, IfOk};
ghost use Rattle.std.specs.String.{string_bytes};

use crate::items::Copied;
use crate::no_memory::NoMemory;
use std::alloc::Global;
use std::marker::Model;

/// A Unicode text inside a public type. Contracts see the list of its UTF-8 bytes.
///
/// It is made from a `String` and opened to one; neither allocates.
#[derive(Debug, Drop)]
pub struct CharList {
    text: String,
}

impl Model for CharList {
    ghost Value = { List ℕ };

    ghost view = { λ s. string_bytes s.text };
}

impl CharList {
    /// The empty text, which allocates nothing until it grows.
    pub fn new(alloc: Global) -> Self
        ensures { result ≡ [] }
    {
        CharList {
            text: String::new(alloc),
        }
    }

    /// The text of a string.
    pub fn from_string(text: String) -> Self
        ensures { result ≡ string_bytes text }
    {
        CharList { text }
    }

    /// A copy of a text.
    pub fn from_text(alloc: Global, text: &str) -> Result<Self, NoMemory>
        ensures { IfOk result (λ t. t ≡ text.now) }
    {
        let text = String::from_str(alloc, text)?;
        Ok(CharList { text })
    }

    /// The string of the text.
    pub fn into_string(self) -> String
        ensures { string_bytes result ≡ self }
    {
        self.text
    }

    /// The text.
    pub fn as_str(&self) -> &str
        ensures { result.now ≡ self.now }
    {
        self.text.as_str()
    }

    /// How many bytes the text has in UTF-8.
    pub fn len(&self) -> usize
        ensures { result ≡ length self.now }
    {
        self.text.len()
    }
}

impl Copied for CharList {
    fn copy(&self, alloc: Global) -> Result<Self, NoMemory> {
        CharList::from_text(alloc, self.text.as_str())
    }
}
