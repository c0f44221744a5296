//! Telling what isn't as it should be.
use std::alloc::{AllocError, Global};

/// The most bytes that are shown of a text.
const SHOWN: usize = 48;

/// All that isn't as a case says, one after the other.
#[derive(Drop)]
pub struct Differences {
    alloc: Global,
    text: String,
}

impl Differences {
    pub fn new(alloc: Global) -> Differences {
        Differences {
            alloc,
            text: String::new(alloc),
        }
    }

    /// All of them as one text; nothing where there is none.
    pub fn told(&self) -> Option<&str> {
        let text = self.text.as_str();
        if text.is_empty() { None } else { Some(text) }
    }

    /// What is told otherwise than it is wanted.
    pub fn told_beside(&self, wanted: Option<&str>) -> Option<&str> {
        let told = self.told();
        if told == wanted {
            None
        } else {
            Some(told.unwrap_or("is right, and says that it isn't"))
        }
    }

    /// Where the text that was found parts from the one that was wanted, a few bytes of both are told.
    pub fn compare_texts(
        &mut self,
        what: &str,
        found: &[u8],
        wanted: &[u8],
    ) -> Result<(), AllocError> {
        if found == wanted {
            return Ok(());
        }
        let at = first_difference(found, wanted);
        let found = excerpt(found, at);
        let wanted = excerpt(wanted, at);
        let difference = format!(in self.alloc;
            "{what} at byte {at} `{found}`, and not `{wanted}`"
        )?;
        self.tell(difference.as_str())
    }

    pub fn compare_statuses(&mut self, found: u64, wanted: u64) -> Result<(), AllocError> {
        if found == wanted {
            return Ok(());
        }
        let difference = format!(in self.alloc; "status {found}, and not {wanted}")?;
        self.tell(difference.as_str())
    }

    pub fn tell(&mut self, difference: &str) -> Result<(), AllocError> {
        if !self.text.is_empty() {
            self.text.push_str("; ")?;
        }
        self.text.push_str(difference)
    }
}

/// The first byte at which two texts differ.
fn first_difference(found: &[u8], wanted: &[u8]) -> usize {
    for (at, byte) in wanted.iter().enumerate() {
        if found.get(at) != Some(byte) {
            return at;
        }
    }
    wanted.len()
}

/// What stands at this byte of a text, up to the end of its line.
fn excerpt(text: &[u8], at: usize) -> &str {
    let rest = text.get(at..).unwrap_or(&[]);
    let shown = rest.get(..SHOWN).unwrap_or(rest);
    match str::from_utf8(shown) {
        Ok(shown) => shown.lines().next().unwrap_or(""),
        Err(_) => "bytes inside a character",
    }
}
