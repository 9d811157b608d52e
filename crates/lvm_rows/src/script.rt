//! The script of a case.

use crate::fault::Fault;
use std::alloc::Global;

/// A script, and which of its lines are marked.
#[derive(Drop)]
pub struct Script {
    text: Vec<u8>,
    marked: Option<Marked>,
}

// The bytes of the marked lines, and those between them.
#[derive(Clone, Copy, Drop)]
struct Marked {
    first: usize,
    behind: usize,
}

impl Script {
    pub(crate) fn new(alloc: Global) -> Script {
        Script {
            text: Vec::new(alloc),
            marked: None,
        }
    }

    pub(crate) fn push_line(&mut self, line: &str) -> Result<(), Fault> {
        self.text.extend_from_slice(line.as_bytes())?;
        self.text.push(b'\n')?;
        Ok(())
    }

    pub(crate) fn push_marked(&mut self, line: &str) -> Result<(), Fault> {
        let first = match self.marked {
            Some(marked) => marked.first,
            None => self.text.len(),
        };
        self.push_line(line)?;
        self.marked = Some(Marked {
            first,
            behind: self.text.len(),
        });
        Ok(())
    }

    /// Takes the last line feed away.
    pub(crate) fn unend(&mut self) {
        let _ = self.text.pop();
    }

    /// Adds line feeds.
    pub(crate) fn push_feeds(&mut self, count: u32) -> Result<(), Fault> {
        for _ in 0..count {
            self.text.push(b'\n')?;
        }
        Ok(())
    }

    /// Is this text in place of what it was.
    pub(crate) fn replace(&mut self, text: &[u8]) -> Result<(), Fault> {
        self.text.clear();
        self.marked = None;
        Ok(self.text.extend_from_slice(text)?)
    }

    pub(crate) fn text(&self) -> &[u8] {
        &self.text
    }

    /// The lines before the marked ones.
    pub(crate) fn before(&self) -> &[u8] {
        let end = match self.marked {
            Some(marked) => marked.first,
            None => 0,
        };
        self.text.get(..end).unwrap_or(&[])
    }

    /// The lines up to the last marked one; all of them where none is marked.
    pub(crate) fn through(&self) -> &[u8] {
        match self.marked {
            Some(marked) => self.text.get(..marked.behind).unwrap_or(&[]),
            None => &self.text,
        }
    }
}
