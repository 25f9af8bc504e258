//! Texts of numbers, of which equal ones in a row are told once.

use std::alloc::{AllocError, Global};
use std::mem;

/// Texts of rising numbers, of which equal ones in a row are told once.
#[derive(Drop)]
pub struct Spans {
    alloc: Global,
    told: Vec<u8>,
    first: u64,
    last: u64,
    text: Vec<u8>,
}

impl Spans {
    /// No texts.
    pub fn new(alloc: Global) -> Spans {
        Spans {
            alloc,
            told: Vec::new(alloc),
            first: 0,
            last: 0,
            text: Vec::new(alloc),
        }
    }

    // Tells the texts in a row that stand open.
    fn close(&mut self) -> Result<(), AllocError> {
        if self.text.is_empty() {
            return Ok(());
        }
        let numbers = if self.first == self.last {
            format!(in self.alloc; "{}: ", self.first)?
        } else {
            format!(in self.alloc; "{} to {}: ", self.first, self.last)?
        };
        self.told.extend_from_slice(numbers.as_bytes())?;
        self.told.extend_from_slice(&self.text)
    }

    /// Adds the text of a number, which has whole lines.
    pub fn add(&mut self, number: u64, text: Vec<u8>) -> Result<(), AllocError> {
        if self.text != text {
            self.close()?;
            self.first = number;
            self.text = text;
        }
        self.last = number;
        Ok(())
    }

    /// Puts all that is told behind an answer: the numbers, and the text that they have in common.
    pub fn say(&mut self, answer: &mut Vec<u8>) -> Result<(), AllocError> {
        self.close()?;
        self.text = Vec::new(self.alloc);
        answer.extend_from_slice(&mem::replace(&mut self.told, Vec::new(self.alloc)))
    }
}
