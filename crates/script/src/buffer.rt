// A line as it comes in, byte by byte.
ghost use Rattle.std.specs.Prelude.{◌≡◌, ◌↔◌, IsTrue, [], Some, None, MatchOption};
ghost use Rattle.script.specs.Held.{with};

use arrayvec::ArrayVec;
use std::marker::Model;

// Every command is shorter.
const LONGEST: usize = 64;

/// Clauses see the bytes so far, and None where the line is too long.
#[derive(Drop)]
pub struct LineBuffer {
    text: Option<ArrayVec<u8, LONGEST>>,
}

impl Model for LineBuffer {
    ghost use Rattle.std.specs.Prelude.{ℕ, List, Option};
    ghost use Rattle.std.specs.Option.{option_map};

    ghost Value = { Option (List ℕ) };

    ghost view = { λ b. option_map (λ t. t.items) b.text };
}

impl LineBuffer {
    pub fn new() -> LineBuffer
        ensures { result ≡ Some [] }
    {
        LineBuffer {
            text: Some(ArrayVec::new()),
        }
    }

    pub fn is_empty(&self) -> bool
        ensures { IsTrue result ↔ (self.now ≡ Some []) }
    {
        matches!(&self.text, Some(text) if text.is_empty())
    }

    pub fn push(&mut self, b: u8)
        ensures { self.new ≡ with b self.old }
    {
        match &mut self.text {
            Some(text) if !text.is_full() => text.push(b),
            _ => self.text = None,
        }
    }

    /// None where the line is too long.
    pub fn text(&self) -> Option<&[u8]>
        ensures { MatchOption result (self.now ≡ None) (λ t. self.now ≡ Some t.now) }
    {
        self.text.as_ref().map(|text| text.as_slice())
    }

    pub fn clear(&mut self)
        ensures { self.new ≡ Some [] }
    {
        self.text = Some(ArrayVec::new());
    }
}
