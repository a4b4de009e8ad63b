//! A cursor over a text, which contracts see as the bytes that are left.

ghost use Rattle.std.specs.Prelude.{◌≡◌, length};
ghost use Rattle.yr_hex.specs.Reading as spec;
ghost use Rattle.yr_hex.specs.Reading.{Yields};

use crate::fault::HexFault;
use crate::gap::past_gap;
use std::marker::Model;

#[derive(Drop)]
pub struct Cursor<'a> {
    rest: &'a [u8],
}

impl<'a> Model for Cursor<'a> {
    ghost use Rattle.yr_hex.specs.Gaps.{Text};

    ghost Value = { Text };

    ghost view = { λ c. c.rest.now };
}

impl<'a> Cursor<'a> {
    pub fn new(rest: &'a [u8]) -> Cursor<'a>
        ensures { result ≡ rest.now }
    {
        Cursor { rest }
    }

    /// How many bytes are left.
    pub fn left(&self) -> usize
        ensures { result ≡ length self.now }
    {
        self.rest.len()
    }

    pub fn rest(&self) -> &'a [u8]
        ensures { result.now ≡ self.now }
    {
        self.rest
    }

    pub fn set(&mut self, rest: &'a [u8])
        ensures { self.new ≡ rest.now }
    {
        self.rest = rest;
    }

    #[tactic(auto, unfolding(crate::specs::Reading::sees))]
    fn sees(&self, byte: u8) -> bool
        ensures { result ≡ spec.sees byte self.now }
    {
        match self.rest {
            [next, ..] => *next == byte,
            [] => false,
        }
    }

    /// Leaves out the next byte, if there is one.
    fn skip(&mut self)
        ensures { self.new ≡ spec.tail self.old }
    {
        if let [_, rest @ ..] = self.rest {
            self.rest = rest;
        }
    }

    /// Takes the next byte, if it is this one.
    #[tactic(auto, unfolding(crate::specs::Reading::after))]
    pub fn eat(&mut self, byte: u8) -> bool
        ensures found { result ≡ spec.sees byte self.old }
        ensures after { self.new ≡ spec.after byte self.old }
    {
        let found = self.sees(byte);
        if found {
            self.skip();
        }
        found
    }

    /// Takes the next byte, which must be this one.
    #[tactic(auto, unfolding(crate::specs::Reading::expect, crate::specs::Reading::after))]
    pub fn expect(&mut self, byte: u8) -> Result<(), HexFault>
        ensures { Yields (λ x. x) (spec.expect byte self.old) result self.new }
    {
        if self.eat(byte) {
            Ok(())
        } else {
            Err(HexFault::HexSyntax)
        }
    }

    /// Leaves out blanks and comments.
    pub fn skip_gap(&mut self)
        ensures { self.new ≡ spec.past_gap self.old }
    {
        self.rest = past_gap(self.rest);
    }

    /// Whether a list of items ends here.
    pub fn ends(&self) -> bool
        ensures { result ≡ spec.ends self.now }
    {
        match self.rest {
            [next, ..] => *next == b')' || *next == b'|',
            [] => true,
        }
    }
}
