//! A cursor over a text, which contracts see as the bytes that are left.

ghost use Rattle.std.specs.Prelude.{◌≡◌, length};
ghost use Rattle.yr_regex.specs.Reading as spec;
ghost use Rattle.yr_regex.specs.Reading.{Finds};

use std::marker::Model;

#[derive(Drop)]
pub struct Cursor<'a> {
    rest: &'a [u8],
}

impl<'a> Model for Cursor<'a> {
    ghost use Rattle.yr_regex.specs.Escapes.{Text};

    ghost Value = { Text };

    ghost view = { λ c. c.rest.now };
}

impl<'a> Cursor<'a> {
    pub fn new(rest: &'a [u8]) -> Cursor<'a>
        ensures { result ≡ rest.now }
    {
        Cursor { rest }
    }

    /// How many bytes are left.
    pub fn left(&self) -> usize
        ensures { result ≡ length self.now }
    {
        self.rest.len()
    }

    pub fn rest(&self) -> &'a [u8]
        ensures { result.now ≡ self.now }
    {
        self.rest
    }

    pub fn set(&mut self, rest: &'a [u8])
        ensures { self.new ≡ rest.now }
    {
        self.rest = rest;
    }

    #[tactic(auto, unfolding(crate::specs::Reading::sees))]
    pub fn sees(&self, byte: u8) -> bool
        ensures { result ≡ spec.sees byte self.now }
    {
        match self.rest {
            [next, ..] => *next == byte,
            [] => false,
        }
    }

    /// Leaves out the next byte, if there is one.
    pub fn skip(&mut self)
        ensures { self.new ≡ spec.tail self.old }
    {
        if let [_, rest @ ..] = self.rest {
            self.rest = rest;
        }
    }

    /// Takes the next byte, if it is this one.
    #[tactic(auto, unfolding(crate::specs::Reading::after))]
    pub fn eat(&mut self, byte: u8) -> bool
        ensures found { result ≡ spec.sees byte self.old }
        ensures after { self.new ≡ spec.after byte self.old }
    {
        let found = self.sees(byte);
        if found {
            self.skip();
        }
        found
    }

    /// Takes the next byte, which must be this one.
    #[tactic(auto, unfolding(crate::specs::Reading::expect, crate::specs::Reading::after))]
    pub fn expect(&mut self, byte: u8) -> Option<()>
        ensures { Finds (λ x. x) (spec.expect byte self.old) result self.new }
    {
        if self.eat(byte) { Some(()) } else { None }
    }

    /// Whether a sequence ends here.
    pub fn ends(&self) -> bool
        ensures { result ≡ spec.ends self.now }
    {
        match self.rest {
            [next, ..] => *next == b')' || *next == b'|',
            [] => true,
        }
    }
}
