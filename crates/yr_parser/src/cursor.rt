//! A cursor over tokens, which contracts see as the terminals that are left.

ghost use Rattle.std.specs.Prelude.{◌≡◌, ℕ, ◌<◌, ◌≤◌, ◌≤ℤ◌, pos, drop, List, Some, length, IfOk, option_map};
ghost use Rattle.yr_parser.specs.Input as spec;
ghost use Rattle.yr_parser.specs.Input.{Gives};
ghost use Rattle.yr_parser.specs.Lexemes.{next_of};
ghost use Rattle.yr_parser.specs.Reading as reading;
ghost use Rattle.yr_parser.specs.Ruling as ruling;
ghost use Rattle.yr_parser.specs.Spelling as spelling;
ghost use Rattle.yr_parser.specs.Terminals as terminal;
ghost use Rattle.yr_syntax.specs.Condition as tree;
ghost use Rattle.yr_syntax.specs.Declaration.{bytes_of};

use crate::fault::Fault;
use crate::level::{Level, level_of, same_level};
use crate::lexeme::Lexeme;
use crate::place::token_at;
use crate::sign::{Sign, same_sign};
use crate::spelling::{inside, spelled};
use std::alloc::Global;
use std::marker::Model;
use yr_base::NoMemory;
use yr_lexer::{Tokens, unescape};
use yr_syntax::{Infix, PrefixOp};

#[derive(Drop)]
pub struct Cursor<'a> {
    tokens: &'a Tokens,
    at: usize,
    /// The token at the place, which every reader looks at many times.
    next: Option<Lexeme<'a>>,
}

impl<'a> Model for Cursor<'a> {
    ghost use Rattle.std.specs.Prelude.{◌≡◌, ◌≤◌, drop, length};
    ghost use Rattle.yr_parser.specs.Input.{first};
    ghost use Rattle.yr_parser.specs.Lexemes.{next_of};
    ghost use Rattle.yr_parser.specs.Spelling.{terminals_of};
    ghost use Rattle.yr_parser.specs.Terminals.{Terminals};

    ghost Value = { Terminals };

    ghost view = { λ c. drop c.at (terminals_of c.tokens.now) };

    ghost invariant = { λ c. (c.at ≤ length c.tokens.now.tokens) × (next_of c.next ≡ first (drop c.at (terminals_of c.tokens.now))) };
}

/// The token of a number, if there is one.
#[tactic(auto, using(crate::proofs::TokenLemmas::token_rules))]
fn lexeme_at(tokens: &Tokens, at: usize) -> Option<Lexeme<'_>>
    ensures { next_of result ≡ spec.first (drop at (spelling.terminals_of tokens.now)) }
{
    match token_at(tokens, at) {
        None => None,
        Some(found) => Some(spelled(tokens.spelling(at), found.token.kind)),
    }
}

impl<'a> Cursor<'a> {
    pub fn new(tokens: &'a Tokens) -> Cursor<'a>
        ensures { result ≡ spelling.terminals_of tokens.now }
    {
        Cursor {
            tokens,
            at: 0,
            next: lexeme_at(tokens, 0),
        }
    }

    /// A cursor at the same place.
    pub fn ahead(&self) -> Cursor<'a>
        ensures { result ≡ self.now }
    {
        Cursor {
            tokens: self.tokens,
            at: self.at,
            next: self.next,
        }
    }

    /// How many tokens are left.
    #[tactic(auto, using(crate::proofs::TokenLemmas::cursor_rules))]
    pub fn left(&self) -> usize
        ensures { result ≡ length self.now }
    {
        self.tokens.tokens().len() - self.at
    }

    pub fn peek(&self) -> Option<Lexeme<'a>>
        ensures { next_of result ≡ spec.first self.now }
    {
        self.next
    }

    /// Leaves out the next token, if there is one.
    #[tactic(auto, using(crate::proofs::TokenLemmas::cursor_rules))]
    pub fn skip(&mut self)
        ensures { self.new ≡ spec.tail self.old }
    {
        if self.at < self.tokens.tokens().len() {
            let at = self.at + 1;
            let next = lexeme_at(self.tokens, at);
            self.at = at;
            self.next = next;
        }
    }

    /// The text that comes next, unescaped.
    pub fn text(&self, alloc: Global) -> Result<Vec<u8>, NoMemory>
        requires { (t : List ℕ) × (spec.first self.now ≡ Some (terminal.Text t)) }
        ensures { IfOk result (λ v. spec.first self.now ≡ Some (terminal.Text v.items)) }
    {
        match token_at(self.tokens, self.at) {
            None => unreachable!(),
            Some(_) => unescape(alloc, inside(self.tokens.spelling(self.at), 1)),
        }
    }

    /// Takes the text that comes next, unescaped.
    #[tactic(auto, unfolding(crate::specs::Ruling::read_text))]
    pub fn take_text(&mut self, alloc: Global) -> Result<Vec<u8>, Fault>
        ensures { Gives bytes_of (ruling.read_text self.old) result self.new }
    {
        match self.peek() {
            Some(Lexeme::Text(_)) => {
                let text = self.text(alloc)?;
                self.skip();
                Ok(text)
            }
            _ => Err(Fault::Syntax),
        }
    }

    /// Takes the number that comes next, which is never below 0.
    #[tactic(auto, unfolding(crate::specs::Ruling::read_number))]
    pub fn number(&mut self) -> Result<i64, Fault>
        ensures value { Gives (λ n. n) (ruling.read_number self.old) result self.new }
        ensures natural { IfOk result (λ n. pos 0 ≤ℤ n) }
    {
        match self.next {
            Some(Lexeme::Number(value)) => {
                self.natural(value);
                self.skip();
                Ok(value)
            }
            _ => Err(Fault::Syntax),
        }
    }

    // A number is written without a sign.
    fn natural(&self, value: i64)
        requires { spec.first self.now ≡ Some (terminal.Number value) }
        ensures { pos 0 ≤ℤ value }
    {
        match token_at(self.tokens, self.at) {
            None => unreachable!(),
            Some(_) => {
                let _spelled = self.tokens.spelling(self.at);
            }
        }
    }

    #[tactic(auto, unfolding(crate::specs::Input::sees))]
    pub fn sees(&self, sign: Sign) -> bool
        ensures { result ≡ spec.sees sign self.now }
    {
        match self.peek() {
            Some(Lexeme::Sign(next)) => same_sign(next, sign),
            _ => false,
        }
    }

    #[tactic(auto, unfolding(crate::specs::Input::after))]
    pub fn eat(&mut self, sign: Sign) -> bool
        ensures found { result ≡ spec.sees sign self.old }
        ensures after { self.new ≡ spec.after sign self.old }
    {
        let found = self.sees(sign);
        if found {
            self.skip();
        }
        found
    }

    #[tactic(auto, unfolding(crate::specs::Input::expect, crate::specs::Input::after))]
    pub fn expect(&mut self, sign: Sign) -> Result<(), Fault>
        ensures { Gives (λ x. x) (spec.expect sign self.old) result self.new }
    {
        if self.eat(sign) {
            Ok(())
        } else {
            Err(Fault::Syntax)
        }
    }

    /// The operator that comes next, if it is one of the level.
    #[tactic(auto, unfolding(crate::specs::Reading::joins_at))]
    pub fn joins(&self, level: Level) -> Option<Infix>
        ensures { result ≡ reading.joins_at level self.now }
    {
        match self.peek() {
            Some(Lexeme::Operator(op)) => operator_in(op, level),
            _ => None,
        }
    }

    #[tactic(auto, unfolding(crate::specs::Reading::sees_operator, crate::specs::Reading::same_operator))]
    pub fn sees_operator(&self, op: Infix) -> bool
        ensures { result ≡ reading.sees_operator op self.now }
    {
        match self.peek() {
            Some(Lexeme::Operator(next)) => next == op,
            _ => false,
        }
    }

    /// Whether `%` and `of` come next.
    #[tactic(auto, unfolding(crate::specs::Reading::sees_percent_of, crate::specs::Input::sees))]
    pub fn sees_percent_of(&self) -> bool
        ensures { result ≡ reading.sees_percent_of self.now }
    {
        self.sees_operator(Infix::Remainder) && self.second_is_of()
    }

    fn second_is_of(&self) -> bool
        ensures { result ≡ spec.sees Sign.Of (spec.tail self.now) }
    {
        let mut second = self.ahead();
        second.skip();
        second.sees(Sign::Of)
    }

    /// The operator `not` or `defined`, if it comes next.
    #[tactic(auto, unfolding(crate::specs::Reading::negates_at))]
    pub fn negates(&self) -> Option<PrefixOp>
        ensures { result ≡ reading.negates_at self.now }
    {
        match self.peek() {
            Some(Lexeme::Sign(Sign::Not)) => Some(PrefixOp::Not),
            Some(Lexeme::Sign(Sign::Defined)) => Some(PrefixOp::Defined),
            _ => None,
        }
    }

    /// The operator `-` or `~`, if it comes next.
    #[tactic(auto, unfolding(crate::specs::Reading::prefix_at))]
    pub fn prefix(&self) -> Option<PrefixOp>
        ensures { result ≡ reading.prefix_at self.now }
    {
        match self.peek() {
            Some(Lexeme::Operator(Infix::Subtract)) => Some(PrefixOp::Minus),
            Some(Lexeme::Sign(Sign::Tilde)) => Some(PrefixOp::Flip),
            _ => None,
        }
    }

    /// Takes the word that comes next.
    #[tactic(auto, unfolding(crate::specs::Reading::read_word))]
    pub fn word(&mut self, alloc: Global) -> Result<Vec<u8>, Fault>
        ensures { Gives bytes_of (reading.read_word self.old) result self.new }
    {
        match self.peek() {
            Some(Lexeme::Word(word)) => {
                let word = Vec::from_slice(alloc, word)?;
                self.skip();
                Ok(word)
            }
            _ => Err(Fault::Syntax),
        }
    }
}

#[tactic(auto, unfolding(crate::specs::Reading::same_level))]
fn operator_in(op: Infix, level: Level) -> Option<Infix>
    ensures { result ≡ reading.operator_in level (Some (terminal.Operator op)) }
{
    if same_level(level_of(op), level) {
        Some(op)
    } else {
        None
    }
}
