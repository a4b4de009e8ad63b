//! A file that is being gathered.

ghost use Rattle.std.specs.Prelude.{◌≡◌, ℕ, ◌+◌, ◌≤◌, ◌<◌, ◌&&◌, length, List, Result, true, All, IfOk, IfSome, OnOk, OnSome, slice_range, codes};
ghost use Rattle.std.specs.Str.{bytes_eq};
ghost use Rattle.yr_base.specs.Store.{Files};
ghost use Rattle.yr_lexer.specs.declared.token.Token.{Token};
ghost use Rattle.yr_lexer.specs.declared.source.FileToken.{FileToken};
ghost use Rattle.yr_lexer.specs.declared.fault.LexFault.{LexFault};
ghost use Rattle.yr_lexer.specs.Gaps.{Text};
ghost use Rattle.yr_lexer.specs.Sources.{File, text_at, LiesIn, LiesInFile};
ghost use Rattle.yr_lexer.specs.Includes as includes;
ghost use Rattle.yr_lexer.specs.Includes.{Walk, Walked, with_tokens, token_walk};
ghost use Rattle.yr_lexer.specs.OpenFiles as open_files;
ghost use Rattle.yr_lexer.specs.OpenFiles.{left_of, goes_on};

use crate::source::FileToken;
use crate::token::{Token, TokenKind};
use std::alloc::AllocError;

/// A file with its tokens, of which those before `at` are gathered.
#[derive(Drop)]
pub struct Frame {
    pub file: u32,
    pub tokens: Vec<Token>,
    pub at: usize,
}

/// An include in a file, with the text token that names what it includes.
#[derive(Clone, Copy)]
pub struct Include {
    pub file: u32,
    pub line: u32,
    pub path: Token,
}

const INCLUDE: &[u8] = b"include";

fn is_include(text: &[u8], token: Token) -> bool
    requires { LiesIn text.now token }
    ensures { result ≡ includes.is_include text.now token }
{
    let spelling = &text[token.from as usize..token.to as usize];
    matches!(token.kind, TokenKind::Reserved) && spelling == INCLUDE
}

/// The include that stands at the front of some tokens.
fn front_include(file: u32, text: &[u8], left: &[Token]) -> Option<Include>
    requires { All (LiesIn text.now) left.now }
    ensures { result ≡ open_files.front_include file text.now left.now }
{
    match left {
        [token, path, ..] => {
            if is_include(text, *token) && matches!(path.kind, TokenKind::Text) {
                Some(Include {
                    file,
                    line: token.line,
                    path: *path,
                })
            } else {
                None
            }
        }
        _ => None,
    }
}

impl Frame {
    /// The tokens that are left.
    fn left(&self) -> &[Token]
        requires { self.now.at ≤ length self.now.tokens.items }
        ensures { result.now ≡ left_of self.now }
    {
        &self.tokens[self.at..]
    }

    /// Gathers the tokens up to the next include, and passes this.
    pub fn gather_plain(
        &mut self,
        text: &[u8],
        tokens: &mut Vec<FileToken>,
    ) -> Result<Option<Include>, AllocError>
        requires within { self.old.at ≤ length self.old.tokens.items }
        requires lies { All (LiesIn text.now) self.old.tokens.items }
        ensures same { OnOk result ((self.new.file ≡ self.old.file)
            × (self.new.tokens.items ≡ self.old.tokens.items)
            × (self.new.at ≤ length self.old.tokens.items)) }
        ensures gathered { OnOk result ((files : List File) → self.old.file < length files
            → text_at files self.old.file ≡ text.now → All (LiesInFile files) tokens.old.items
            → All (LiesInFile files) tokens.new.items) }
        ensures include { IfOk result (λ found. IfSome found (λ i. (i.file ≡ self.old.file)
            × LiesIn text.now i.path × (includes.is_text_kind i.path.kind ≡ true))) }
        ensures passed { IfOk result
            (λ found. OnSome found (length (left_of self.new) + 2 ≤ length (left_of self.old))) }
        ensures walk { IfOk result (λ found. (lexed : Text → Result (List Token) LexFault)
            → (unescaped : List ℕ → List ℕ) → (files : Files)
            → (include : ℕ → List ℕ → Walked → Walk) → (w : Walked) → with_tokens tokens.old.items
            (token_walk lexed unescaped files include self.old.file text.now (left_of self.old) w)
            ≡ with_tokens tokens.new.items
            (goes_on lexed unescaped files include self.old.file text.now found (left_of self.new) w)) }
    {
        'tokens: while self.at < self.tokens.len() {
            if let Some(include) = front_include(self.file, text, self.left()) {
                self.at += 2;
                return Ok(Some(include));
            }
            tokens.push(FileToken {
                file: self.file,
                token: self.tokens[self.at],
            })?;
            self.at += 1;
        }
        Ok(None)
    }
}
