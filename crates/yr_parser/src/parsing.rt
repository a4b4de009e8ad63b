//! Declarations, one after another.

ghost use Rattle.std.specs.Prelude.{◌≡◌, true, false, IfOk, IfErr, IsErrOf};
ghost use Rattle.yr_parser.specs.Answers.{Explains, is_import};
ghost use Rattle.yr_parser.specs.Declarations.{OneDeclaration, Spells};
ghost use Rattle.yr_parser.specs.Depth.{deep_from};
ghost use Rattle.yr_parser.specs.Good.{AreGood};
ghost use Rattle.yr_parser.specs.Spelling.{places_of, terminals_of};
ghost use Rattle.yr_parser.specs.Terminals.{Terminals};
ghost use Rattle.yr_syntax.specs.Declaration.{Declaration, declaration_of, declarations_of};
ghost use Rattle.yr_syntax.specs.Forms.{HaveForms};

use crate::cursor::Cursor;
use crate::depth::nests_too_deep;
use crate::fault::{Fault, ParseFault};
use crate::place::{file_at, line_at};
use crate::rules::read;
use std::alloc::Global;
use yr_lexer::Tokens;
use yr_syntax::Decl;

fn imports(declaration: &Decl) -> bool
    ensures { result ≡ is_import (declaration_of declaration.now) }
{
    match declaration {
        Decl::Import { .. } => true,
        Decl::Rule(_) => false,
    }
}

// After an import the tokens up to the first closing brace were already looked at.
fn is_deep(is_clear: bool, tokens: &Cursor<'_>) -> bool
    requires { is_clear ≡ true → deep_from 0 0 tokens.now ≡ false }
    ensures { result ≡ deep_from 0 0 tokens.now }
{
    if is_clear {
        false
    } else {
        nests_too_deep(tokens)
    }
}

fn next(alloc: Global, all: &Tokens, tokens: &mut Cursor<'_>) -> Result<Decl, Fault>
    ensures found { IfOk result (λ d. OneDeclaration (places_of all.now) tokens.old (declaration_of d) tokens.new) }
    ensures none { IsErrOf result Fault.Syntax → deep_from 0 0 tokens.old ≡ false → (d : Declaration) (rest : Terminals) → OneDeclaration (places_of all.now) tokens.old d rest → ⊥ }
{
    read(alloc, all, tokens)
}

// What the type of the tokens keeps of them, they keep as terminals.
fn keeps_forms(tokens: &Tokens)
    ensures { AreGood (terminals_of tokens.now) }
{
    let _list = tokens.tokens();
}

/// The declarations that the tokens spell.
pub fn parse(alloc: Global, tokens: &Tokens) -> Result<Vec<Decl>, ParseFault>
    ensures found { IfOk result (λ v. Spells (places_of tokens.now) (terminals_of tokens.now) (declarations_of v)) }
    ensures refused { IfErr result (Explains (places_of tokens.now) (terminals_of tokens.now)) }
    ensures forms { IfOk result (λ v. HaveForms (declarations_of v)) }
{
    keeps_forms(tokens);
    let mut rest = Cursor::new(tokens);
    let mut declarations = Vec::new(alloc);
    let mut is_clear = false;
    'declarations: while rest.left() > 0 {
        let left = rest.left();
        let declaration = declarations.len() + 1;
        let file = file_at(tokens, left);
        let line = line_at(tokens, left);
        if is_deep(is_clear, &rest) {
            return Err(ParseFault::TooDeep {
                declaration,
                file,
                line,
            });
        }
        match next(alloc, tokens, &mut rest) {
            Ok(found) => {
                is_clear = imports(&found);
                declarations.push(found)?;
            }
            Err(Fault::NoMemory) => return Err(ParseFault::NoMemory),
            Err(Fault::Syntax) => {
                return Err(ParseFault::Syntax {
                    declaration,
                    file,
                    line,
                });
            }
        }
    }
    Ok(declarations)
}
