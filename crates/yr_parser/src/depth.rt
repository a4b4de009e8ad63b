//! How deep brackets nest, and how long prefix operators run, up to the first closing brace.

ghost use Rattle.std.specs.Prelude.{◌≡◌, ◌≤◌, ◌&&◌, nat_le};
ghost use Rattle.yr_parser.specs.Depth as depth;
ghost use Rattle.yr_parser.specs.Lexemes.{terminal_of};

use crate::cursor::Cursor;
use crate::lexeme::Lexeme;
use crate::sign::Sign;
use yr_syntax::Infix;

/// How many brackets may be open, and how many prefix operators may follow one another.
const LIMIT: usize = 64;

fn is_brace(lexeme: Lexeme<'_>) -> bool
    ensures { result ≡ depth.is_brace (terminal_of lexeme.entry) }
{
    match lexeme {
        Lexeme::Sign(Sign::CloseBrace) => true,
        _ => false,
    }
}

fn is_prefix(lexeme: Lexeme<'_>) -> bool
    ensures { result ≡ depth.is_prefix (terminal_of lexeme.entry) }
{
    match lexeme {
        Lexeme::Sign(Sign::Not) => true,
        Lexeme::Sign(Sign::Defined) => true,
        Lexeme::Sign(Sign::Tilde) => true,
        Lexeme::Operator(Infix::Subtract) => true,
        _ => false,
    }
}

#[tactic(auto, using(crate::proofs::DepthLemmas::closed))]
fn closed_after(opened: usize) -> usize
    ensures { result ≡ depth.closed_after opened }
{
    opened.saturating_sub(1)
}

fn opened_after(opened: usize, lexeme: Lexeme<'_>) -> usize
    requires { opened ≤ 64 }
    ensures { result ≡ depth.opened_after opened (terminal_of lexeme.entry) }
{
    match lexeme {
        Lexeme::Sign(Sign::Open) => opened + 1,
        Lexeme::Sign(Sign::OpenBracket) => opened + 1,
        Lexeme::Sign(Sign::Close) => closed_after(opened),
        Lexeme::Sign(Sign::CloseBracket) => closed_after(opened),
        _ => opened,
    }
}

fn run_after(run: usize, lexeme: Lexeme<'_>) -> usize
    requires { run ≤ 64 }
    ensures { result ≡ depth.run_after run (terminal_of lexeme.entry) }
{
    if is_prefix(lexeme) { run + 1 } else { 0 }
}

fn fits(opened: usize, run: usize) -> bool
    ensures { result ≡ (nat_le opened 64 && nat_le run 64) }
{
    opened <= LIMIT && run <= LIMIT
}

/// Whether brackets or prefix operators nest too deep before the first closing brace ends.
pub fn nests_too_deep(tokens: &Cursor<'_>) -> bool
    ensures { result ≡ depth.deep_from 0 0 tokens.now }
{
    let mut ahead = tokens.ahead();
    let mut opened = 0;
    let mut run = 0;
    'terminals: while let Some(lexeme) = ahead.peek() {
        opened = opened_after(opened, lexeme);
        run = run_after(run, lexeme);
        if !fits(opened, run) {
            return true;
        }
        if is_brace(lexeme) {
            return false;
        }
        ahead.skip();
    }
    false
}
