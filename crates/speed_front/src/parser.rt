//! The lexer and the parser, on made rules and imports.

ghost use Rattle.std.specs.Prelude.{◌≤◌, ◌^◌, IfOk, length};

mod texts;

use crate::gathering::gathered;
use crate::stopwatch::{RUNS, Stopwatch};
use anyhow::bail;
use std::alloc::Global;
use texts::{imports, rules};
use yr_lexer::{Token, lex};
use yr_parser::parse;

/// How many bytes of rules are read at most, and how many imports.
const SIZE: usize = 16_000_000;

const IMPORTS: usize = 1_000_000;

/// How many bytes a text may have.
const LONGEST: usize = 16_777_216;

/// Prints how many tokens and declarations two short texts have.
pub fn show_all(rt: HostRuntime) -> anyhow::Result<()> {
    show(rt, "rules", &rules(rt.alloc(), 2000)?)?;
    show(rt, "imports", &imports(rt.alloc(), 1000)?)
}

/// Prints how long the lexer and the parser take.
pub fn time_all(rt: HostRuntime) -> anyhow::Result<()> {
    for size in [SIZE / 2, SIZE] {
        let text = rules(rt.alloc(), size)?;
        time_lex(rt, "rules", &text)?;
        time_parse(rt, "rules", &text)?;
    }
    for count in [IMPORTS / 2, IMPORTS] {
        let text = imports(rt.alloc(), count)?;
        time_lex(rt, "imports", &text)?;
        time_parse(rt, "imports", &text)?;
    }
    Ok(())
}

// How many tokens and declarations are in a text.
fn show(rt: HostRuntime, name: &str, text: &[u8]) -> anyhow::Result<()> {
    let bytes = text.len();
    let tokens = tokens_of(rt.alloc(), text)?.len();
    let declarations = parse(rt.alloc(), &gathered(rt.alloc(), text)?)?.len();
    println!(rt; "{name}: {bytes} bytes, {tokens} tokens, {declarations} declarations")?;
    Ok(())
}

// The tokens of a text.
fn tokens_of(alloc: Global, text: &[u8]) -> anyhow::Result<Vec<Token>> {
    if text.len() > LONGEST {
        bail!("the text is too long");
    }
    let tokens = lex(alloc, text)?;
    Ok(tokens)
}

// How fast the tokens of a text are found.
fn time_lex(rt: HostRuntime, name: &str, text: &[u8]) -> anyhow::Result<()> {
    let mut watch = Stopwatch::new();
    let mut tokens = 0;
    for _ in 0..RUNS {
        watch.start(rt)?;
        let found = tokens_of(rt.alloc(), text)?;
        watch.stop(rt)?;
        tokens = found.len();
    }
    println!(rt; "lex, {name}: {tokens} tokens")?;
    tell(rt, text.len(), watch)
}

// How fast the declarations of a text are found in its tokens.
fn time_parse(rt: HostRuntime, name: &str, text: &[u8]) -> anyhow::Result<()> {
    let tokens = gathered(rt.alloc(), text)?;
    let mut watch = Stopwatch::new();
    let mut declarations = 0;
    for _ in 0..RUNS {
        watch.start(rt)?;
        let found = parse(rt.alloc(), &tokens)?;
        watch.stop(rt)?;
        declarations = found.len();
    }
    println!(rt; "parse, {name}: {declarations} declarations")?;
    tell(rt, text.len(), watch)
}

fn tell(rt: HostRuntime, size: usize, watch: Stopwatch) -> anyhow::Result<()> {
    let (seconds, rate) = (watch.least, watch.millions(size));
    println!(rt; "  {size} bytes in {seconds:.3} s of processor time, {rate:.1} MB/s")?;
    Ok(())
}
