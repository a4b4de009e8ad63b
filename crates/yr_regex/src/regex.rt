//! The reader of whole expressions.

ghost use Rattle.std.specs.Prelude.{◌<◌, ◌^◌, length};
ghost use Rattle.yr_regex.specs.Answers.{Answers};
ghost use Rattle.yr_regex.specs.Parts.{part_of, Judged};

use crate::cursor::Cursor;
use crate::element::{Flags, expression};
use crate::fault::RegexFault;
use crate::part::Part;
use std::alloc::Global;
use yr_pattern::Pattern;

/// The pattern of a regular expression, and whether it takes the longest match.
#[derive(Debug, PartialEq, Eq, Drop)]
pub struct Regex {
    pub pattern: Pattern,
    pub greedy: bool,
}

/// What becomes of a whole expression, whose text has `count` bytes.
fn judge(part: Part, count: usize) -> Result<Regex, RegexFault>
    requires { count < 2 ^ 32 }
    ensures { Judged (part_of part) count result }
{
    let Part { pattern, marks } = part;
    if let Some(left) = marks.bad {
        return Err(RegexFault::RegexRange(count.saturating_sub(left) as u32));
    }
    if marks.lazy && marks.eager {
        return Err(RegexFault::MixedGreed);
    }
    Ok(Regex {
        pattern,
        greedy: !marks.lazy,
    })
}

/// The pattern and the greed of the expression between the slashes, as the flags `i` and `s` have it read, or why there is none.
///
/// Memory apart, the text alone decides the answer: it has one reading at most.
pub fn read_regex(
    alloc: Global,
    text: &[u8],
    nocase: bool,
    dot_all: bool,
) -> Result<Regex, RegexFault>
    requires { length text.now < 2 ^ 32 }
    ensures { Answers text.now nocase dot_all result }
{
    let mut rest = Cursor::new(text);
    let flags = Flags { nocase, dot_all };
    let part = expression(alloc, &mut rest, flags, 64)?;
    if rest.left() > 0 {
        return Err(RegexFault::RegexSyntax);
    }
    judge(part, text.len())
}
