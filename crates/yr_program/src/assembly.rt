//! From patterns to programs.

ghost use Rattle.std.specs.Prelude.{◌≡◌, ℕ, ◌+◌, ◌≤◌, ◌<◌, ◌↔◌, true, false, List, length, IfOk};
ghost use Rattle.yr_pattern.specs.Tree.{tree_of};
ghost use Rattle.yr_pattern.specs.Sizes.{size_of};
ghost use Rattle.yr_pattern.specs.Spans.{Spans};
ghost use Rattle.yr_rows.specs.Moves.{AreWellformedMoves};
ghost use Rattle.yr_rows.specs.Accepts.{Accepts, AcceptsBackwards};
ghost use Rattle.yr_program.specs.Code.{program_of};
ghost use Rattle.yr_program.specs.Drafts.{acts_of};
ghost use Rattle.yr_program.specs.Programs.{program_moves, program_sets, turned_if};

use crate::draft::{Draft, DraftMove};
use crate::emission::emit;
use crate::keeping::without_empty_parts;
use crate::program::Program;
use crate::writing::write;
use std::alloc::Global;
use yr_base::NoMemory;
use yr_pattern::{Pattern, reverse, size};

/// The program of a pattern: it accepts exactly what the pattern spans, read forwards, or backwards from the end of a
/// span. An assertion looks at its place, in both directions alike.
pub fn assemble(alloc: Global, p: &Pattern, backwards: bool) -> Result<Program, NoMemory>
    requires { size_of (tree_of p.now) ≤ 65535 }
    ensures forwards { IfOk result (λ program. backwards ≡ false → (file : List ℕ) (i j : ℕ) →
        Accepts (program_moves program) (program_sets program) file i j ↔ Spans (tree_of p.now) file i j) }
    ensures backwards { IfOk result (λ program. backwards ≡ true → (file : List ℕ) (i j : ℕ) →
        AcceptsBackwards (program_moves program) (program_sets program) file i j ↔ Spans (tree_of p.now) file i j) }
    ensures wellformed { IfOk result (λ program. AreWellformedMoves (program_moves program) (program_sets program)) }
    ensures small { IfOk result (λ program. length (program_moves program) ≡ size_of (tree_of p.now) + 1) }
    ensures few_sets { IfOk result (λ program. length (program_sets program) < length (program_moves program)) }
{
    let draft = draft_of(alloc, p, backwards)?;
    let program = write(alloc, draft.moves())?;
    Ok(program)
}

// The moves of a pattern, or of the pattern turned round.
fn draft_of(alloc: Global, p: &Pattern, backwards: bool) -> Result<Draft, NoMemory>
    requires { size_of (tree_of p.now) ≤ 65535 }
    ensures { IfOk result (λ draft. acts_of draft ≡ program_of (turned_if backwards (tree_of p.now))) }
{
    if backwards {
        let turned = reverse(alloc, p)?;
        build(alloc, &turned)
    } else {
        build(alloc, p)
    }
}

// The moves of a pattern, and the last one.
fn build(alloc: Global, p: &Pattern) -> Result<Draft, NoMemory>
    requires { size_of (tree_of p.now) ≤ 65535 }
    ensures { IfOk result (λ draft. acts_of draft ≡ program_of (tree_of p.now)) }
{
    let mut draft = Draft::new(alloc);
    let left = without_empty_parts(alloc, p)?;
    let end = size(&left) as u32;
    emit(&mut draft, &left, end)?;
    draft.put(DraftMove::Accept)?;
    Ok(draft)
}
