//! Laws of images that grow.

ghost use Rattle.std.specs.Prelude.{◌≡◌, ◌≤◌, ◌+◌, ℕ, Bool, List, length};
ghost use Rattle.yr_pattern.specs.Tree.{Tree};
ghost use Rattle.yr_rows.specs.Moves.{AreWellformedMoves};
ghost use Rattle.yr_rows.specs.declared.moves.MoveRow.{MoveRow};
ghost use Rattle.yr_image.specs.Image.{Image, pool_text};
ghost use Rattle.yr_draft.specs.Growing.{Grows};
ghost use Rattle.yr_draft.specs.Added.{HasText, with_program};
ghost use Rattle.yr_draft.specs.Programs.{AcceptSpans, IsProgramOf};

/// What is added lets texts and programs grow.
pub fn added_grows()
    ensures none { (image : Image) → Grows image image }
    ensures after { (first second third : Image) → Grows first second → Grows second third → Grows first third }
    ensures text { (old new : Image) (text : List ℕ) (place : ℕ) → HasText old new text place → Grows old new }
    ensures program { (old : Image) (moves : List MoveRow) (sets : List (List ℕ)) → Grows old (with_program old moves sets) }
{}

/// Ranges of the pool keep their texts as it grows.
pub fn texts_stay()
    ensures inside { (old new : Image) → Grows old new → (place count : ℕ) → place + count ≤ length old.pool
        → place + count ≤ length new.pool }
    ensures reads { (old new : Image) → Grows old new → (place count : ℕ) → place + count ≤ length old.pool
        → pool_text new place count ≡ pool_text old place count }
{}

/// A program that is added accepts what its moves accept by themselves, and stays so.
pub fn programs_stay()
    ensures added { (old : Image) (backwards : Bool) (tree : Tree) (moves : List MoveRow) (sets : List (List ℕ)) → AreWellformedMoves moves sets
        → AcceptSpans backwards moves sets tree → IsProgramOf (with_program old moves sets) backwards tree (length old.programs) }
    ensures stays { (old new : Image) (backwards : Bool) (tree : Tree) (number : ℕ) → Grows old new
        → IsProgramOf old backwards tree number → IsProgramOf new backwards tree number }
{}
