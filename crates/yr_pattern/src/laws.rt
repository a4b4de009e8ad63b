//! What a reader of the definitions may expect of them. Each function's contract is a law.

ghost use Rattle.std.specs.Prelude.{◌≡◌, ℕ, ◌+◌, ◌<◌, ◌≤◌, ◌↔◌, Bool, true, false, Some, List, length, slice_index};
ghost use Rattle.yr_base.specs.Bytes.{SameLetter};
ghost use Rattle.yr_pattern.specs.Set.{Has, in_either_case};
ghost use Rattle.yr_pattern.specs.Tree.{Tree, Trees, Seq, Rep, WideEdge, WideNotEdge, more, join};
ghost use Rattle.yr_pattern.specs.Sizes.{size_of};
ghost use Rattle.yr_pattern.specs.Spans.{Spans, SpansDown};
ghost use Rattle.yr_pattern.specs.Reverse.{reverse_tree};
ghost use Rattle.yr_pattern.specs.Fold.{fold_tree};
ghost use Rattle.yr_pattern.specs.Variants.{Literal};
ghost use Rattle.yr_pattern.specs.Counts.{IsReadAs, BodySpans, Counts};
ghost use Rattle.yr_pattern.specs.Rows.{hex_tree, hex_file, wide_file, xor_variant, xor_file};

/// A span that begins in a file lies in it.
pub fn span_in_file()
    ensures { (tree : Tree) (file : List ℕ) (i j : ℕ) → i ≤ length file
        → Spans tree file i j → (i ≤ j) × (j ≤ length file) }
{}

/// A sequence in a sequence spans what its members would span in its place.
pub fn nested_sequence()
    ensures { (front us back : Trees) (file : List ℕ) (i j : ℕ)
        → (Spans (Seq (join front (more (Seq us) back))) file i j)
        ↔ (Spans (Seq (join front (join us back))) file i j) }
{}

/// What is repeated from 1 to 1 times spans what it spans alone.
pub fn repeated_once()
    ensures { (tree : Tree) (file : List ℕ) (i j : ℕ)
        → (Spans (Rep tree 1 (Some 1)) file i j) ↔ (Spans tree file i j) }
{}

/// A pattern turned round, and read downwards, spans exactly the same places.
pub fn reversed_spans()
    ensures { (tree : Tree) (file : List ℕ) (i j : ℕ)
        → (Spans tree file i j) ↔ (SpansDown (reverse_tree tree) file j i) }
{}

/// A pattern turned round has the same size.
pub fn reversed_size()
    ensures { (tree : Tree) → size_of (reverse_tree tree) ≡ size_of tree }
{}

/// A pattern without regard to case has the same size.
pub fn folded_size()
    ensures { (tree : Tree) → size_of (fold_tree tree) ≡ size_of tree }
{}

/// A class in either case has the bytes that are, but for case, bytes of the class.
pub fn either_case()
    ensures { (bytes : ℕ → Bool) (b : ℕ)
        → (Has (in_either_case bytes) b) ↔ ((a : ℕ) × Has bytes a × SameLetter a b) }
{}

/// A literal spans where each of its bytes is read at its place.
pub fn literal_places()
    ensures { (bytes : List ℕ) (key : ℕ) (fold : Bool) (file : List ℕ) (i j : ℕ)
        → (BodySpans (Literal bytes key fold) file i j)
        ↔ ((j ≡ i + length bytes) × ((k : ℕ) → k < length bytes
        → (i + k < length file) × IsReadAs key fold (slice_index file (i + k)) (slice_index bytes k))) }
{}

/// `{ 01 ~?2 ( 03 | 04 [1-2] 05 ) }` spans the whole of `01 13 04 00 00 05`.
pub fn hex_row()
    ensures { Spans hex_tree hex_file 0 6 }
{}

/// In `61 00 2d 00` a word of two bytes a letter ends at 2, and no such word begins or ends at 1.
pub fn wide_row()
    ensures ends { Spans WideEdge wide_file 2 2 }
    ensures inside { Spans WideNotEdge wide_file 1 1 }
{}

/// The wide form of `ab` under the key 01 counts in `60 01 63 01`.
pub fn xor_row()
    ensures { Counts xor_variant xor_file 0 4 }
{}
