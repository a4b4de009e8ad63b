//! Laws of the definitions, and small runs that they are tried on.

ghost use Rattle.std.specs.Prelude.{◌≡◌, ℕ, List, Some, None, Ok, Err, true, false, nat_le, length, pos, codes, [], ◌∷◌, ◌++◌};
ghost use Rattle.yr_base.specs.Store.{Files};
ghost use Rattle.yr_image.specs.declared.fault.ImageFault.TheVariants as image_fault;
ghost use Rattle.yr_lexer.specs.declared.fault.LexFault.TheVariants as lex_fault;
ghost use Rattle.yr_checks.specs.declared.refusal.Code.TheVariants as code;
ghost use Rattle.yr_lexer.specs.Includes.{Lex, Cycle, Depth, TextTooLong};
ghost use Rattle.yr_outcome.specs.declared.status.Status.TheVariants as status;
ghost use Rattle.yr_outcome.specs.Texts.{gather_text, finding_text, at_line, image_text};
ghost use Rattle.yr_outcome.specs.Front.{Reading, IsReading, refusal};
ghost use Rattle.yr_values.specs.Values.{Number};
ghost use Rattle.yr_outcome.specs.Externals.{first_misfit, values_with};
ghost use Rattle.yr_outcome.specs.Answers.{Setting};
ghost use Rattle.yr_outcome.specs.Outcome.{Outcome, Ending, Found, Free, IsOutcome, IsNearOutcome, ending_of, refused, after_reads, on_target};
ghost use Rattle.yr_outcome.specs.declared.answer.Answer.{Answer};
ghost use Rattle.yr_outcome.specs.Complete.{CanFinish};
ghost use Rattle.yr_outcome.specs.Fits.{Seen, Outside, Said};
ghost use Rattle.yr_outcome.specs.Steps.{Endings, FitsAnswer, HasRead, Fitting, status_of, text_of};
ghost use Rattle.yr_outcome.specs.Clauses.{Answers, ReadFaults, WriteFaults, NoMemories, Completes, ReadCauses, WriteCauses};
ghost use Rattle.yr_outcome.specs.Examples.{nothing_found, small_files, small_run, number, given};

/// Words and files have an outcome: one with nothing found where none is asked for.
pub fn some_outcome()
    ensures near { (setting : Setting) (reading : Reading) (words : List (List ℕ)) (files : Files)
        → (o : Outcome) × IsNearOutcome setting reading words files o }
    ensures free { (setting : Setting) (reading : Reading) (words : List (List ℕ)) (files : Files)
        → (ending_of setting reading nothing_found files words).claim ≡ Free → (o : Outcome) × IsOutcome setting reading words files o }
{}

/// There are functions that read as the definitions say, so what is promised for every such reading is promised of some.
pub fn some_reading()
    ensures { (reading : Reading) × IsReading reading }
{
    yr_lexer::each_text_has_an_answer();
    yr_lexer::each_text_has_a_meaning();
    yr_parser::tokens_have_an_answer();
    yr_checks::laws::readers();
    yr_machine::laws::bytes_have_an_answer();
}

/// A run that can come to its end has a whole answer, whatever is found.
pub fn can_finish()
    ensures { (setting : Setting) (reading : Reading) (found : Found) (words : List (List ℕ)) (files : Files)
        → CanFinish setting reading words files → (ending_of setting reading found files words).outcome.status ≡ status.Done }
{}

/// What is promised of each status follows from the answer of the whole walk and from what was said of it.
pub fn promises()
    ensures answer { (setting : Setting) (words : List (List ℕ)) (a : Answer) (old new : Outside)
        → Fitting setting words a old new → Said old new (text_of a) → Answers setting words (status_of a) old new }
    ensures read_fault { (setting : Setting) (words : List (List ℕ)) (a : Answer) (old new : Outside)
        → Fitting setting words a old new → Said old new (text_of a) → ReadFaults setting words (status_of a) old new }
    ensures write_fault { (setting : Setting) (words : List (List ℕ)) (a : Answer) (old new : Outside)
        → Fitting setting words a old new → Said old new (text_of a) → WriteFaults setting words (status_of a) old new }
    ensures no_memory { (setting : Setting) (words : List (List ℕ)) (a : Answer) (old new : Outside)
        → Fitting setting words a old new → Said old new (text_of a) → NoMemories setting words (status_of a) old new }
    ensures complete { (setting : Setting) (words : List (List ℕ)) (a : Answer) (old new : Outside)
        → Fitting setting words a old new → ReadCauses setting words (status_of a) old new → WriteCauses setting words (status_of a) old new
        → Completes setting words (status_of a) old new }
{}

/// Reads before a step, whose walk begins with them.
pub fn reads_before()
    ensures { (names : List (List ℕ)) (old mid new : Seen) → HasRead names old mid → (setting : Setting) (e : Endings) (a : Answer)
        → FitsAnswer setting e a mid new → FitsAnswer setting (λ found. after_reads names (e found)) a old new }
{}

/// The texts of refusals.
pub fn texts()
    ensures duplicate { at_line (codes "q.yar") 1 (finding_text code.DuplicateRule (codes "r") [] None) ≡ codes "q.yar:1: DuplicateRule r\n" }
    ensures jump { at_line (codes "r.yar") 1 (finding_text code.HexJump (codes "x") (codes "$a") (Some 4)) ≡ codes "r.yar:1: HexJump x $a 4\n" }
    ensures cycle { gather_text (Cycle (codes "b.yar") 1 (codes "a.yar")) ≡ codes "b.yar:1: Cycle a.yar\n" }
    ensures unclosed { gather_text (Lex (codes "r.yar") (lex_fault.Unclosed 12)) ≡ codes "r.yar:12: Unclosed\n" }
    ensures code { image_text (codes "s.img") (image_fault.Code 0 0) ≡ codes "s.img: Code 0 0\n" }
    ensures section { image_text (codes "s.img") (image_fault.Section 12) ≡ codes "s.img: Section 12\n" }
    ensures short { image_text (codes "r.img") image_fault.TooShort ≡ codes "r.img: TooShort\n" }
{}

/// Refusals that come before any file is read.
pub fn words_refused()
    ensures usage { (setting : Setting) (reading : Reading) (found : Found) (files : Files)
        → ending_of setting reading found files (codes "scan" ∷ codes "r.yar" ∷ []) ≡ refused files (refusal status.Usage (codes "bad command line\n")) }
    ensures twice { (setting : Setting) (reading : Reading) (found : Found) (files : Files)
        → ending_of setting reading found files (codes "scan" ∷ codes "r.yar" ∷ codes "t.bin" ∷ codes "n=5" ∷ codes "n=6" ∷ [])
        ≡ refused files (refusal status.External (codes "external n: Twice\n")) }
{}

/// A target that is too long.
pub fn long_target()
    ensures { (files : Files) (answer : List ℕ → Ending) (file : List ℕ) → nat_le (length file) 268435456 ≡ false
        → on_target files (codes "t.bin") answer (Some file) ≡ refused files (refusal status.LongTarget (codes "t.bin: too long\n")) }
{}

/// Runs over two small rule files: namespaces, a rule that stands twice, and a rule file that is not there.
pub fn small_runs()
    ensures two_spaces { (small_run (codes "scan" ∷ codes "p:p.yar" ∷ codes "q:q.yar" ∷ codes "t.bin" ∷ [])).out ≡ codes "r t.bin\n" }
    ensures one_space { (small_run (codes "scan" ∷ codes "p.yar" ∷ codes "q.yar" ∷ codes "t.bin" ∷ [])).out ≡ [] }
    ensures shown_spaces { (small_run (codes "scan" ∷ codes "-e" ∷ codes "a:q.yar" ∷ codes "b:q.yar" ∷ codes "t.bin" ∷ [])).out ≡ codes "a:r t.bin\nb:r t.bin\n" }
    ensures checked { (small_run (codes "check" ∷ codes "a:q.yar" ∷ codes "b:q.yar" ∷ [])).out ≡ codes "rules 2, strings 0\n" }
    ensures read { (small_run (codes "scan" ∷ codes "q.yar" ∷ codes "t.bin" ∷ [])).reads ≡ codes "q.yar" ∷ codes "t.bin" ∷ [] }
    ensures duplicate { small_run (codes "scan" ∷ codes "q.yar" ∷ codes "q.yar" ∷ codes "t.bin" ∷ [])
        ≡ record { status = status.Rules; out = []; said = codes "q.yar:1: DuplicateRule r\n"; files = small_files; output = None; reads = codes "q.yar" ∷ codes "q.yar" ∷ [] } }
    ensures unknown_module { (small_run (codes "scan" ∷ codes "q.yar" ∷ codes "m.yar" ∷ codes "t.bin" ∷ [])).said ≡ codes "m.yar:1: UnknownModule math\n" }
    ensures missing { small_run (codes "scan" ∷ codes "q.yar" ∷ codes "no.yar" ∷ codes "t.bin" ∷ [])
        ≡ record { status = status.ReadFault; out = []; said = codes "cannot read no.yar\n"; files = small_files; output = None; reads = codes "q.yar" ∷ codes "no.yar" ∷ [] } }
    ensures no_target { small_run (codes "scan" ∷ codes "q.yar" ∷ codes "no.bin" ∷ [])
        ≡ record { status = status.ReadFault; out = []; said = codes "cannot read no.bin\n"; files = small_files; output = None; reads = codes "q.yar" ∷ codes "no.bin" ∷ [] } }
{}

/// Values for the externals of an image.
pub fn image_values()
    ensures kind { first_misfit (number (codes "n") (pos 5) ∷ []) (given (codes "n=x") ∷ []) ≡ Some (refusal status.External (codes "external n: Kind\n")) }
    ensures unknown { first_misfit (number (codes "n") (pos 5) ∷ []) (given (codes "k=1") ∷ []) ≡ Some (refusal status.External (codes "external k: Unknown\n")) }
    ensures fits { first_misfit (number (codes "n") (pos 5) ∷ []) (given (codes "n=7") ∷ []) ≡ None }
    ensures given { values_with (given (codes "n=7") ∷ []) (number (codes "m") (pos 1) ∷ number (codes "n") (pos 5) ∷ []) ≡ Number (pos 1) ∷ Number (pos 7) ∷ [] }
{}
