//! The tokens of a file and of all that it includes.

ghost use Rattle.std.specs.Prelude.{◌≡◌, ℕ, ◌+◌, ◌-◌, ◌≤◌, ◌<◌, ◌^◌, ◌++◌, ◌∷◌, ◌||◌, not, [], length, List, Result, true, false, All, Option, Some, MatchOption, IfOk, IfErr, OnOk, MatchResult, map, string_bytes};
ghost use Rattle.std.specs.Str.{is_utf8};
ghost use Rattle.yr_base.specs.Store.{Files};
ghost use Rattle.yr_base.specs.Trace.{Entry};
ghost use Rattle.yr_lexer.specs.declared.token.Token.{Token};
ghost use Rattle.yr_lexer.specs.declared.fault.LexFault.{LexFault};
ghost use Rattle.yr_lexer.specs.Gaps.{Text};
ghost use Rattle.yr_lexer.specs.Texts.{Unescapes};
ghost use Rattle.yr_lexer.specs.Tokens.{ExplainsLex};
ghost use Rattle.yr_lexer.specs.Sources.{file_of, text_at, LiesIn};
ghost use Rattle.yr_lexer.specs.Includes as includes;
ghost use Rattle.yr_lexer.specs.Includes.{IsLexing, IsUnescaping, walk_of};
ghost use Rattle.yr_lexer.specs.Gathering.{FitsWalk, HasCause};
ghost use Rattle.yr_lexer.specs.OpenFiles as states;
ghost use Rattle.yr_lexer.specs.OpenFiles.{IsGathering, LiesOpen, Leads, Refuses, FitsPath, FitsLex, walk_from, walk_with, walk_into, walk_at, files_in, open_in, names_of, open_names, left_of, work_left};

use crate::fault::{GatherFault, LexFault};
use crate::frame::{Frame, Include};
use crate::include::joined_name;
use crate::lexing::lex;
use crate::source::{FileToken, SourceFile};
use crate::text::unescape;
use crate::token::Token;
use crate::tokens::Tokens;
use std::alloc::{AllocError, Global};
use yr_base::{ReadAnswer, Store};

/// All rule text together has at most this many bytes.
const TEXT_LIMIT: u32 = 16_777_216;

/// Includes stand at most this deep.
const DEPTH_LIMIT: usize = 16;

/// The files that were read, the tokens gathered so far, the open files with the innermost last, and the bytes that may still be read.
#[derive(Drop)]
pub struct Gathering {
    pub files: Vec<SourceFile>,
    pub tokens: Vec<FileToken>,
    pub frames: Vec<Frame>,
    pub room: u32,
}

/// Bytes as the name of a file, where they are one.
fn name_in(bytes: &[u8]) -> Option<&str>
    ensures { MatchOption result ((includes.is_empty bytes.now || not (is_utf8 bytes.now)) ≡ true)
        (λ name. (name.now ≡ bytes.now)
        × ((includes.is_empty bytes.now || not (is_utf8 bytes.now)) ≡ false)) }
{
    match str::from_utf8(bytes) {
        Ok(name) => { if name.is_empty() { None } else { Some(name) } }
        Err(_) => None,
    }
}

/// The bytes between the quotes of a text token.
fn inside_of(text: &[u8], token: Token) -> &[u8]
    requires lies { LiesIn text.now token }
    requires text { includes.is_text_kind token.kind ≡ true }
    ensures value { result.now ≡ includes.inside_of text.now token }
    ensures good { (bytes : List ℕ) × Unescapes result.now bytes }
{
    &text[token.from as usize + 1..token.to as usize - 1]
}

/// The path of an include.
fn path_of(alloc: Global, including: &SourceFile, include: Include) -> Result<String, GatherFault>
    requires lies { LiesIn including.now.text.items include.path }
    requires text { includes.is_text_kind include.path.kind ≡ true }
    ensures cause { (before after : ℕ) → IfErr result (λ why. HasCause why before after) }
    ensures path { (unescaped : List ℕ → List ℕ) → IsUnescaping unescaped
        → FitsPath (unescaped (includes.inside_of including.now.text.items include.path))
        (string_bytes including.now.name) include.line result }
{
    let Ok(bytes) = unescape(alloc, inside_of(including.text.as_slice(), include.path)) else {
        return Err(GatherFault::NoMemory);
    };
    match name_in(bytes.as_slice()) {
        Some(path) => Ok(String::from_str(alloc, path)?),
        None => Err(GatherFault::Path {
            file: String::from_str(alloc, including.name.as_str())?,
            line: include.line,
        }),
    }
}

/// The refusal of a file whose text has no tokens.
fn refusal_of(alloc: Global, file: &SourceFile, fault: LexFault) -> GatherFault
    ensures cause { (before after : ℕ) → HasCause result before after }
    ensures lexed { (lexed : Text → Result (List Token) LexFault) → IsLexing lexed → (text : Text)
        → ExplainsLex text fault → FitsLex (lexed text) (string_bytes file.now.name) result }
{
    match fault {
        LexFault::NoMemory => GatherFault::NoMemory,
        _ => match String::from_str(alloc, file.name.as_str()) {
            Ok(file) => GatherFault::Lex { file, fault },
            Err(_) => GatherFault::NoMemory,
        },
    }
}

/// The tokens of a file that was read.
fn lex_file(alloc: Global, file: &SourceFile) -> Result<Vec<Token>, GatherFault>
    requires { length file.now.text.items ≤ 2 ^ 24 }
    ensures cause { (before after : ℕ) → IfErr result (λ why. HasCause why before after) }
    ensures tokens { IfOk result (λ tokens. (length tokens.items ≤ length file.now.text.items)
        × All (LiesIn file.now.text.items) tokens.items) }
    ensures lexed { (lexed : Text → Result (List Token) LexFault) → IsLexing lexed → MatchResult result
        (λ tokens. lexed file.now.text.items ≡ Ok tokens.items)
        (FitsLex (lexed file.now.text.items) (string_bytes file.now.name)) }
{
    match lex(alloc, file.text.as_slice()) {
        Ok(tokens) => Ok(tokens),
        Err(fault) => Err(refusal_of(alloc, file, fault)),
    }
}

/// Whether an open file has this name.
fn is_open(files: &[SourceFile], frames: &[Frame], name: &str) -> bool
    requires { All (LiesOpen (map file_of files.now)) frames.now }
    ensures { result ≡ includes.is_name_among name.now
        (open_names (states.open_files (map file_of files.now) frames.now)) }
{
    for frame in frames {
        if files[frame.file as usize].name.as_str() == name {
            return true;
        }
    }
    false
}

impl Gathering {
    fn new(alloc: Global) -> Gathering
        ensures files { result.files.items ≡ [] }
        ensures tokens { result.tokens.items ≡ [] }
        ensures frames { result.frames.items ≡ [] }
        ensures room { result.room ≡ 16777216 }
    {
        Gathering {
            files: Vec::new(alloc),
            tokens: Vec::new(alloc),
            frames: Vec::new(alloc),
            room: TEXT_LIMIT,
        }
    }

    /// The name that an include stands for, where it may be entered.
    fn included(&self, alloc: Global, include: Include) -> Result<String, GatherFault>
        requires whole { IsGathering self.now }
        requires there { include.file < length self.now.files.items }
        requires lies { LiesIn (text_at (files_in self.now) include.file) include.path }
        requires text { includes.is_text_kind include.path.kind ≡ true }
        ensures few { OnOk result (length self.now.frames.items ≤ 16) }
        ensures cause { (before after : ℕ) → IfErr result (λ why. HasCause why before after) }
        ensures walk { (lexed : Text → Result (List Token) LexFault) → (unescaped : List ℕ → List ℕ)
            → (files : Files) → IsUnescaping unescaped → MatchResult result
            (λ name. walk_at lexed unescaped files include self.now
            ≡ walk_into lexed unescaped files (string_bytes name) self.now)
            (λ why. (told : Option (List Entry)) → Refuses (walk_at lexed unescaped files include self.now)
            (names_of (files_in self.now)) why told told) }
    {
        let including = &self.files[include.file as usize];
        let path = path_of(alloc, including, include)?;
        let name = joined_name(alloc, including.name.as_str(), path.as_str())?;
        if is_open(&self.files, &self.frames, name.as_str()) {
            return Err(GatherFault::Cycle {
                file: String::from_str(alloc, including.name.as_str())?,
                line: include.line,
                name,
            });
        }
        if self.frames.len() > DEPTH_LIMIT {
            return Err(GatherFault::Depth {
                file: String::from_str(alloc, including.name.as_str())?,
                line: include.line,
                name,
            });
        }
        Ok(name)
    }

    /// Opens a file with these tokens.
    fn add(&mut self, file: SourceFile, tokens: Vec<Token>) -> Result<(), AllocError>
        requires room { length file.text.items ≤ self.old.room }
        requires numbered { length self.old.files.items < 2 ^ 32 }
        ensures files { OnOk result (self.new.files.items ≡ self.old.files.items ++ file ∷ []) }
        ensures tokens { OnOk result (self.new.tokens ≡ self.old.tokens) }
        ensures frames { OnOk result (self.new.frames.items ≡ self.old.frames.items
            ++ record { file = length self.old.files.items; tokens = tokens; at = 0 } ∷ []) }
        ensures room { OnOk result (self.new.room ≡ self.old.room - length file.text.items) }
    {
        let room = self.room;
        self.room = room - file.text.len() as u32;
        self.frames.push(Frame {
            file: self.files.len() as u32,
            tokens,
            at: 0,
        })?;
        self.files.push(file)?;
        Ok(())
    }

    /// Lexes and opens a file that was read.
    fn take_file(&mut self, alloc: Global, file: SourceFile) -> Result<(), GatherFault>
        requires whole { IsGathering self.old }
        requires room { length file.text.items ≤ self.old.room }
        requires few { length self.old.frames.items ≤ 16 }
        requires numbered { length self.old.files.items < 2 ^ 32 }
        ensures whole { OnOk result (IsGathering self.new) }
        ensures names { OnOk result (names_of (files_in self.new)
            ≡ names_of (files_in self.old) ++ string_bytes file.name ∷ []) }
        ensures work { OnOk result ((work_left self.new ≤ work_left self.old + 1)
            × (length self.new.files.items ≡ length self.old.files.items + 1)) }
        ensures cause { (before after : ℕ) → IfErr result (λ why. HasCause why before after) }
        ensures walk { (lexed : Text → Result (List Token) LexFault) → (unescaped : List ℕ → List ℕ)
            → (files : Files) → IsLexing lexed → files (string_bytes file.name) ≡ Some file.text.items
            → MatchResult result (λ _. walk_into lexed unescaped files (string_bytes file.name) self.old
            ≡ walk_from lexed unescaped files self.new) (λ why. (told : Option (List Entry))
            → Refuses (walk_into lexed unescaped files (string_bytes file.name) self.old)
            (names_of (files_in self.old) ++ string_bytes file.name ∷ []) why told told) }
    {
        let tokens = lex_file(alloc, &file)?;
        self.add(file, tokens)?;
        Ok(())
    }

    /// Reads a file by its name and opens it.
    fn enter<S: Store>(
        &mut self,
        alloc: Global,
        store: &mut S,
        name: String,
    ) -> Result<(), GatherFault>
        requires whole { IsGathering self.old }
        requires few { length self.old.frames.items ≤ 16 }
        requires numbered { length self.old.files.items < 2 ^ 32 }
        ensures store { (S.files store.new ≡ S.files store.old) × (S.faults store.old ≤ S.faults store.new) }
        ensures cause { IfErr result
            (λ why. HasCause why (S.faults store.old) (S.faults store.new)) }
        ensures whole { OnOk result (IsGathering self.new) }
        ensures work { OnOk result ((work_left self.new ≤ work_left self.old + 1)
            × (length self.new.files.items ≡ length self.old.files.items + 1)) }
        ensures walk { (lexed : Text → Result (List Token) LexFault) → (unescaped : List ℕ → List ℕ)
            → (files : Files) → S.files store.old ≡ Some files → IsLexing lexed
            → Leads (walk_into lexed unescaped files (string_bytes name) self.old) (names_of (files_in self.old))
            result (walk_from lexed unescaped files self.new) (names_of (files_in self.new))
            (S.trace store.old) (S.trace store.new) }
    {
        let mut text = Vec::new(alloc);
        match store.read_file(alloc, name.as_str(), self.room, &mut text) {
            ReadAnswer::Done => self.take_file(alloc, SourceFile { name, text }),
            ReadAnswer::Long => Err(GatherFault::TextTooLong { name }),
            ReadAnswer::Failed => Err(GatherFault::Read { name }),
            ReadAnswer::NoMemory => Err(GatherFault::NoMemory),
        }
    }

    /// Goes on in the innermost open file, up to its end or into its next include.
    fn advance<S: Store>(
        &mut self,
        alloc: Global,
        store: &mut S,
        mut frame: Frame,
    ) -> Result<(), GatherFault>
        requires whole { IsGathering self.old }
        requires few { length self.old.frames.items ≤ 16 }
        requires lies { LiesOpen (files_in self.old) frame }
        requires numbered { length self.old.files.items < 2 ^ 32 }
        ensures store { (S.files store.new ≡ S.files store.old) × (S.faults store.old ≤ S.faults store.new) }
        ensures cause { IfErr result
            (λ why. HasCause why (S.faults store.old) (S.faults store.new)) }
        ensures whole { OnOk result (IsGathering self.new) }
        ensures less { OnOk result (work_left self.new ≤ work_left self.old + length (left_of frame)) }
        ensures numbered { OnOk result (length self.new.files.items + work_left self.new
            ≤ length self.old.files.items + work_left self.old + length (left_of frame) + 1) }
        ensures walk { (lexed : Text → Result (List Token) LexFault) → (unescaped : List ℕ → List ℕ)
            → (files : Files) → S.files store.old ≡ Some files → IsLexing lexed → IsUnescaping unescaped
            → Leads (walk_with lexed unescaped files frame self.old) (names_of (files_in self.old))
            result (walk_from lexed unescaped files self.new) (names_of (files_in self.new))
            (S.trace store.old) (S.trace store.new) }
    {
        let text = self.files[frame.file as usize].text.as_slice();
        let Some(include) = frame.gather_plain(text, &mut self.tokens)? else {
            return Ok(());
        };
        self.frames.push(frame)?;
        let name = self.included(alloc, include)?;
        self.enter(alloc, store, name)
    }
}

/// The tokens of a file and of all that it includes, with the files that were read.
pub fn gather<S: Store>(alloc: Global, store: &mut S, name: &str) -> Result<Tokens, GatherFault>
    ensures files { S.files store.new ≡ S.files store.old }
    ensures later { S.faults store.old ≤ S.faults store.new }
    ensures cause { IfErr result (λ why. HasCause why (S.faults store.old) (S.faults store.new)) }

    // Where the files are told, the answer is that of the walk over them, by the tokens of texts and
    // by what the inside of a text stands for.
    ensures walk { (lexed : Text → Result (List Token) LexFault) → (unescaped : List ℕ → List ℕ)
        → (files : Files) → S.files store.old ≡ Some files → IsLexing lexed → IsUnescaping unescaped
        → FitsWalk (walk_of lexed unescaped files name.now) result (S.trace store.old) (S.trace store.new) }
{
    let mut gathering = Gathering::new(alloc);
    let root = String::from_str(alloc, name)?;
    gathering.enter(alloc, store, root)?;
    'open: while let Some(frame) = gathering.frames.pop() {
        gathering.advance(alloc, store, frame)?;
    }
    Ok(Tokens::new(gathering.files, gathering.tokens))
}
