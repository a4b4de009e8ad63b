//! The walk over a rule's code: the kinds on the stack, and the open blocks.

ghost use Rattle.std.specs.Prelude.{◌≡◌, ◌<◌, ◌≤◌, ◌&&◌, ◌==◌, [], ◌∷◌, false, length, drop, slice_get, option_map, IfSome, IsTrue};
ghost use Rattle.std.specs.Option.{option_map_or};
ghost use Rattle.yr_base.specs.declared.value.Kind.TheVariants as kind;
ghost use Rattle.yr_machine.specs.declared.block.Want.TheVariants as want;
ghost use Rattle.yr_machine.specs.declared.block.Opener.TheVariants.{Skip, Loop};
ghost use Rattle.yr_machine.specs.CodeWalk.{taken, is_answer, is_skip, open_loops, close, pushed, opened, floor_of, is_within, skip_ends_well, skipping, loop_bound, is_bounded, is_loop_end, has_loop_end, loop_ends_well, looping, answered, turned, ended, is_ending, by_role, by_instruction, by_row};
ghost use Rattle.yr_verifier.specs.Stacks.{down_to};
ghost use Rattle.yr_verifier.specs.Effects.{wants_of, role_of};
ghost use Rattle.yr_verifier.specs.Rows.{rows_shown, image_shown};
ghost use Rattle.yr_verifier.specs.Blocks.{AreMost};
ghost use Rattle.yr_verifier.specs.Steps.{verdict_of, verdict_if, Agrees, AgreesAfter, IsLoopOf};

use crate::code_names::names_there;
use crate::effect::{Effect, Wants, effect_of, one};
use crate::lists::Lists;
use crate::rule_code::Code;
use crate::stacks::{Blocks, Kinds, Loops};
use yr_base::Kind;
use yr_image::{CodeRow, Instruction};
use yr_machine::{Block, Opener, Want};

/// What a row does to the walk.
#[derive(Clone, Copy)]
pub enum Pass {
    Fails,
    GoesOn,
    Finished,
}

/// The kinds on the stack, the open blocks, and the loops among them.
#[derive(Drop)]
pub struct Walk {
    pub kinds: Kinds,
    pub blocks: Blocks,
    pub loops: Loops,
}

// The stack is the floor and a flag.
fn is_answer(kinds: &Kinds, floor: u32) -> bool
    ensures { result ≡ is_answer floor kinds.now }
{
    match kinds.top() {
        None => false,
        Some(Kind::Number) => false,
        Some(Kind::Text) => false,
        Some(Kind::Flag) => kinds.height() - 1 == floor,
    }
}

fn is_skip(opener: Opener) -> bool
    ensures { result ≡ is_skip opener }
{
    match opener {
        Opener::Skip => true,
        Opener::Loop { .. } => false,
    }
}

fn ends_at(block: Block, place: u32) -> bool
    ensures { result ≡ (is_skip block.opener && (block.end == place)) }
{
    is_skip(block.opener) && block.end == place
}

fn loop_bound(block: Block) -> u32
    ensures { result ≡ loop_bound block block.opener }
{
    match block.opener {
        Opener::Skip => block.end,
        Opener::Loop { .. } => block.end.saturating_sub(1),
    }
}

// Whether a block that ends here lies within the innermost one.
fn is_within(blocks: &Blocks, end: u32) -> bool
    ensures { result ≡ is_within end blocks.now }
{
    match blocks.top() {
        None => true,
        Some(block) => end <= block.end,
    }
}

// Whether a loop that ends here does so within the innermost block, and before its last row where that is a loop.
fn is_bounded(blocks: &Blocks, end: u32) -> bool
    ensures { result ≡ is_bounded end blocks.now }
{
    match blocks.top() {
        None => true,
        Some(block) => end <= block.end && end <= loop_bound(block),
    }
}

fn skip_ends_well(blocks: &Blocks, rows: u32, place: u32, end: u32) -> bool
    ensures { result ≡ skip_ends_well rows place end blocks.now }
{
    u64::from(place) + 1 < u64::from(end) && end < rows && is_within(blocks, end)
}

fn is_loop_end(row: CodeRow, place: u32) -> bool
    ensures { result ≡ is_loop_end place row }
{
    row.op == 0x22 && row.c == place
}

// Whether a place has the end of the loop at another.
fn ends_loop(code: &Code, last: u32, place: u32) -> bool
    ensures { result ≡ option_map_or (is_loop_end place) (slice_get (rows_shown code.now) last) false }
{
    match code.get(last) {
        Some(row) => is_loop_end(row, place),
        None => false,
    }
}

// Whether the row before the end is the end of the loop at a place.
fn has_loop_end(code: &Code, place: u32, end: u32) -> bool
    ensures { result ≡ has_loop_end (rows_shown code.now) place end }
{
    end > 0 && place < end - 1 && ends_loop(code, end - 1, place)
}

impl Walk {
    pub fn new() -> Walk {
        Walk {
            kinds: Kinds::new(),
            blocks: Blocks::new(),
            loops: Loops::new(),
        }
    }

    /// Begins anew.
    pub fn clear(&mut self)
        ensures kinds { self.new.kinds ≡ [] }
        ensures blocks { self.new.blocks ≡ [] }
        ensures loops { self.new.loops ≡ [] }
    {
        self.kinds.cut(0);
        self.blocks.clear();
        self.loops.clear();
    }

    fn floor(&self) -> u32
        ensures { result ≡ floor_of self.now.blocks }
    {
        match self.blocks.top() {
            None => 0,
            Some(block) => block.floor,
        }
    }

    // The height below the wanted values, None where they are not on top, or one stands below the floor.
    fn below_wants(&self, wants: Wants) -> Option<u32>
        ensures left { option_map (λ height. down_to height self.now.kinds) result ≡ taken (wants_of wants) self.now.kinds self.now.blocks }
        ensures small { IfSome result (λ height. height ≤ length self.now.kinds) }
    {
        let Some(height) = self.kinds.below_wants(wants) else {
            return None;
        };
        if self.floor() <= height {
            Some(height)
        } else {
            None
        }
    }

    // Closes the skips that end at the place.
    fn close(&mut self, place: u32) -> bool
        requires { Agrees self.old }
        ensures verdict { verdict_if result self.new ≡ close place self.old.kinds self.old.blocks }
        ensures agrees { Agrees self.new }
    {
        while let Some(block) = self.blocks.top() {
            if !ends_at(block, place) {
                return true;
            }
            if !is_answer(&self.kinds, block.floor) {
                return false;
            }
            let _ = self.blocks.pop();
        }
        true
    }

    // A row that takes values and gives one.
    fn give(&mut self, wants: Wants, kind: Kind) -> Pass
        requires { Agrees self.old }
        ensures verdict { verdict_of result self.new ≡ pushed kind (taken (wants_of wants) self.old.kinds self.old.blocks) self.old.blocks }
        ensures agrees { AgreesAfter result self.new }
    {
        let Some(height) = self.below_wants(wants) else {
            return Pass::Fails;
        };
        if height >= 4096 {
            return Pass::Fails;
        }
        self.kinds.cut(height);
        self.kinds.push(kind);
        Pass::GoesOn
    }

    // Opens a block of a skip above a height.
    fn open_skip(&mut self, end: u32, height: u32) -> Pass
        requires agrees { Agrees self.old }
        requires low { height ≤ length self.old.kinds }
        ensures verdict { verdict_of result self.new ≡ opened Skip end (down_to height self.old.kinds) self.old.blocks }
        ensures agrees { AgreesAfter result self.new }
    {
        if self.blocks.count() >= 1024 {
            return Pass::Fails;
        }
        self.kinds.cut(height);
        self.blocks.push(Block {
            floor: height,
            end,
            opener: Opener::Skip,
        });
        Pass::GoesOn
    }

    // Opens a block of the loop at a place above a height.
    fn open_loop(&mut self, place: u32, strings: bool, kept: u32, end: u32, height: u32) -> Pass
        requires agrees { Agrees self.old }
        requires few { length self.old.loops < 4 }
        requires low { height ≤ length self.old.kinds }
        ensures verdict { verdict_of result self.new ≡ opened (Loop place strings kept) end (down_to height self.old.kinds) self.old.blocks }
        ensures agrees { AgreesAfter result self.new }
    {
        if self.blocks.count() >= 1024 {
            return Pass::Fails;
        }
        self.kinds.cut(height);
        self.blocks.push(Block {
            floor: height,
            end,
            opener: Opener::Loop {
                place,
                strings,
                kept,
            },
        });
        self.loops.push(strings);
        Pass::GoesOn
    }

    fn skip(&mut self, rows: u32, place: u32, end: u32) -> Pass
        requires { Agrees self.old }
        ensures verdict { verdict_of result self.new ≡ skipping (skip_ends_well rows place end self.old.blocks) end (taken (want.Of kind.Flag ∷ []) self.old.kinds self.old.blocks) self.old.blocks }
        ensures agrees { AgreesAfter result self.new }
    {
        if !skip_ends_well(&self.blocks, rows, place, end) {
            return Pass::Fails;
        }
        match self.below_wants(one(Want::Of(Kind::Flag))) {
            None => Pass::Fails,
            Some(height) => self.open_skip(end, height),
        }
    }

    fn loop_ends_well(&self, code: &Code, place: u32, end: u32) -> bool
        requires { Agrees self.now }
        ensures value { result ≡ loop_ends_well (rows_shown code.now) place end self.now.blocks }
        ensures few { IsTrue result → length self.now.loops < 4 }
    {
        is_bounded(&self.blocks, end) && has_loop_end(code, place, end) && self.loops.count() < 4
    }

    fn start(
        &mut self,
        code: &Code,
        wants: Wants,
        keeps: bool,
        strings: bool,
        place: u32,
        end: u32,
    ) -> Pass
        requires { Agrees self.old }
        ensures verdict { verdict_of result self.new ≡ looping (loop_ends_well (rows_shown code.now) place end self.old.blocks) keeps strings (wants_of wants) place end
            self.old.kinds (taken (wants_of wants) self.old.kinds self.old.blocks) self.old.blocks }
        ensures agrees { AgreesAfter result self.new }
    {
        if !self.loop_ends_well(code, place, end) {
            return Pass::Fails;
        }
        let Some(height) = self.below_wants(wants) else {
            return Pass::Fails;
        };
        if keeps {
            let all = self.kinds.height();
            self.open_loop(place, strings, all - height, end, all)
        } else {
            self.open_loop(place, strings, 0, end, height)
        }
    }

    // The loop's values are replaced by a flag, its answer, and its block is closed.
    fn answer(&mut self, kept: u32) -> Pass
        requires agrees { Agrees self.old }
        requires innermost { IsLoopOf kept self.old.blocks }
        requires some { 0 < length self.old.kinds }
        ensures verdict { verdict_of result self.new ≡ answered kept self.old.kinds (drop 1 self.old.blocks) }
        ensures agrees { AgreesAfter result self.new }
    {
        let height = self.kinds.height() - 1;
        self.kinds.cut(height.saturating_sub(kept));
        self.kinds.push(Kind::Flag);
        let _ = self.blocks.pop();
        let _ = self.loops.pop();
        Pass::GoesOn
    }

    fn turn(&mut self, place: u32, named: u32) -> Pass
        requires { Agrees self.old }
        ensures verdict { verdict_of result self.new ≡ turned place named self.old.kinds self.old.blocks }
        ensures agrees { AgreesAfter result self.new }
    {
        let Some(block) = self.blocks.top() else {
            return Pass::Fails;
        };
        match block.opener {
            Opener::Skip => Pass::Fails,
            Opener::Loop {
                place: from,
                kept,
                ..
            } => {
                if from == named
                    && u64::from(block.end) == u64::from(place) + 1
                    && is_answer(&self.kinds, block.floor)
                {
                    self.answer(kept)
                } else {
                    Pass::Fails
                }
            }
        }
    }

    // One value is left, and no block is open.
    fn end(&mut self) -> Pass
        ensures verdict { verdict_of result self.new ≡ ended self.old.kinds self.old.blocks }
        ensures agrees { AgreesAfter result self.new }
    {
        if self.kinds.height() == 1 && self.blocks.count() == 0 {
            Pass::Finished
        } else {
            Pass::Fails
        }
    }

    fn apply(&mut self, code: &Code, place: u32, effect: Effect) -> Pass
        requires { Agrees self.old }
        ensures verdict { verdict_of result self.new ≡ by_role (image_shown code.now) code.now.rule (rows_shown code.now) (role_of effect) place self.old.kinds self.old.blocks }
        ensures agrees { AgreesAfter result self.new }
    {
        match effect {
            Effect::Ends => self.end(),
            Effect::Gives(wants, kind) => self.give(wants, kind),
            Effect::Skips(end) => self.skip(code.count(), place, end),
            Effect::Starts {
                wants,
                keeps,
                strings,
                end,
            } => self.start(code, wants, keeps, strings, place, end),
            Effect::Turns(named) => self.turn(place, named),
        }
    }

    fn pass_instruction(
        &mut self,
        code: &Code,
        place: u32,
        last: bool,
        instruction: Instruction,
        lists: &Lists,
    ) -> Pass
        requires agrees { Agrees self.old }
        requires most { AreMost (image_shown code.now) lists.now }
        ensures verdict { verdict_of result self.new ≡ by_instruction (image_shown code.now) code.now.rule (rows_shown code.now) (Some instruction) last place self.old.kinds self.old.blocks }
        ensures agrees { AgreesAfter result self.new }
    {
        let effect = effect_of(&code.view, instruction);
        if effect.ends() != last {
            return Pass::Fails;
        }
        if !names_there(&code.view, lists, code.rule, &self.loops, instruction) {
            return Pass::Fails;
        }
        self.apply(code, place, effect)
    }

    /// Closes the skips that end at the place, and does what its row does.
    pub fn pass(
        &mut self,
        code: &Code,
        place: u32,
        last: bool,
        row: &CodeRow,
        lists: &Lists,
    ) -> Pass
        requires agrees { Agrees self.old }
        requires most { AreMost (image_shown code.now) lists.now }
        ensures verdict { verdict_of result self.new ≡ by_row (image_shown code.now) code.now.rule (rows_shown code.now) row.now last place (close place self.old.kinds self.old.blocks) }
        ensures agrees { AgreesAfter result self.new }
    {
        if !self.close(place) {
            return Pass::Fails;
        }
        match row.read() {
            None => Pass::Fails,
            Some(instruction) => self.pass_instruction(code, place, last, instruction, lists),
        }
    }
}
