//! Stacks of fixed room, seen as lists from the top down.

ghost use Rattle.std.specs.Prelude.{◌≡◌, ◌<◌, ◌≤◌, List, [], ◌∷◌, length, None, slice_get, reverse, take, option_map, option_and_then, IfSome};
ghost use Rattle.yr_machine.specs.declared.block.Want.{Want};
ghost use Rattle.yr_machine.specs.CodeWalk.{take_kinds, is_wanted};
ghost use Rattle.yr_machine.specs.Named.{is_loop};
ghost use Rattle.yr_verifier.specs.Stacks.{down_to, popped};
ghost use Rattle.yr_verifier.specs.Effects.{copies, wants_of};

use crate::effect::Wants;
use arrayvec::ArrayVec;
use std::marker::Model;
use yr_base::Kind;
use yr_machine::{Block, Want};

/// The kinds of the values on the stack.
#[derive(Drop)]
pub struct Kinds {
    items: [Kind; 4096],
    height: u32,
}

impl Model for Kinds {
    ghost use Rattle.std.specs.Prelude.{List, ◌≤◌, ◌≡◌, reverse, take, length};
    ghost use Rattle.yr_base.specs.declared.value.Kind.{Kind};

    ghost Value = { List Kind };

    ghost view = { λ s. reverse (take s.height s.items) };

    ghost invariant = { λ s. (s.height ≤ 4096) × (length s.items ≡ 4096) };
}

fn is_wanted(want: Want, kind: Kind) -> bool
    ensures { result ≡ is_wanted want kind }
{
    match (want, kind) {
        (Want::Any, _) => true,
        (Want::Of(Kind::Number), Kind::Number) => true,
        (Want::Of(Kind::Flag), Kind::Flag) => true,
        (Want::Of(Kind::Text), Kind::Text) => true,
        (Want::Of(_), _) => false,
    }
}

// The height below so many values of a want, None where they are not on top.
fn below_copies(kinds: &[Kind], want: Want, count: u64) -> Option<usize>
    ensures left { (below : List Want) → option_and_then (λ height. take_kinds below (reverse (take height kinds.now))) result
        ≡ take_kinds (copies want count below) (reverse kinds.now) }
    ensures small { IfSome result (λ height. height ≤ length kinds.now) }
{
    let mut height = kinds.len();
    for _ in 0..count {
        if height == 0 {
            return None;
        }
        if !is_wanted(want, kinds[height - 1]) {
            return None;
        }
        height -= 1;
    }
    Some(height)
}

// The height below the wanted values, None where they are not on top.
fn below_wanted(kinds: &[Kind], wants: Wants) -> Option<usize>
    ensures left { option_map (λ height. reverse (take height kinds.now)) result ≡ take_kinds (wants_of wants) (reverse kinds.now) }
    ensures small { IfSome result (λ height. height ≤ length kinds.now) }
{
    let Some(height) = below_copies(kinds, wants.want, wants.count) else {
        return None;
    };
    if wants.numbered {
        below_copies(&kinds[..height], Want::Of(Kind::Number), 1)
    } else {
        Some(height)
    }
}

impl Kinds {
    /// No values.
    pub fn new() -> Self
        ensures { result ≡ [] }
    {
        Kinds {
            items: [Kind::Number; 4096],
            height: 0,
        }
    }

    pub fn height(&self) -> u32
        ensures value { result ≡ length self.now }
        ensures small { result ≤ 4096 }
    {
        self.height
    }

    pub fn push(&mut self, kind: Kind)
        requires { length self.old < 4096 }
        ensures { self.new ≡ kind ∷ self.old }
    {
        self.items[self.height as usize] = kind;
        self.height += 1;
    }

    /// Takes the values above a height.
    pub fn cut(&mut self, height: u32)
        requires { height ≤ length self.old }
        ensures { self.new ≡ down_to height self.old }
    {
        self.height = height;
    }

    /// The height below the wanted values, None where they are not on top.
    pub fn below_wants(&self, wants: Wants) -> Option<u32>
        ensures left { option_map (λ height. down_to height self.now) result ≡ take_kinds (wants_of wants) self.now }
        ensures small { IfSome result (λ height. height ≤ length self.now) }
    {
        match below_wanted(&self.items[..self.height as usize], wants) {
            Some(height) => Some(height as u32),
            None => None,
        }
    }

    pub fn top(&self) -> Option<Kind>
        ensures { result ≡ slice_get self.now 0 }
    {
        if self.height == 0 {
            None
        } else {
            Some(self.items[self.height as usize - 1])
        }
    }
}

/// The open blocks.
#[derive(Drop)]
pub struct Blocks {
    items: ArrayVec<Block, 1024>,
}

impl Model for Blocks {
    ghost use Rattle.std.specs.Prelude.{List, reverse};
    ghost use Rattle.yr_machine.specs.declared.block.Block.{Block};

    ghost Value = { List Block };

    ghost view = { λ s. reverse s.items.items };
}

impl Blocks {
    /// No blocks.
    pub fn new() -> Self
        ensures { result ≡ [] }
    {
        Blocks {
            items: ArrayVec::new(),
        }
    }

    pub fn count(&self) -> usize
        ensures value { result ≡ length self.now }
        ensures small { result ≤ 1024 }
    {
        self.items.as_slice().len()
    }

    pub fn push(&mut self, block: Block)
        requires { length self.old < 1024 }
        ensures { self.new ≡ block ∷ self.old }
    {
        self.items.push(block);
    }

    pub fn pop(&mut self) -> Option<Block>
        ensures popped { self.old ≡ popped result self.new }
        ensures emptied { result ≡ None → self.new ≡ [] }
    {
        self.items.pop()
    }

    pub fn top(&self) -> Option<Block>
        ensures { result ≡ slice_get self.now 0 }
    {
        let items = self.items.as_slice();
        if items.is_empty() {
            None
        } else {
            Some(items[items.len() - 1])
        }
    }

    /// Closes all blocks.
    pub fn clear(&mut self)
        ensures { self.new ≡ [] }
    {
        self.items.clear();
    }
}

/// The open loops: whether each is over strings.
#[derive(Drop)]
pub struct Loops {
    items: ArrayVec<bool, 4>,
}

impl Model for Loops {
    ghost use Rattle.std.specs.Prelude.{List, Bool, reverse};

    ghost Value = { List Bool };

    ghost view = { λ s. reverse s.items.items };
}

impl Loops {
    /// No loops.
    pub fn new() -> Self
        ensures { result ≡ [] }
    {
        Loops {
            items: ArrayVec::new(),
        }
    }

    pub fn count(&self) -> usize
        ensures value { result ≡ length self.now }
        ensures small { result ≤ 4 }
    {
        self.items.as_slice().len()
    }

    pub fn push(&mut self, strings: bool)
        requires { length self.old < 4 }
        ensures { self.new ≡ strings ∷ self.old }
    {
        self.items.push(strings);
    }

    pub fn pop(&mut self) -> Option<bool>
        ensures popped { self.old ≡ popped result self.new }
        ensures emptied { result ≡ None → self.new ≡ [] }
    {
        self.items.pop()
    }

    /// Whether there is a loop of a number, counted from the outermost, and it is over strings or not, as asked.
    pub fn has(&self, strings: bool, c: u32) -> bool
        ensures { result ≡ is_loop strings self.now c }
    {
        let items = self.items.as_slice();
        (c as usize) < items.len() && items[c as usize] == strings
    }

    /// Closes all loops.
    pub fn clear(&mut self)
        ensures { self.new ≡ [] }
    {
        self.items.clear();
    }
}
