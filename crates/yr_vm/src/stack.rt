//! The stack of values, which takes no memory.

ghost use Rattle.std.specs.Prelude.{◌≡◌, ◌+◌, ◌<◌, ◌≤◌, [], ◌∷◌, length, map, take, drop, reverse};
ghost use Rattle.yr_values.specs.Values.{shown};

use std::marker::Model;
use yr_base::Value;

/// The most values that stand on the stack.
const MOST_VALUES: usize = 4096;

/// Values, seen as the list from the top of the stack down.
#[derive(Drop)]
pub struct Stack<'a> {
    items: [Value<'a>; MOST_VALUES],
    len: usize,
}

impl<'a> Model for Stack<'a> {
    ghost use Rattle.std.specs.Prelude.{List, ◌≡◌, ◌≤◌, length, map, take, reverse};
    ghost use Rattle.yr_values.specs.Values.{Value as PlainValue, shown};

    ghost Value = { List PlainValue };

    ghost view = { λ s. reverse (map shown (take s.len s.items)) };

    ghost invariant = { λ s. (s.len ≤ 4096) × (length s.items ≡ 4096) };
}

impl<'a> Stack<'a> {
    /// A stack with no value.
    pub fn new() -> Stack<'a>
        ensures { result ≡ [] }
    {
        Stack {
            items: [Value::Undefined; MOST_VALUES],
            len: 0,
        }
    }

    /// No value any more. It costs nothing for the room.
    #[inline]
    pub fn clear(&mut self)
        ensures { self.new ≡ [] }
    {
        self.len = 0;
    }

    /// The value on top.
    #[inline]
    pub fn one(&self) -> &Value<'a>
        requires { 1 ≤ length self.now }
        ensures operand { take 1 self.now ≡ shown result.now ∷ [] }
        ensures room { length self.now ≤ 4096 }
    {
        let items = &self.items[..];
        &items[self.len - 1]
    }

    /// The two values on top, the lower one first.
    #[inline]
    pub fn two(&self) -> (&Value<'a>, &Value<'a>)
        requires { 2 ≤ length self.now }
        ensures operands { take 2 self.now ≡ shown result.1.now ∷ shown result.0.now ∷ [] }
        ensures room { length self.now ≤ 4096 }
    {
        let items = &self.items[..];
        (&items[self.len - 2], &items[self.len - 1])
    }

    /// The value below so many on top.
    #[inline]
    pub fn below(&self, depth: usize) -> &Value<'a>
        requires { depth < length self.now }
        ensures { take 1 (drop depth self.now) ≡ shown result.now ∷ [] }
    {
        let items = &self.items[..];
        &items[self.len - 1 - depth]
    }

    /// So many values on top, the lowest first.
    #[inline]
    pub fn top(&self, count: usize) -> &[Value<'a>]
        requires { count ≤ length self.now }
        ensures { map shown result.now ≡ reverse (take count self.now) }
    {
        &self.items[self.len - count..self.len]
    }

    /// Takes so many values away, or all where there are fewer.
    #[inline]
    pub fn shorten(&mut self, taken: usize)
        ensures { self.new ≡ drop taken self.old }
    {
        self.len = self.len.saturating_sub(taken);
    }

    /// A value in place of so many on top.
    #[inline]
    pub fn put(&mut self, taken: usize, value: Value<'a>)
        requires there { taken ≤ length self.old }
        requires room { length self.old < 4096 + taken }
        ensures { self.new ≡ shown value.entry ∷ drop taken self.old }
    {
        let place = self.len - taken;
        let items = &mut self.items[..];
        items[place] = value;
        self.len = place + 1;
    }
}
