//! Parts of an expression: a pattern, and what is bad or greedy in it. Places go by the bytes that are left, so that what stands first has the most.

ghost use Rattle.std.specs.Prelude.{◌≡◌, IfOk};
ghost use Rattle.yr_pattern.specs.Set.{bytes_of};
ghost use Rattle.yr_pattern.specs.Tree.{tree_of};
ghost use Rattle.yr_regex.specs.Meaning as meaning;
ghost use Rattle.yr_regex.specs.Parts.{bytes_read, marks_of, part_of, parts_of};
ghost use Rattle.yr_regex.specs.Reading as spec;

use crate::bounds::Bounds;
use crate::class::{Bytes, first_of};
use std::alloc::{AllocError, Global};
use yr_pattern::{ByteSet, Pattern};

/// The first bad place, and whether a quantifier with a `?`, and one without, stands there.
#[derive(Clone, Copy)]
pub struct Marks {
    pub bad: Option<usize>,
    pub lazy: bool,
    pub eager: bool,
}

/// A pattern and what is marked in it.
#[derive(Drop)]
pub struct Part {
    pub pattern: Pattern,
    pub marks: Marks,
}

/// Patterns and what is marked in them.
#[derive(Drop)]
pub struct Parts {
    patterns: Vec<Pattern>,
    marks: Marks,
}

impl Marks {
    fn none() -> Marks
        ensures { marks_of result ≡ spec.no_marks }
    {
        Marks {
            bad: None,
            lazy: false,
            eager: false,
        }
    }

    fn and(&self, other: &Marks) -> Marks
        ensures { marks_of result ≡ spec.both (marks_of self.now) (marks_of other.now) }
    {
        Marks {
            bad: first_of(self.bad, other.bad),
            lazy: self.lazy || other.lazy,
            eager: self.eager || other.eager,
        }
    }

    fn of_quantifier(left: usize, bounds: Bounds, lazy: bool) -> Marks
        ensures { marks_of result ≡ spec.quantifier_marks left bounds lazy }
    {
        Marks {
            bad: if bounds.are_allowed() {
                None
            } else {
                Some(left)
            },
            lazy: !bounds.exact && lazy,
            eager: !bounds.exact && !lazy,
        }
    }
}

/// Closed under letter case where case is ignored.
fn cased(nocase: bool, set: ByteSet) -> ByteSet
    ensures { bytes_of result ≡ meaning.cased nocase (bytes_of set) }
{
    if nocase { set.fold() } else { set }
}

fn class_set(nocase: bool, negated: bool, set: ByteSet) -> ByteSet
    ensures { bytes_of result ≡ meaning.class_bytes nocase negated (bytes_of set) }
{
    let closed = cased(nocase, set);
    if negated { closed.complement() } else { closed }
}

fn dot_set(dot_all: bool) -> ByteSet
    ensures { bytes_of result ≡ meaning.dot_bytes dot_all }
{
    if dot_all {
        ByteSet::none().complement()
    } else {
        ByteSet::one(b'\n').complement()
    }
}

impl Part {
    /// An anchor.
    pub fn plain(pattern: Pattern) -> Part
        ensures { part_of result ≡ spec.plain (tree_of pattern) }
    {
        Part {
            pattern,
            marks: Marks::none(),
        }
    }

    pub fn set(set: ByteSet) -> Part
        ensures { part_of result ≡ spec.set_part (bytes_of set) }
    {
        Part {
            pattern: Pattern::One(set),
            marks: Marks::none(),
        }
    }

    pub fn byte(nocase: bool, b: u8) -> Part
        ensures { part_of result ≡ spec.byte_part nocase b }
    {
        Part::set(cased(nocase, ByteSet::one(b)))
    }

    pub fn dot(dot_all: bool) -> Part
        ensures { part_of result ≡ spec.set_part (meaning.dot_bytes dot_all) }
    {
        Part::set(dot_set(dot_all))
    }

    pub fn class(nocase: bool, negated: bool, bytes: Bytes) -> Part
        ensures { part_of result ≡ spec.class_part nocase negated (bytes_read bytes) }
    {
        Part {
            pattern: Pattern::One(class_set(nocase, negated, bytes.set)),
            marks: Marks {
                bad: bytes.bad,
                lazy: false,
                eager: false,
            },
        }
    }

    /// As often as a quantifier says at which so many bytes are left.
    pub fn repeated(
        self,
        alloc: Global,
        left: usize,
        bounds: Bounds,
        lazy: bool,
    ) -> Result<Part, AllocError>
        ensures { IfOk result (λ p. part_of p ≡ spec.repeated (part_of self) left bounds lazy) }
    {
        let Part { pattern, marks } = self;
        let inner = Box::new(alloc, pattern)?;
        Ok(Part {
            pattern: Pattern::Rep {
                inner,
                min: bounds.least,
                max: bounds.most,
            },
            marks: marks.and(&Marks::of_quantifier(left, bounds, lazy)),
        })
    }
}

impl Parts {
    pub fn new(alloc: Global) -> Parts
        ensures { parts_of result ≡ spec.nothing }
    {
        Parts {
            patterns: Vec::new(alloc),
            marks: Marks::none(),
        }
    }

    pub fn of(alloc: Global, first: Part) -> Result<Parts, AllocError>
        ensures { IfOk result (λ l. parts_of l ≡ spec.single (part_of first)) }
    {
        let Part { pattern, marks } = first;
        let mut patterns = Vec::new(alloc);
        patterns.push(pattern)?;
        Ok(Parts { patterns, marks })
    }

    /// One more part.
    pub fn push(&mut self, part: Part) -> Result<(), AllocError>
        ensures { IfOk result (λ _. parts_of self.new ≡ spec.push (parts_of self.old) (part_of part)) }
    {
        let Part { pattern, marks } = part;
        self.marks = self.marks.and(&marks);
        self.patterns.push(pattern)?;
        Ok(())
    }

    /// The parts one after the other.
    pub fn sequence(self) -> Part
        ensures { part_of result ≡ spec.sequence (parts_of self) }
    {
        let Parts { patterns, marks } = self;
        if patterns.is_empty() {
            return Part {
                pattern: Pattern::Empty,
                marks,
            };
        }
        Part {
            pattern: Pattern::Seq(patterns),
            marks,
        }
    }

    /// One of the parts.
    pub fn choice(self) -> Part
        ensures { part_of result ≡ spec.choice (parts_of self) }
    {
        let Parts { patterns, marks } = self;
        Part {
            pattern: Pattern::Alt(patterns),
            marks,
        }
    }
}
