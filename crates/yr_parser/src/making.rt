//! Conditions and their parts, made from what was read.

ghost use Rattle.std.specs.Prelude.{◌≡◌, [], ◌∷◌, map, Some, IfOk, option_map};
ghost use Rattle.yr_parser.specs.Reading as reading;
ghost use Rattle.yr_syntax.specs.Condition as tree;

use std::alloc::Global;
use yr_base::NoMemory;
use yr_syntax::{
    Cond, Infix, Link, Over, PathStep, Place, PrefixOp, Quant, Range, Reader, RegexText, SetRef,
};

#[tactic(auto, using(crate::proofs::TreeRules::made_prefix))]
pub fn prefix(alloc: Global, op: PrefixOp, inner: Cond) -> Result<Cond, NoMemory>
    ensures { IfOk result (λ c. tree.tree_of c ≡ tree.Prefix op (tree.tree_of inner)) }
{
    Ok(Cond::Prefix {
        op,
        inner: Box::new(alloc, inner)?,
    })
}

#[tactic(auto, using(crate::proofs::TreeRules::made_chain))]
pub fn chain(alloc: Global, first: Cond, rest: Vec<Link>) -> Result<Cond, NoMemory>
    ensures { IfOk result (λ c. tree.tree_of c ≡ reading.chain_of (tree.tree_of first) (map tree.link_of rest.items)) }
{
    if rest.is_empty() {
        return Ok(first);
    }
    Ok(Cond::Chain {
        first: Box::new(alloc, first)?,
        rest,
    })
}

#[tactic(auto, using(crate::proofs::TreeRules::made_chain))]
pub fn pair(alloc: Global, first: Cond, link: Option<Link>) -> Result<Cond, NoMemory>
    ensures { IfOk result (λ c. tree.tree_of c ≡ reading.pair_of (tree.tree_of first) (option_map tree.link_of link)) }
{
    let Some(link) = link else {
        return Ok(first);
    };
    let mut rest = Vec::new(alloc);
    rest.push(link)?;
    Ok(Cond::Chain {
        first: Box::new(alloc, first)?,
        rest,
    })
}

#[tactic(auto, using(crate::proofs::TreeRules::made_matches))]
pub fn matches(alloc: Global, text: Cond, regex: RegexText) -> Result<Cond, NoMemory>
    ensures { IfOk result (λ c. tree.tree_of c ≡ tree.Matches (tree.tree_of text) (tree.regex_of regex)) }
{
    Ok(Cond::Matches {
        text: Box::new(alloc, text)?,
        regex,
    })
}

#[tactic(auto, using(crate::proofs::TreeRules::bounds_of_made))]
pub fn range(alloc: Global, low: Cond, high: Cond) -> Result<Range, NoMemory>
    ensures { IfOk result (λ r. tree.bounds_of r ≡ record { low = tree.tree_of low; high = tree.tree_of high }) }
{
    Ok(Range {
        low: Box::new(alloc, low)?,
        high: Box::new(alloc, high)?,
    })
}

#[tactic(auto, using(crate::proofs::TreeRules::made_read))]
pub fn read(alloc: Global, reader: Reader, at: Cond) -> Result<Cond, NoMemory>
    ensures { IfOk result (λ c. tree.tree_of c ≡ tree.Read reader (tree.tree_of at)) }
{
    Ok(Cond::Read {
        reader,
        at: Box::new(alloc, at)?,
    })
}

#[tactic(auto, using(crate::proofs::TreeRules::made_count))]
pub fn count(name: Vec<u8>, range: Option<Range>) -> Cond
    ensures { tree.tree_of result ≡ tree.count_of name.items (option_map tree.bounds_of range) }
{
    Cond::Count { name, range }
}

#[tactic(auto, using(crate::proofs::TreeRules::made_offsetat))]
pub fn offset_at(alloc: Global, name: Vec<u8>, index: Cond) -> Result<Cond, NoMemory>
    ensures { IfOk result (λ c. tree.tree_of c ≡ tree.OffsetAt name.items (tree.tree_of index)) }
{
    Ok(Cond::Offset {
        name,
        index: Some(Box::new(alloc, index)?),
    })
}

#[tactic(auto, using(crate::proofs::TreeRules::made_offset))]
pub fn offset(name: Vec<u8>) -> Cond
    ensures { tree.tree_of result ≡ tree.Offset name.items }
{
    Cond::Offset { name, index: None }
}

#[tactic(auto, using(crate::proofs::TreeRules::made_lengthat))]
pub fn length_at(alloc: Global, name: Vec<u8>, index: Cond) -> Result<Cond, NoMemory>
    ensures { IfOk result (λ c. tree.tree_of c ≡ tree.LengthAt name.items (tree.tree_of index)) }
{
    Ok(Cond::Length {
        name,
        index: Some(Box::new(alloc, index)?),
    })
}

#[tactic(auto, using(crate::proofs::TreeRules::made_length))]
pub fn length(name: Vec<u8>) -> Cond
    ensures { tree.tree_of result ≡ tree.Length name.items }
{
    Cond::Length { name, index: None }
}

#[tactic(auto, using(crate::proofs::TreeRules::made_number))]
pub fn number(value: i64) -> Cond
    ensures { tree.tree_of result ≡ tree.Number value }
{
    Cond::Number(value)
}

#[tactic(auto, using(crate::proofs::TreeRules::made_text))]
pub fn text(text: Vec<u8>) -> Cond
    ensures { tree.tree_of result ≡ tree.Text text.items }
{
    Cond::Text(text)
}

#[tactic(auto, using(crate::proofs::TreeRules::made_flag))]
pub fn flag(value: bool) -> Cond
    ensures { tree.tree_of result ≡ tree.Flag value }
{
    Cond::Flag(value)
}

#[tactic(auto, using(crate::proofs::TreeRules::made_filesize))]
pub fn file_size() -> Cond
    ensures { tree.tree_of result ≡ tree.FileSize }
{
    Cond::FileSize
}

#[tactic(auto, using(crate::proofs::TreeRules::made_path))]
pub fn path(steps: Vec<PathStep>) -> Cond
    ensures { tree.tree_of result ≡ tree.Path (tree.steps_of (map tree.step_of steps.items)) }
{
    Cond::Path(steps)
}

#[tactic(auto, using(crate::proofs::TreeRules::made_found))]
pub fn found(name: Vec<u8>, place: Place) -> Cond
    ensures { tree.tree_of result ≡ tree.Found name.items (tree.where_of place) }
{
    Cond::Found { name, place }
}

#[tactic(auto, using(crate::proofs::TreeRules::made_of))]
pub fn of(quant: Quant, set: SetRef, place: Place) -> Cond
    ensures { tree.tree_of result ≡ tree.Of (tree.asked_of quant) (tree.set_of set) (tree.where_of place) }
{
    Cond::Of { quant, set, place }
}

#[tactic(auto, using(crate::proofs::TreeRules::made_forof))]
pub fn for_of(alloc: Global, quant: Quant, set: SetRef, body: Cond) -> Result<Cond, NoMemory>
    ensures { IfOk result (λ c. tree.tree_of c ≡ tree.ForOf (tree.asked_of quant) (tree.set_of set) (tree.tree_of body)) }
{
    Ok(Cond::ForOf {
        quant,
        set,
        body: Box::new(alloc, body)?,
    })
}

#[tactic(auto, using(crate::proofs::TreeRules::made_forin))]
pub fn for_in(
    alloc: Global,
    quant: Quant,
    name: Vec<u8>,
    over: Over,
    body: Cond,
) -> Result<Cond, NoMemory>
    ensures { IfOk result (λ c. tree.tree_of c ≡ tree.ForIn (tree.asked_of quant) name.items (tree.domain_of over) (tree.tree_of body)) }
{
    Ok(Cond::ForIn {
        quant,
        name,
        over,
        body: Box::new(alloc, body)?,
    })
}

#[tactic(auto, using(crate::proofs::TreeRules::asked_all))]
pub fn all() -> Quant
    ensures { tree.asked_of result ≡ tree.All }
{
    Quant::All
}

#[tactic(auto, using(crate::proofs::TreeRules::asked_any))]
pub fn any() -> Quant
    ensures { tree.asked_of result ≡ tree.Any }
{
    Quant::Any
}

#[tactic(auto, using(crate::proofs::TreeRules::asked_nil))]
pub fn nil() -> Quant
    ensures { tree.asked_of result ≡ tree.Nil }
{
    Quant::Nil
}

#[tactic(auto, using(crate::proofs::TreeRules::asked_number))]
pub fn at_least(alloc: Global, count: Cond) -> Result<Quant, NoMemory>
    ensures { IfOk result (λ q. tree.asked_of q ≡ tree.AtLeast (tree.tree_of count)) }
{
    Ok(Quant::Number(Box::new(alloc, count)?))
}

#[tactic(auto, using(crate::proofs::TreeRules::asked_percent))]
pub fn percent(alloc: Global, count: Cond) -> Result<Quant, NoMemory>
    ensures { IfOk result (λ q. tree.asked_of q ≡ tree.Percent (tree.tree_of count)) }
{
    Ok(Quant::Percent(Box::new(alloc, count)?))
}

#[tactic(auto, using(crate::proofs::TreeRules::placed_anywhere))]
pub fn anywhere() -> Place
    ensures { tree.where_of result ≡ tree.Anywhere }
{
    Place::Anywhere
}

#[tactic(auto, using(crate::proofs::TreeRules::placed_at))]
pub fn at(alloc: Global, place: Cond) -> Result<Place, NoMemory>
    ensures { IfOk result (λ p. tree.where_of p ≡ tree.At (tree.tree_of place)) }
{
    Ok(Place::At(Box::new(alloc, place)?))
}

#[tactic(auto, using(crate::proofs::TreeRules::placed_within))]
pub fn within(range: Range) -> Place
    ensures { tree.where_of result ≡ tree.Within (tree.bounds_of range).low (tree.bounds_of range).high }
{
    Place::Within(range)
}

#[tactic(auto, using(crate::proofs::TreeRules::over_range))]
pub fn over_range(range: Range) -> Over
    ensures { tree.domain_of result ≡ tree.OverRange (tree.bounds_of range).low (tree.bounds_of range).high }
{
    Over::Range(range)
}

#[tactic(auto, using(crate::proofs::TreeRules::over_list))]
pub fn over_list(items: Vec<Cond>) -> Over
    ensures { tree.domain_of result ≡ tree.OverList (tree.items_of (map tree.tree_of items.items)) }
{
    Over::List(items)
}

#[tactic(auto, using(crate::proofs::TreeRules::over_path))]
pub fn over_path(steps: Vec<PathStep>) -> Over
    ensures { tree.domain_of result ≡ tree.OverPath (tree.steps_of (map tree.step_of steps.items)) }
{
    Over::Path(steps)
}

#[tactic(auto, using(crate::proofs::TreeRules::step_name))]
pub fn name_step(name: Vec<u8>) -> PathStep
    ensures { tree.step_of result ≡ tree.Name name.items }
{
    PathStep::Name(name)
}

#[tactic(auto, using(crate::proofs::TreeRules::step_index))]
pub fn index_step(index: Cond) -> PathStep
    ensures { tree.step_of result ≡ tree.Index (tree.tree_of index) }
{
    PathStep::Index(index)
}

#[tactic(auto, using(crate::proofs::TreeRules::step_call))]
pub fn call_step(arguments: Vec<Cond>) -> PathStep
    ensures { tree.step_of result ≡ tree.Call (map tree.tree_of arguments.items) }
{
    PathStep::Call(arguments)
}

#[tactic(auto, using(crate::proofs::TreeRules::link_of_made))]
pub fn link(op: Infix, operand: Cond) -> Link
    ensures { tree.link_of result ≡ record { op = op; operand = tree.tree_of operand } }
{
    Link { op, operand }
}
