//! How the positionals are split: rule files, the file after them, and values.

ghost use Rattle.std.specs.Prelude.{◌≡◌, ◌≤◌, ◌<◌, ◌+◌, [], length, get_or, take, drop, map, IfOk};
ghost use Rattle.std.specs.Option.{option_map, option_and_then};
ghost use Rattle.yr_words.specs.Values as value;
ghost use Rattle.yr_words.specs.Words as plain;
ghost use Rattle.yr_words.specs.Shown.{lent_words, source_shown, given_shown, with_split};

use crate::command::Source;
use crate::name::is_name;
use crate::value::{Given, given_of};
use std::alloc::Global;
use yr_base::NoMemory;

const MAX_SOURCES: usize = 16;

/// What stands before the first `:`, and what stands after it.
fn halves(word: &str) -> Option<(&str, &str)>
    ensures { option_map (λ p. record { front = p.0.now; back = p.1.now }) result ≡ value.cut_at 58 word.now }
{
    word.split_once(':')
}

fn without_space(word: &str) -> Source<'_>
    ensures { source_shown result ≡ plain.whole_source word.now }
{
    Source {
        space: "default",
        file: word,
    }
}

/// The rule file that a word names.
pub fn source_of(word: &str) -> Option<Source<'_>>
    ensures { option_map source_shown result ≡ plain.source_of word.now }
{
    match halves(word) {
        Some((space, file)) if is_name(space) => {
            if file.is_empty() {
                None
            } else {
                Some(Source { space, file })
            }
        }
        _ => Some(without_space(word)),
    }
}

/// The rule files that words name.
pub fn sources_of<'a>(alloc: Global, words: &[&'a str]) -> Result<Option<Vec<Source<'a>>>, NoMemory>
    ensures { IfOk result (λ o. option_map (λ v. map source_shown v.items) o ≡ plain.sources_of (lent_words words.now)) }
{
    if words.len() > MAX_SOURCES {
        return Ok(None);
    }
    let mut sources = Vec::new(alloc);
    let mut rest = words;
    while let [word, more @ ..] = rest {
        let Some(source) = source_of(word) else {
            return Ok(None);
        };
        sources.push(source)?;
        rest = more;
    }
    Ok(Some(sources))
}

/// The values that words give.
pub fn givens_of<'a>(alloc: Global, words: &[&'a str]) -> Result<Option<Vec<Given<'a>>>, NoMemory>
    ensures { IfOk result (λ o. option_map (λ v. map given_shown v.items) o ≡ plain.each_of value.given_of (lent_words words.now)) }
{
    let mut givens = Vec::new(alloc);
    let mut rest = words;
    while let [word, more @ ..] = rest {
        let Some(given) = given_of(word) else {
            return Ok(None);
        };
        givens.push(given)?;
        rest = more;
    }
    Ok(Some(givens))
}

fn gives(word: &str) -> bool
    ensures { result ≡ value.gives word.now }
{
    given_of(word).is_some()
}

fn gives_at(words: &[&str], k: usize) -> bool
    requires { k < length words.now }
    ensures { result ≡ value.gives (get_or (lent_words words.now) k []) }
{
    gives(words[k])
}

/// Where the longest run of last words begins that all give values.
pub fn first_given(words: &[&str]) -> usize
    ensures within { result ≤ length words.now }
    ensures before { plain.before_givens (lent_words words.now) ≡ take result (lent_words words.now) }
    ensures last { plain.last_givens (lent_words words.now) ≡ drop result (lent_words words.now) }
{
    let mut at = words.len();
    while at > 0 && gives_at(words, at - 1) {
        at -= 1;
    }
    at
}

/// How many words after the first ones stand before the values.
#[tactic(auto, using(crate::proofs::LentLemmas::lent_drop))]
fn words_before_givens(places: &[&str], kept: usize) -> usize
    requires { kept ≤ length places.now }
    ensures within { kept + result ≤ length places.now }
    ensures before { plain.before_givens (drop kept (lent_words places.now)) ≡ take result (drop kept (lent_words places.now)) }
    ensures last { plain.last_givens (drop kept (lent_words places.now)) ≡ drop result (drop kept (lent_words places.now)) }
{
    let (_, rest) = places.split_at(kept);
    first_given(rest)
}

/// The rule files that the first words name.
#[tactic(auto, using(crate::proofs::LentLemmas::lent_take))]
pub fn sources_to<'a>(
    alloc: Global,
    places: &[&'a str],
    end: usize,
) -> Result<Option<Vec<Source<'a>>>, NoMemory>
    requires { end ≤ length places.now }
    ensures { IfOk result (λ o. option_map (λ v. map source_shown v.items) o ≡ plain.sources_of (take end (lent_words places.now))) }
{
    sources_of(alloc, &places[..end])
}

/// The values that the last words give.
#[tactic(auto, using(crate::proofs::LentLemmas::lent_drop))]
pub fn givens_from<'a>(
    alloc: Global,
    places: &[&'a str],
    start: usize,
) -> Result<Option<Vec<Given<'a>>>, NoMemory>
    requires { start ≤ length places.now }
    ensures { IfOk result (λ o. option_map (λ v. map given_shown v.items) o ≡ plain.each_of value.given_of (drop start (lent_words places.now))) }
{
    let (_, rest) = places.split_at(start);
    givens_of(alloc, rest)
}

fn word_at<'a>(places: &[&'a str], k: usize) -> &'a str
    requires { k < length places.now }
    ensures { result.now ≡ get_or (lent_words places.now) k [] }
{
    places[k]
}

/// The parts of the positionals of a command over rule files.
#[derive(Debug, Drop)]
pub struct Split<'a> {
    pub sources: Vec<Source<'a>>,
    /// The file after the rule files.
    pub file: &'a str,
    pub givens: Vec<Given<'a>>,
}

/// Rule files before the file at a place, and values behind it.
fn split_at<'a>(
    alloc: Global,
    places: &[&'a str],
    file: usize,
) -> Result<Option<Split<'a>>, NoMemory>
    requires { file + 1 ≤ length places.now }
    ensures { (command : _) → IfOk result (λ o. option_map (with_split command) o
        ≡ plain.with_sources command (record { sources = take file (lent_words places.now); file = get_or (lent_words places.now) file []; givens = drop (file + 1) (lent_words places.now) })) }
{
    let Some(sources) = sources_to(alloc, places, file)? else {
        return Ok(None);
    };
    let Some(givens) = givens_from(alloc, places, file + 1)? else {
        return Ok(None);
    };
    Ok(Some(Split {
        sources,
        file: word_at(places, file),
        givens,
    }))
}

/// The parts of positionals of which the last before the values is a file, and at least one before it a rule file.
pub fn split_places<'a>(alloc: Global, places: &[&'a str]) -> Result<Option<Split<'a>>, NoMemory>
    ensures { (command : _) → IfOk result (λ o. option_map (with_split command) o ≡ option_and_then (plain.with_sources command) (plain.split_of (lent_words places.now))) }
{
    if places.len() < 2 {
        return Ok(None);
    }
    let more = words_before_givens(places, 2);
    split_at(alloc, places, more + 1)
}

/// Where the values of a command begin that has rule files alone.
pub fn sources_end(places: &[&str]) -> usize
    requires { 1 ≤ length places.now }
    ensures within { result ≤ length places.now }
    ensures check { plain.check_of (lent_words places.now) ≡ plain.check_by (take result (lent_words places.now)) (drop result (lent_words places.now)) }
{
    words_before_givens(places, 1) + 1
}
