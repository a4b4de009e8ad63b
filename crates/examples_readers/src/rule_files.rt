//! Conditions and declarations, read from the text of rule files.

use std::alloc::{AllocError, Global};
use std::test::Fail;
use yr_base::MemoryStore;
use yr_lexer::gather;
use yr_parser::{ParseFault, parse};
use yr_syntax::{Cond, Decl, Over, Quant, SetRef};

const SAMPLE: &str = r##"import "elf"
rule Sample_Loader : linux loader {
  meta:
    author = "analyst"
    date = "2024-05-01"
    score = -80
  strings:
    $s1 = "/bin/sh" fullword
    $s2 = "LD_PRELOAD" wide ascii nocase
    $s3 = "ptrace" xor(1-0x7f) private
    $s4 = "/etc/shadow"
    $s5 = "socket" xor
    $s6 = "cmd.exe" base64
    $s7 = /https?:\/\/[a-z0-9.]{3,40}\/[a-z]{1,20}/si
    $s8 = "elf_loader" fullword ascii
    $ = /anonymous/is
    $h1 = { 48 31 C? ( 0F 05 | CD 80 ) }
    $h2 = { 7F 45 4C 46 [12-20] ~02 }
  condition:
    uint32(0) == 0x464c457f and filesize < 5MB
    and elf.machine == elf.EM_X86_64
    and (2 of ($s*) or any of ($h*))
    and for any s in elf.sections : ( s.name == ".text" )
}
"##;

fn quant_name(quant: &Quant) -> &'static str {
    match quant {
        Quant::All => "all",
        Quant::Any => "any",
        Quant::Nil => "none",
        Quant::Number(_) => "number",
        Quant::Percent(_) => "percent",
    }
}

fn set_name(set: &SetRef) -> &'static str {
    match set {
        SetRef::Them => "them",
        SetRef::Strings(_) => "strings",
        SetRef::Rules(_) => "rules",
    }
}

fn over_name(over: &Over) -> &'static str {
    match over {
        Over::Range(_) => "range",
        Over::List(_) => "list",
        Over::Path(_) => "path",
    }
}

/// What stands at the top of a condition, with a number of its parts.
fn form(alloc: Global, condition: &Cond) -> Result<String, AllocError> {
    match condition {
        Cond::Number(n) => format!(in alloc; "number {n}"),
        Cond::Text(text) => format!(in alloc; "text of {}", text.len()),
        Cond::Flag(flag) => format!(in alloc; "{flag}"),
        Cond::FileSize => format!(in alloc; "filesize"),
        Cond::Path(steps) => format!(in alloc; "path of {}", steps.len()),
        Cond::Found { name, .. } => format!(in alloc; "found, {} bytes", name.len()),
        Cond::Count { range, .. } => format!(in alloc; "count, {}", range.is_some()),
        Cond::Offset { index, .. } => format!(in alloc; "offset, {}", index.is_some()),
        Cond::Length { index, .. } => format!(in alloc; "length, {}", index.is_some()),
        Cond::Read { .. } => format!(in alloc; "read"),
        Cond::Prefix { .. } => format!(in alloc; "prefix"),
        Cond::Chain { rest, .. } => format!(in alloc; "chain of {}", rest.len()),
        Cond::Matches { .. } => format!(in alloc; "matches"),
        Cond::Of { quant, set, .. } => {
            format!(in alloc; "{} of {}", quant_name(quant), set_name(set))
        }
        Cond::ForOf { quant, set, .. } => {
            format!(in alloc; "for {} of {}", quant_name(quant), set_name(set))
        }
        Cond::ForIn { quant, over, .. } => {
            format!(in alloc; "for {} in {}", quant_name(quant), over_name(over))
        }
    }
}

/// The number of declarations, and what the last one has.
fn shown(alloc: Global, declarations: &[Decl]) -> Result<String, AllocError> {
    let count = declarations.len();
    match declarations.last() {
        Some(Decl::Rule(rule)) => {
            let told = form(alloc, &rule.condition)?;
            let (tags, meta, strings) = (rule.tags.len(), rule.meta.len(), rule.strings.len());
            format!(in alloc; "{count}: {tags} {meta} {strings} {told}")
        }
        Some(Decl::Import { line, .. }) => format!(in alloc; "{count}: import in {line}"),
        None => format!(in alloc; "0"),
    }
}

fn outcome(alloc: Global, text: &str) -> Result<String, Fail> {
    let mut store = MemoryStore::new(alloc)?;
    store.add(alloc, "a", text.as_bytes())?;
    let Ok(gathered) = gather(alloc, &mut store, "a") else {
        return Ok(format!(in alloc; "no tokens")?);
    };
    let told = match parse(alloc, &gathered) {
        Ok(declarations) => shown(alloc, declarations.as_slice()),
        Err(
            ParseFault::Syntax {
                declaration,
                line,
                ..
            },
        ) => format!(in alloc; "syntax {declaration} in {line}"),
        Err(
            ParseFault::TooDeep {
                declaration,
                line,
                ..
            },
        ) => format!(in alloc; "too deep {declaration} in {line}"),
        Err(ParseFault::NoMemory) => format!(in alloc; "no memory"),
    };
    Ok(told?)
}

/// `true` among so many of the two texts.
fn nested(alloc: Global, open: &str, close: &str, times: usize) -> Result<String, AllocError> {
    let mut text = String::from_str(alloc, "rule r { condition: ")?;
    for _ in 0..times {
        text.push_str(open)?;
    }
    text.push_str("true")?;
    for _ in 0..times {
        text.push_str(close)?;
    }
    text.push_str(" }")?;
    Ok(text)
}

#[test]
fn conditions_have_their_forms(rt: HostRuntime) -> Result<(), Fail> {
    let alloc = rt.alloc();
    for (condition, wanted) in [
        ("0x10", "number 16"),
        ("\"a\\x62\" == \"ab\"", "chain of 1"),
        ("true", "true"),
        ("filesize", "filesize"),
        ("pe.sections[1].size(2, a)", "path of 5"),
        ("$abc at 5", "found, 3 bytes"),
        ("$ in (0..filesize)", "found, 0 bytes"),
        ("#a", "count, false"),
        ("#a in (1..2)", "count, true"),
        ("@a", "offset, false"),
        ("@a[2]", "offset, true"),
        ("!a[2]", "length, true"),
        ("uint16be(0) == 1", "chain of 1"),
        ("int8(3)", "read"),
        ("not -1", "prefix"),
        ("1 + 2 - 3", "chain of 2"),
        ("a or b and c or d", "chain of 2"),
        ("((a))", "path of 1"),
        ("a.b matches /x/i", "matches"),
        ("all of them", "all of them"),
        ("any of ($a*, $b)", "any of strings"),
        ("none of (p*, q)", "none of rules"),
        ("3 of them in (0..9)", "number of them"),
        ("50% of them", "percent of them"),
        ("50 % 2", "chain of 1"),
        ("for all of them : ( $ )", "for all of them"),
        ("for any i in (1..3) : ( i )", "for any in range"),
        ("for 2 i in (1, 2, 3) : ( i )", "for number in list"),
        ("for none s in elf.sections : ( s )", "for none in path"),
    ] {
        let text = format!(in alloc; "rule r {{ condition: {condition} }}")?;
        let wanted = format!(in alloc; "1: 0 0 0 {wanted}")?;
        let got = outcome(alloc, text.as_str())?;
        assert_eq!(rt; got.as_str(), wanted.as_str(), "{condition}");
    }
    for condition in [
        "",
        "50% 2 of them",
        "1 + 1 of them",
        "$a == 1",
        "1 < 2 < 3",
        "1 == 2 == 3",
        "for 50% of them : ( $ )",
        "()",
        "a b",
    ] {
        let text = format!(in alloc; "\nrule r {{ condition: {condition} }}")?;
        let got = outcome(alloc, text.as_str())?;
        assert_eq!(rt; got.as_str(), "syntax 1 in 2", "{condition}");
    }
    Ok(())
}

#[test]
fn declarations_are_read_up_to_their_faults(rt: HostRuntime) -> Result<(), Fail> {
    let alloc = rt.alloc();
    for (text, wanted) in [
        ("", "0"),
        ("import \"a\"\nimport \"b\"", "2: import in 2"),
        (SAMPLE, "2: 2 3 11 chain of 4"),
        (
            "global private rule r { condition: false }",
            "1: 0 0 0 false",
        ),
        (
            "private global rule r : t { condition: 1 }",
            "1: 1 0 0 number 1",
        ),
        ("private private rule r { condition: 1 }", "syntax 1 in 1"),
        ("import \"a\"\n\nrule r { condition: } ", "syntax 2 in 3"),
        ("rule a { condition: 1 } }", "syntax 2 in 1"),
        ("rule a { condition: }", "syntax 1 in 1"),
        ("rule a { condition: 1.5 }", "no tokens"),
        ("rule a { meta: condition: 1 }", "syntax 1 in 1"),
    ] {
        let got = outcome(alloc, text)?;
        assert_eq!(rt; got.as_str(), wanted, "{text}");
    }
    for (open, close, times, wanted) in [
        ("(", ")", 64, "1: 0 0 0 true"),
        ("(", ")", 65, "too deep 1 in 1"),
        ("not ", "", 64, "1: 0 0 0 prefix"),
        ("not ", "", 65, "too deep 1 in 1"),
        ("not (", ")", 64, "1: 0 0 0 prefix"),
    ] {
        let text = nested(alloc, open, close, times)?;
        let got = outcome(alloc, text.as_str())?;
        assert_eq!(rt; got.as_str(), wanted, "{times} of {open}");
    }
    let rule = nested(alloc, "(", ")", 65)?;
    let after = format!(in alloc; "\nimport \"elf\"\n{rule}")?;
    let got = outcome(alloc, after.as_str())?;
    assert_eq!(rt; got.as_str(), "too deep 1 in 2");
    Ok(())
}
