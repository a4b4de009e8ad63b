//! Rule files and what is said of them.

ghost use Rattle.std.specs.Prelude.{map};
ghost use Rattle.yr_rules.specs.Rules.{external_of};
ghost use Rattle.yr_checks.specs.Resolving.{AreExternals};

use crate::answers::{answer, externals};
use std::alloc::Global;
use std::test::Fail;
use yr_checks::External;

/// Imports, names of rules, tags and namespaces.
const DECLARATIONS: &str = r#"
    import "math" => 1 UnknownModule 0:1 math;
    rule a { condition: true } import "math" => 1 UnknownModule 0:1 math;
    rule a { condition: 1 == "x" } import "math" => 13 WrongType 0:1 0;
    import "math" rule a { condition: 1 == "x" } => 1 UnknownModule 0:1 math;
    import "elf" rule a { condition: elf.type == elf.ET_EXEC } => 1 0;
    rule a { condition: elf.type == 1 } import "elf" => 13 WrongType 0:1 0;
    rule a { condition: true } rule a { condition: true } => 2 DuplicateRule 0:1 1;
    rule n { condition: true } => 2 DuplicateRule 0:1 0;
    rule a { condition: a } => 12 UnknownName 0:1 0 a;
    rule p1 { condition: true } rule q { condition: any of (p*) } rule p2 { condition: true } => 3 WildcardRule 0:1 2;
    rule p1 { condition: true } rule q { condition: any of (p*) } rule p { condition: true } => 3 WildcardRule 0:1 2;
    private rule p1 { condition: true } rule q { condition: any of (p*) } => 2 0;
    rule q { condition: any of (p*) } => 12 UnknownName 0:1 0 p;
    rule a : x y x y { condition: true } => 4 DuplicateTag 0:1 0 x;
    rule a : y x x y { condition: true } => 4 DuplicateTag 0:1 0 y;
    rule a : x a X { condition: true } => 1 0;
    rule x { condition: true } global rule g { condition: filesize > 10 } => 2 0;
    rule b { condition: true }

        rule a { condition: b and nope } => 12 UnknownName 0:3 1 nope;
    d::rule a { condition: true } && d::rule a { condition: true } => 2 DuplicateRule 1:1 1;
    d::rule a { condition: true } && e::rule a { condition: true } => 2 0;
    d::rule a { condition: true } && d::rule b { condition: a } => 2 0;
    d::rule a { condition: true } && e::rule b { condition: a } => 12 UnknownName 1:1 1 a;
    d::rule a { condition: true } && e::rule b { condition: any of (a) } => 12 UnknownName 1:1 1 a;
    d::rule p { condition: true } rule q { condition: any of (p*) } && e::rule p { condition: true } => 3 0;
    d::rule p { condition: true } rule q { condition: any of (p*) } && d::rule p2 { condition: true } => 3 WildcardRule 1:1 2;
    d::import "elf" && d::rule b { condition: elf.type == 1 } => 1 0;
    d::import "elf" && e::rule b { condition: elf.type == 1 } => 13 WrongType 1:1 0;
    e::rule n { condition: true } => 2 DuplicateRule 0:1 0
"#;

/// Strings: their names, texts, modifiers, expressions and sizes, and whether they are used.
const STRINGS: &str = r#"
    rule a { strings: $a = "x" $a = "y" condition: $a } => 5 DuplicateString 0:1 0 $a;
    rule a { strings: $a = "x" $b = "x" $b = "y" $a = "y" condition: $a } => 5 DuplicateString 0:1 0 $a;
    rule a { strings: $ = "x" $ = "y" condition: all of them } => 1 2;
    rule a { strings: $a = "" $b = "" condition: $b and $a } => 6 EmptyString 0:1 0 $a;
    rule a { strings: $a = "x" nocase xor $b = "x" ascii ascii condition: $a } => 7 BadModifiers 0:1 0 $a;
    rule a { strings: $a = "x" $b = "x" xor(2-1) condition: $a } => 7 BadModifiers 0:1 0 $b;
    rule a { strings: $a = { 0 } condition: $a } => 8 HexSyntax 0:1 0 $a;
    rule x { strings: $a = { 01 [2-] } condition: $a } => 8 HexJump 0:1 0 $a at 4;
    rule x { strings: $a = /a(/ condition: $a } => 9 RegexSyntax 0:1 0 $a;
    rule x { strings: $a = /a{3,2}/ condition: $a } => 9 RegexRange 0:1 0 $a at 1;
    rule x { strings: $a = /a+b*?/ condition: $a } => 9 MixedGreed 0:1 0 $a;
    rule x { condition: "a" matches /a+b*?/ } => 9 MixedGreed 0:1 0 matches;
    rule x { strings: $a = /a(/ condition: "a" matches /a+b*?/ and $a } => 9 RegexSyntax 0:1 0 $a;
    rule x { strings: $a = /(a{300}){300}/ condition: $a } => 10 PatternTooLarge 0:1 0 $a;
    rule x { condition: "a" matches /(a{300}){300}/ } => 10 PatternTooLarge 0:1 0 matches;
    rule x { strings: $a = "|x|65535|" condition: $a } => 1 1;
    rule x { strings: $a = "|x|65536|" condition: $a } => 10 PatternTooLarge 0:1 0 $a;
    rule a { condition: $b or $a } => 11 UnknownString 0:1 0 $b;
    rule a { condition: nope or $a } => 11 UnknownString 0:1 0 $a;
    rule a { condition: for #b of ($c) : ( $d ) } => 11 UnknownString 0:1 0 #b;
    rule a { condition: for any of ($c) : ( $d ) } => 11 UnknownString 0:1 0 $c;
    rule a { strings: $a = "x" condition: #a in (1..@b) == !c } => 11 UnknownString 0:1 0 @b;
    rule a { strings: $a = "x" condition: !a[!b] == @c } => 11 UnknownString 0:1 0 !b;
    rule a { strings: $a = "x" condition: # == 1 or $a } => 11 UnknownString 0:1 0 #;
    rule a { strings: $ = "x" condition: $ } => 11 UnknownString 0:1 0 $;
    rule a { strings: $a = "x" condition: @ == 1 or $a } => 11 UnknownString 0:1 0 @;
    rule a { strings: $a = "x" condition: ! == 1 or $a } => 11 UnknownString 0:1 0 !;
    rule a { strings: $a = "x" condition: for # of them : ( $ ) } => 11 UnknownString 0:1 0 #;
    rule a { strings: $a = "x" condition: for any i in (1..2) : ( @[i] == 1 ) and $a } => 11 UnknownString 0:1 0 @;
    rule a { strings: $a = "x" condition: for any of them : ( # > 0 and @ == 1 and ! == 1 and $ ) } => 1 1;
    rule a { strings: $a = "x" condition: for any of them : ( for any i in (1..#) : ( @[i] == !a[i] and $ at i ) ) } => 1 1;
    rule a { strings: $a = "x" condition: any of ($a, $b*) } => 11 UnknownString 0:1 0 $b*;
    rule a { strings: $a = "x" condition: any of ($a, $) } => 11 UnknownString 0:1 0 $;
    rule a { strings: $ = "x" $ = "y" condition: any of ($) } => 1 2;
    rule a { strings: $a = "x" $ab = "y" condition: all of ($a, $a, $a*, $*) } => 1 2;
    rule a { strings: $a = "x" $b = "y" condition: $a } => 14 UnusedString 0:1 0 $b;
    rule a { strings: $ = "x" condition: true } => 14 UnusedString 0:1 0 $;
    rule a { strings: $a = "x" $_b = "y" condition: $a } => 1 2;
    rule a { strings: $a = "x" $ab = "y" condition: any of ($a) } => 14 UnusedString 0:1 0 $ab;
    rule a { strings: $b = "x" $c = "y" condition: any of ($b*) } => 14 UnusedString 0:1 0 $c;
    rule a { strings: $a = "x" $b = "y" condition: #a in (1..#b) > 0 } => 1 2
"#;

/// Words in conditions, and the kinds of values.
const CONDITIONS: &str = r#"
    rule v { condition: n > 4 and name iequals "ABC" } => 1 0;
    rule v { condition: m > 4 } => 12 UnknownName 0:1 0 m;
    rule x { condition: nope } => 12 UnknownName 0:1 0 nope;
    rule x { condition: for 1 i in (1, 2) : ( i == 2 ) and not ( 1 << 64 == 1 ) } => 1 0;
    rule q { strings: $a = "ab" condition: for all i in (1..#a) : ( @a[i] % 2 == 0 ) } => 1 1;
    rule a { strings: $a = "x" $b = "y" condition: 50% of them and not 0 of them and none of ($b) and -1 of them } => 1 2;
    rule a { condition: not (uint8(filesize) == 0) and not defined uint8(filesize) } => 1 0;
    rule a { condition: 1 == "x" or nope } => 12 UnknownName 0:1 0 nope;
    rule a { condition: for any i in (1..one) : ( two ) } => 12 UnknownName 0:1 0 one;
    import "elf" rule a { condition: elf.sections[elf.one].two == three } => 12 UnknownName 0:1 0 one;
    import "elf" rule a { condition: elf.sections[0].lacks == 1 } => 12 UnknownName 0:1 0 lacks;
    import "elf" rule a { condition: for any s in elf.sections : ( s.lacks == 1 ) } => 12 UnknownName 0:1 0 lacks;
    import "elf" rule a { condition: for any s in elf.sections : ( s.name == ".text" ) } => 1 0;
    import "elf" rule a { condition: elf.sections == 1 } => 13 WrongType 0:1 0;
    import "elf" rule a { condition: elf == 7 } => 13 WrongType 0:1 0;
    rule a { condition: elf == 7 } => 1 0;
    import "elf" rule a { condition: for any elf in (1..2) : ( elf == 1 ) } => 1 0;
    rule a { condition: for any a in (1..2) : ( a == 1 ) } => 1 0;
    rule a { condition: for any i in (1..i) : ( true ) } => 12 UnknownName 0:1 0 i;
    rule a { condition: for any i in (1..2) : ( true ) and i == 1 } => 12 UnknownName 0:1 0 i;
    rule a { condition: for any name in (1..2) : ( name == 1 ) and name == "abc" } => 1 0;
    rule a { condition: for any name in (1..2) : ( name == "abc" ) } => 13 WrongType 0:1 0;
    import "elf" rule a { condition: for any s in elf.sections : ( for any s in (1..2) : ( s == 1 ) and s.name == "x" ) } => 1 0;
    import "elf" rule a { condition: for any s in elf.sections : ( for any s in (1..2) : ( s.name == "x" ) ) } => 13 WrongType 0:1 0;
    import "elf" rule a { condition: for any s in elf.sections : ( s ) } => 13 WrongType 0:1 0;
    rule b { condition: true } rule a { condition: any of (b, b, b*) } => 2 0;
    rule b { condition: true } rule a { condition: for any of (b) : ( true ) } => 13 WrongType 0:1 1;
    rule b { condition: true } rule a { condition: any of (b) at 1 } => 13 WrongType 0:1 1;
    rule a { condition: "a" == 1 } => 13 WrongType 0:1 0;
    rule a { condition: 1 and "a" or not "b" } => 1 0;
    rule a { condition: not -n and ~n < 1 } => 1 0;
    rule a { condition: - - - "a" == 1 } => 13 WrongType 0:1 0;
    rule a { condition: (1 == 1) + 1 == 2 } => 13 WrongType 0:1 0;
    rule a { condition: (1 == 1) == (2 == 2) and "a" < "b" } => 1 0;
    rule a { condition: (1 == 1) < (2 == 2) } => 13 WrongType 0:1 0;
    rule a { condition: 1 contains "a" } => 13 WrongType 0:1 0;
    rule a { condition: 1 matches /a/ } => 13 WrongType 0:1 0;
    rule a { strings: $a = "x" condition: $a at "x" } => 13 WrongType 0:1 0;
    rule a { strings: $a = "x" condition: #a in ("x"..2) == 1 } => 13 WrongType 0:1 0;
    rule a { strings: $a = "x" condition: @a["x"] == 1 } => 13 WrongType 0:1 0;
    rule a { strings: $a = "x" condition: "x" of them } => 13 WrongType 0:1 0;
    rule a { condition: uint8("x") == 1 } => 13 WrongType 0:1 0;
    rule a { condition: for any i in (1, "x") : ( true ) } => 13 WrongType 0:1 0
"#;

/// What rules may have at most.
const LIMITS: &str = r#"
    rule a { condition: |for any i in (1..2) : ( |4| true |)|4| } => 1 0;
    rule a { condition: |for any i in (1..2) : ( |5| true |)|5| } => 15 LoopDepth 0:1 0;
    rule a { strings: $a = "x" condition: |for any of them : ( |5| for any i in (1|, 1|128|) : ( $ ) |)|5| } => 15 LoopDepth 0:1 0;
    rule a { condition: for any i in (1|, @|127|) : ( i == 1 ) } => 1 0;
    rule a { condition: for any i in (1|, @|128|) : ( i == 1 ) } => 16 ListTooLong 0:1 0;
    rule a { strings: |$ = "x" |65535| condition: all of them } => 1 65535;
    rule a { strings: |$ = "x" |65536| condition: all of them } => 17 TooMany 0:1 0;
    rule b { strings: $a = "x" condition: $a } rule a { strings: |$ = "x" |65535| condition: all of them } => 17 TooMany 0:1 1;
    |rule r@ { condition: true } |65535| => 65535 0;
    |rule r@ { condition: true } |65536| => 17 TooMany 0:1 65535;
    rule a { meta: m = "|x|193|" strings: $a = "|y|65471|" xor $b = "|y|65471|" xor condition: any of them } => 1 2;
    rule a { meta: m = "|x|194|" strings: $a = "|y|65471|" xor $b = "|y|65471|" xor condition: any of them } => 18 TooHeavy 0:1 0
"#;

/// Where the words give no externals: rules may have their names. And what the parser refuses.
const ALONE: &str = r#"
    rule v { condition: n > 4 and name iequals "ABC" } => 12 UnknownName 0:1 0 n;
    rule elf { condition: true } rule b { condition: elf } => 2 0;
    rule elf { condition: true } import "elf" rule b { condition: elf.type == 1 } => 2 0;
    rule elf { condition: true } import "elf" rule b { condition: elf } => 13 WrongType 0:1 1;
    rule a { condition: elf.type == 1 } import "elf" => 12 UnknownName 0:1 0 elf;
    d::import "elf" && e::rule b { condition: elf.type == 1 } => 12 UnknownName 1:1 0 elf;
    rule a { condition: } => Syntax { declaration: 1, file: 0, line: 1 };
    rule a { condition: |(|64| true |)|64| } => 1 0;
    rule a { condition: |(|65| true |)|65| } => TooDeep { declaration: 1, file: 0, line: 1 }
"#;

// The first row of which something else is said, and what it is.
fn first_wrong(alloc: Global, rows: &str, externals: &[External]) -> Result<String, Fail>
    requires { AreExternals (map external_of externals.now) }
{
    for row in rows.split(';') {
        let Some((text, wanted)) = row.split_once("=>") else {
            return Ok(String::from_str(alloc, row)?);
        };
        let said = answer(alloc, text, externals)?;
        if said.as_str() != wanted.trim() {
            return Ok(format!(in alloc; "{text}: {}", said.as_str())?);
        }
    }
    Ok(String::new(alloc))
}

#[test]
fn rule_files_are_checked(rt: HostRuntime) -> Result<(), Fail> {
    let alloc = rt.alloc();
    let given = externals(alloc)?;
    for rows in [DECLARATIONS, STRINGS, CONDITIONS] {
        let wrong = first_wrong(alloc, rows, &given)?;
        assert_eq!(rt; wrong.as_str(), "");
    }
    let wrong = first_wrong(alloc, ALONE, &[])?;
    assert_eq!(rt; wrong.as_str(), "");
    Ok(())
}

#[test]
fn limits_are_kept(rt: HostRuntime) -> Result<(), Fail> {
    let alloc = rt.alloc();
    let given = externals(alloc)?;
    let wrong = first_wrong(alloc, LIMITS, &given)?;
    assert_eq!(rt; wrong.as_str(), "");
    Ok(())
}
