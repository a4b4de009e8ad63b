//! Rules that are refused, each with its text.

/// What stands before each row.
pub const FILES: &str = r#"file t.bin xxabab
status 2"#;

/// The rows.
pub const ROWS: &str = r#"file r.yar rule a { strings: $a = "x
scan r.yar t.bin
err r.yar:1: Unclosed

file r.yar rule a { condition: true }
more r.yar /* no end
scan r.yar t.bin
err r.yar:2: Unclosed

file r.yar rule a { strings: $a = "\q" condition: $a }
scan r.yar t.bin
err r.yar:1: BadEscape

file r.yar rule a { condition: 1.5 > 1 }
scan r.yar t.bin
err r.yar:1: Float

file r.yar rule a { condition: 12a }
scan r.yar t.bin
err r.yar:1: BadByte

file r.yar
hex r.yar ef bb bf
scan r.yar t.bin
err r.yar:1: BadByte

file r.yar rule a { condition: 9223372036854775807 and
more r.yar 9223372036854775808 }
scan r.yar t.bin
err r.yar:2: TooLargeNumber

file r.yar rule 
many r.yar 129 a
many r.yar 1  { condition: true }
scan r.yar t.bin
err r.yar:1: LongName

file r.yar include ""
scan r.yar t.bin
err r.yar:1: Path

file r.yar include "
hex r.yar ff
many r.yar 1 "
scan r.yar t.bin
err r.yar:1: Path

file a.yar include "b.yar"
file b.yar include "a.yar"
scan a.yar t.bin
err b.yar:1: Cycle a.yar

file r.yar
more r.yar include "r.yar"
scan r.yar t.bin
err r.yar:2: Cycle r.yar

file c0.yar include "c1.yar"
file c1.yar include "c2.yar"
file c2.yar include "c3.yar"
file c3.yar include "c4.yar"
file c4.yar include "c5.yar"
file c5.yar include "c6.yar"
file c6.yar include "c7.yar"
file c7.yar include "c8.yar"
file c8.yar include "c9.yar"
file c9.yar include "c10.yar"
file c10.yar include "c11.yar"
file c11.yar include "c12.yar"
file c12.yar include "c13.yar"
file c13.yar include "c14.yar"
file c14.yar include "c15.yar"
file c15.yar include "c16.yar"
file c16.yar include "c17.yar"
file c17.yar
scan c0.yar t.bin
err c16.yar:1: Depth c17.yar

file r.yar include "no.yar"
scan r.yar t.bin
err cannot read no.yar
status 4

file d/r.yar include "s.yar" include "/e/t.yar"
file d/s.yar rule s { condition: true }
file /e/t.yar include "u.yar"
scan d/r.yar t.bin
err cannot read /e/u.yar
status 4

file d/r.yar include "s.yar" include "/e/t.yar" rule r { condition: s and t }
file d/s.yar rule s { condition: true }
file /e/t.yar include "u.yar"
file /e/u.yar rule t { condition: true }
scan d/r.yar t.bin
out s t.bin
out t t.bin
out r t.bin
status 0

file r.yar rule a { condition: }
scan r.yar t.bin
err r.yar:1: Syntax

file r.yar rule a { condition: true }
more r.yar rule b {
more r.yar condition: 1 of }
scan r.yar t.bin
err r.yar:2: Syntax

file r.yar rule a { condition: 
many r.yar 65 (
many r.yar 1 true
many r.yar 65 )
many r.yar 1 }
scan r.yar t.bin
err r.yar:1: TooDeep

file r.yar rule a { condition: 
many r.yar 64 (
many r.yar 1 true
many r.yar 64 )
many r.yar 1 }
scan r.yar t.bin
out a t.bin
status 0

file r.yar rule a { condition: 
many r.yar 65 not 
many r.yar 1 true }
scan r.yar t.bin
err r.yar:1: TooDeep

file r.yar import "math"
scan r.yar t.bin
err r.yar:1: UnknownModule math

file r.yar import "math" rule x { condition: true }
scan r.yar t.bin
err r.yar:1: UnknownModule math

file r.yar rule x { condition: true }
more r.yar import "cuckoo"
scan r.yar t.bin
err r.yar:2: UnknownModule cuckoo

file r.yar import ""
scan r.yar t.bin
err r.yar:1: UnknownModule 

file r.yar rule x { condition: true }
more r.yar rule x { condition: true }
scan r.yar t.bin
err r.yar:2: DuplicateRule x

file r.yar rule n { condition: true }
scan r.yar t.bin n=5
err r.yar:1: DuplicateRule n

file q.yar rule r { condition: true }
scan q.yar q.yar t.bin
err q.yar:1: DuplicateRule r

file r.yar rule a1 { condition: true } rule b { condition: any of (a*) }
more r.yar rule a2 { condition: true }
scan r.yar t.bin
err r.yar:2: WildcardRule a2

file r.yar rule x : t u t { condition: true }
scan r.yar t.bin
err r.yar:1: DuplicateTag x t

file r.yar rule x { strings: $a = "a" $a = "b" condition: $a }
scan r.yar t.bin
err r.yar:1: DuplicateString x $a

file r.yar rule x { strings: $a = "" condition: $a }
scan r.yar t.bin
err r.yar:1: EmptyString x $a

file r.yar rule x { strings: $a = "a" nocase xor condition: $a }
scan r.yar t.bin
err r.yar:1: BadModifiers x $a

file r.yar rule x { strings: $a = "a" xor(2-1) condition: $a }
scan r.yar t.bin
err r.yar:1: BadModifiers x $a

file r.yar rule x { strings: $a = { 01 } nocase condition: $a }
scan r.yar t.bin
err r.yar:1: BadModifiers x $a

file r.yar rule x { strings: $a = { 0 } condition: $a }
scan r.yar t.bin
err r.yar:1: HexSyntax x $a

file r.yar rule x { strings: $a = { 01 [2-] } condition: $a }
scan r.yar t.bin
err r.yar:1: HexJump x $a 4

file r.yar rule x { strings: $a = /a**/ condition: $a }
scan r.yar t.bin
err r.yar:1: RegexSyntax x $a

file r.yar rule x { condition: "a" matches /a**/ }
scan r.yar t.bin
err r.yar:1: RegexSyntax x matches

file r.yar rule x { strings: $a = /a{3,2}/ condition: $a }
scan r.yar t.bin
err r.yar:1: RegexRange x $a 1

file r.yar rule x { condition: "a" matches /[b-a]/ }
scan r.yar t.bin
err r.yar:1: RegexRange x matches 1

file r.yar rule x { strings: $a = /a+b*?/ condition: $a }
scan r.yar t.bin
err r.yar:1: MixedGreed x $a

file r.yar rule x { strings: $a = /(a{300}){300}/ condition: $a }
scan r.yar t.bin
err r.yar:1: PatternTooLarge x $a

file r.yar rule x { condition: "a" matches /(a{300}){300}/ }
scan r.yar t.bin
err r.yar:1: PatternTooLarge x matches

file r.yar rule x { condition: $b }
scan r.yar t.bin
err r.yar:1: UnknownString x $b

file r.yar rule x { condition: #b > 1 }
scan r.yar t.bin
err r.yar:1: UnknownString x #b

file r.yar rule x { strings: $a = "a" condition: $a and any of ($b*) }
scan r.yar t.bin
err r.yar:1: UnknownString x $b*

file r.yar rule x { condition: nope }
scan r.yar t.bin
err r.yar:1: UnknownName x nope

file r.yar rule v { condition: n > 4 and name iequals "ABC" }
scan r.yar t.bin
err r.yar:1: UnknownName v n

file r.yar import "elf" rule x { condition: elf.lacks == 1 }
scan r.yar t.bin
err r.yar:1: UnknownName x lacks

file r.yar rule r { condition: true }
file s.yar rule s { condition: r }
scan a:r.yar b:s.yar t.bin
err s.yar:1: UnknownName s r

file r.yar rule r { condition: true }
file s.yar rule s { condition: r }
scan r.yar s.yar t.bin
out r t.bin
out s t.bin
status 0

file r.yar rule x { condition: 1 == "a" }
scan r.yar t.bin
err r.yar:1: WrongType x

file r.yar rule x { condition: n + 1 == 2 }
scan r.yar t.bin n=one
err r.yar:1: WrongType x

file r.yar rule x { strings: $_a = "a" $a = "b" condition: true }
scan r.yar t.bin
err r.yar:1: UnusedString x $a

file r.yar rule x { strings: $_a = "a" condition: true }
scan r.yar t.bin
out x t.bin
status 0

file r.yar rule x { condition: for any a in (1..2) : ( for any b in (1..2) : ( for any c in (1..2) : ( for any d in (1..2) : ( for any e in (1..2) : ( true ) ) ) ) ) }
scan r.yar t.bin
err r.yar:1: LoopDepth x

file r.yar rule x { condition: for any a in (1..2) : ( for any b in (1..2) : ( for any c in (1..2) : ( for any d in (1..2) : ( d == 2 ) ) ) ) }
scan r.yar t.bin
out x t.bin
status 0

file r.yar rule x { condition: for any i in (1
many r.yar 128 ,1
many r.yar 1 ) : ( true ) }
scan r.yar t.bin
err r.yar:1: ListTooLong x

file r.yar rule x { condition: for any i in (1
many r.yar 127 ,1
many r.yar 1 ) : ( true ) }
scan r.yar t.bin
out x t.bin
status 0

file r.yar rule a { condition: true } rule b { condition: nope } rule a { condition: true }
scan r.yar t.bin
err r.yar:1: UnknownName b nope

file r.yar rule a { strings: $a = "" condition: nope or 1 == "a" }
scan r.yar no.bin
err r.yar:1: EmptyString a $a

file r.yar include "b.yar" rule x { condition: true }
file b.yar // nothing
more b.yar "x
scan r.yar t.bin
err b.yar:2: Unclosed

file r.yar include "no.yar"
more r.yar "x
scan r.yar t.bin
err r.yar:2: Unclosed

file r.yar
more r.yar include "b.yar"
file b.yar rule x { condition: }
scan r.yar t.bin
err b.yar:1: Syntax

file c1.yar include "c2.yar"
file c2.yar include "c3.yar"
file c3.yar include "c4.yar"
file c4.yar include "c5.yar"
file c5.yar include "c6.yar"
file c6.yar include "c7.yar"
file c7.yar include "c8.yar"
file c8.yar include "c9.yar"
file c9.yar include "c10.yar"
file c10.yar include "c11.yar"
file c11.yar include "c12.yar"
file c12.yar include "c13.yar"
file c13.yar include "c14.yar"
file c14.yar include "c15.yar"
file c15.yar include "c16.yar"
file c16.yar include "c17.yar"
file c17.yar rule x { condition: true }
scan c1.yar t.bin
out x t.bin
status 0

file a.yar rule a { condition: }
file b.yar rule b { condition: true } "x
scan a.yar b.yar t.bin
err b.yar:1: Unclosed

file a.yar rule a { condition: nope }
file b.yar rule b { condition: }
scan x:a.yar y:b.yar t.bin
err b.yar:1: Syntax

file a.yar rule a { condition: nope }
file b.yar rule b { condition: 1 == "a" }
scan x:a.yar y:b.yar t.bin
err a.yar:1: UnknownName a nope

file q.yar rule r { condition: true }
scan default:q.yar q.yar t.bin
err q.yar:1: DuplicateRule r

file w.yar private rule a1 { condition: true } rule b { condition: any of (a*) }
file x.yar rule a2 { condition: true }
scan w.yar x.yar t.bin
err x.yar:1: WildcardRule a2

file m.yar import "elf" rule m { condition: not defined elf.type }
file e.yar rule e { condition: not defined elf.type }
scan a:m.yar b:e.yar t.bin
err e.yar:1: UnknownName e elf

file p.yar rule p1 { condition: true }
file q.yar rule q { condition: any of (p*) }
scan a:p.yar b:q.yar t.bin
err q.yar:1: UnknownName q p

file r.yar rule x : t u u t { condition: true }
scan r.yar t.bin
err r.yar:1: DuplicateTag x t

file r.yar rule x { strings: $a = "a" nocase nocase condition: $a }
scan r.yar t.bin
err r.yar:1: BadModifiers x $a

file r.yar rule x { strings: $a = "a" base64("abc") condition: $a }
scan r.yar t.bin
err r.yar:1: BadModifiers x $a

file r.yar rule x { strings: $a = /a/ xor condition: $a }
scan r.yar t.bin
err r.yar:1: BadModifiers x $a

file r.yar rule x { strings: $a = { 01 [3-2] 02 } condition: $a }
scan r.yar t.bin
err r.yar:1: HexJump x $a 4

file r.yar rule x { strings: $a = { 01 ( 02 [1-201] 03 | 04 ) 05 } condition: $a }
scan r.yar t.bin
err r.yar:1: HexJump x $a 9

file r.yar rule x { strings: $a = /a(b[d-c])/ condition: $a }
scan r.yar t.bin
err r.yar:1: RegexRange x $a 4"#;

/// How many rows there are.
pub const COUNT: u32 = 80;
