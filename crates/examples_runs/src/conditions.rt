//! Conditions, and what a report has of the rules that hold.

/// What stands before each row.
pub const FILES: &str = r#"file t.bin xxabab"#;

/// The rows.
pub const ROWS: &str = r#"file r.yar rule e { condition: filesize == 0 }
more r.yar rule n { condition: not false }
file t.bin
scan -s r.yar t.bin
out e t.bin
out n t.bin

file r.yar rule n1 { condition: not (uint8(filesize) == 0) }
more r.yar rule n2 { condition: not defined uint8(filesize) }
more r.yar rule n3 { condition: (uint8(filesize) == 0) or not (uint8(filesize) == 0 and true) }
more r.yar rule n4 { condition: uint8(filesize) == 0 or uint8(filesize) != 0 }
scan -s r.yar t.bin
out n2 t.bin
out n3 t.bin

file r.yar rule m1 { condition: 9223372036854775807 + 1 < 0 }
more r.yar rule m2 { condition: 1 \ 0 == 0 }
more r.yar rule m3 { condition: not defined (1 % 0) and -7 \ 2 == -3 and -7 % 2 == -1 }
more r.yar rule m4 { condition: -1 >> 63 == -1 and -1 >> 64 == 0 and 1 << 64 == 0 and not defined (1 << -1) }
more r.yar rule m5 { condition: ~5 == -6 and 6 & 3 == 2 and 6 | 3 == 7 and 6 ^ 3 == 5 and 1KB == 0x400 and 0o17 == 15 }
scan -s r.yar t.bin
out m1 t.bin
out m3 t.bin
out m4 t.bin
out m5 t.bin

file r.yar rule x { condition: true }
more r.yar global rule g { condition: filesize > 10 }
file t.bin abc
scan -s r.yar t.bin

file r.yar rule x { condition: true }
more r.yar global rule g { condition: filesize > 10 }
file t.bin abc
scan -n r.yar t.bin

file r.yar rule x { condition: true }
more r.yar global private rule g { condition: filesize > 2 }
file t.bin abc
scan -s r.yar t.bin
out x t.bin

file r.yar global rule g { condition: false }
more r.yar rule x { condition: true }
scan r.yar t.bin

file r.yar rule x { condition: true /* } */ } // the end
scan r.yar t.bin
out x t.bin

file r.yar rule q { strings: $a = "ab" condition: for all i in (1..#a) : ( @a[i] % 2 == 0 ) }
more r.yar rule q2 { condition: for all i in (2..1) : ( false ) }
more r.yar rule q3 { condition: for any i in (2..1) : ( true ) }
scan r.yar t.bin
out q t.bin
out q2 t.bin

file r.yar rule x { condition: for 1 i in (1, 2) : ( i == 2 ) and not ( 1 << 64 == 1 ) }
more r.yar rule y { condition: for any i in (1..3) : ( for all j in (1..i) : ( j < 2 ) ) }
more r.yar rule z { condition: for any i in (0..268435457) : ( true ) }
more r.yar rule v { condition: for all i in (1, uint8(filesize), 3) : ( i > 0 ) }
more r.yar rule w { condition: for 2 i in (1, uint8(filesize), 3) : ( i > 0 ) }
more r.yar rule i { condition: for any i in (1..2) : ( for any i in (5, 6) : ( i == 6 ) ) }
scan r.yar t.bin
out x t.bin
out y t.bin
out w t.bin
out i t.bin

file r.yar rule a { strings: $a = "x" $b = "y" condition: 50% of them and not 0 of them and none of ($b) and -1 of them }
file t.bin x
scan -s r.yar t.bin
out a t.bin
out 0x0:1:$a

file r.yar private rule p1 { condition: true }
more r.yar rule q { condition: any of (p*) }
more r.yar rule r { condition: p1 and not all of (q, p1) }
scan r.yar t.bin
out q t.bin

file r.yar rule a { strings: $a = "ab" $b = "q" condition: $a at 2 and not $a at 3 and $a in (3..4) and #a in (0..3) == 1 and !a == 2 and @a == 2 and not defined @a[3] and not $b }
more r.yar rule b { strings: $a = "ab" $b = "ba" condition: for all of them : ( # > 0 and @ > 1 and ! == 2 and $ in (2..3) ) }
more r.yar rule c { strings: $a = "ab" condition: any of them at 4 }
more r.yar rule d { strings: $a1 = "ab" $a2 = "q" $b = "ba" condition: all of ($a1, $b) in (2..3) and 1 of ($a*) }
scan r.yar t.bin
out a t.bin
out b t.bin
out c t.bin
out d t.bin

file r.yar rule a { condition: "abc" contains "b" and "aBc" icontains "Bc" and "abc" startswith "ab" and "ABc" istartswith "ab" }
more r.yar rule b { condition: "abc" endswith "bc" and "aBC" iendswith "bc" and "abc" iequals "ABC" and "abc" matches /b./ and "a" < "ab" }
more r.yar rule c { condition: uint16(2) == 0x6261 and uint16be(2) == 0x6162 and int8(0) == 120 and int32(2) == 0x62616261 }
more r.yar rule d { condition: filesize and "x" }
more r.yar rule e { condition: 0 or "" }
scan r.yar t.bin
out a t.bin
out b t.bin
out c t.bin
out d t.bin

file r.yar rule a { meta: note = "a\"b\x01" condition: true }
scan -mg r.yar t.bin
out a [] [note="a\"b\x01"] t.bin

file r.yar rule a : t1 t2 { meta: n = -5 f = true g = false k = "x\\y" k = 7 condition: true }
scan -g -m r.yar t.bin
out a [t1,t2] [n=-5,f=true,g=false,k="x\\y",k=7] t.bin

file r.yar rule a : t1 t2 { condition: true }
scan -m r.yar t.bin
out a [] t.bin

file r.yar rule a : t1 t2 { condition: true }
scan -g r.yar t.bin
out a [t1,t2] t.bin

file r.yar rule a { strings: $a = "ab" condition: $a }
scan -c r.yar t.bin
out 1

file r.yar rule a { strings: $a = "ab" condition: $a }
scan -n -c r.yar t.bin
out 0

file r.yar rule a { strings: $a = "ab" condition: $a }
scan -ss r.yar t.bin
out a t.bin
out 0x2:2:$a
out 0x4:2:$a

file r.yar rule a { strings: $a = "ab" condition: #a > 5 }
more r.yar rule b { condition: true }
more r.yar private rule c { condition: false }
scan -ns r.yar t.bin
out a t.bin
out 0x2:2:$a
out 0x4:2:$a

file r.yar rule q { condition: true }
scan -e r.yar t.bin
out default:q t.bin

file r.yar
scan r.yar t.bin

file r.yar rule v { condition: n > 4 and name iequals "ABC" }
scan r.yar t.bin n=5 name=abc
out v t.bin

file r.yar rule x { condition: n == -3 and f and not g and e == "" and t == "9223372036854775808" and v == "a=b" and m == 9223372036854775807 }
scan r.yar t.bin n=-3 f=true g=false e= t=9223372036854775808 v=a=b m=9223372036854775807
out x t.bin

file p.yar global rule g { condition: false }
file q.yar rule r { condition: true }
scan p:p.yar q:q.yar t.bin
out r t.bin

file p.yar global rule g { condition: false }
file q.yar rule r { condition: true }
scan p.yar q.yar t.bin

file p.yar global rule g { condition: false }
file q.yar rule r { condition: true }
scan -n p:p.yar q:q.yar t.bin

file q.yar rule r { condition: true }
scan -e a:q.yar b:q.yar t.bin
out a:r t.bin
out b:r t.bin

file q.yar rule r { condition: true }
scan -c a:q.yar b:q.yar c:q.yar t.bin
out 3

file r.yar rule p1 { condition: 1 + 2 * 3 == 7 and (1 + 2) * 3 == 9 and 10 - 2 - 3 == 5 and -2 * 3 == -6 and 7 % 4 * 2 == 6 }
more r.yar rule p2 { condition: 1 << 2 + 1 == 8 and 5 & 3 == 1 and 6 | 1 ^ 3 & 2 == 7 and ~0 == -1 and - ~1 == 2 }
more r.yar rule p3 { condition: not false or true }
more r.yar rule p4 { condition: not (true or true) }
more r.yar rule p5 { condition: true or false and false }
more r.yar rule p6 { condition: 1 < 2 == true }
more r.yar rule p7 { condition: not 1 == 2 }
more r.yar rule p8 { condition: defined 1 \ 0 or defined 2 \ 1 }
more r.yar rule p9 { condition: defined (1 \ 0 and true) and not (1 \ 0 == 0 and true) }
scan r.yar t.bin
out p1 t.bin
out p2 t.bin
out p3 t.bin
out p5 t.bin
out p6 t.bin
out p7 t.bin
out p8 t.bin
out p9 t.bin

file r.yar rule n1 { condition: (-9223372036854775807 - 1) \ -1 == -9223372036854775807 - 1 and (-9223372036854775807 - 1) % -1 == 0 }
more r.yar rule n2 { condition: 1 << 63 == -9223372036854775807 - 1 and 1 << 63 >> 63 == -1 and 3 >> 64 == 0 and not defined (1 >> -1) }
more r.yar rule n3 { condition: 9223372036854775807 * 2 == -2 and -(-9223372036854775807 - 1) == -9223372036854775807 - 1 }
more r.yar rule n4 { condition: 2MB == 2097152 and 0x7fffffffffffffff == 9223372036854775807 and 0o10 == 8 and 010 == 10 }
scan r.yar t.bin
out n1 t.bin
out n2 t.bin
out n3 t.bin
out n4 t.bin

file r.yar rule t1 { condition: "a" < "b" and "a" < "aa" and "" < "a" and "Z" < "a" and "\xff" > "a" and "ab" == "ab" and "ab" != "aB" and "b" >= "b" and "b" <= "b" }
more r.yar rule t2 { condition: "ab" matches /^ab$/ and "b" matches /a*/ and "" matches /^$/ and not "ab" matches /^b/ and not "ab" matches /a$/ and "aB" matches /Ab/i }
more r.yar rule t3 { condition: "abc" contains "" and not "ab" contains "abc" and "" iequals "" and not "[" iequals "{" }
scan r.yar t.bin
out t1 t.bin
out t2 t.bin
out t3 t.bin

file r.yar rule r1 { condition: int8(0) == -1 and uint8(0) == 255 and int16(0) == 32767 and int16be(0) == -129 and uint16be(0) == 65407 }
more r.yar rule r2 { condition: uint32(0) == 0x01807fff and int32be(0) == -8421375 and uint32be(0) == 0xff7f8001 and int32(1) == -33456001 }
more r.yar rule r3 { condition: defined uint8(4) and not defined uint8(5) and not defined uint16(4) and not defined uint32(2) and not defined int8(-1) }
file t.bin
hex t.bin ff 7f 80 01 fe
scan r.yar t.bin
out r1 t.bin
out r2 t.bin
out r3 t.bin

file r.yar rule s1 { condition: all of them and none of them and 150% of them and not any of them }
more r.yar rule s2 { strings: $a = "ab" $b = "q" $c = "z" condition: 33% of them and not 34% of them and -1% of them and not 101% of ($a) and 0% of them }
more r.yar rule s3 { strings: $a1 = "ab" $a2 = "q" $b = "ba" condition: 2 of ($a*, $b, $b) and not 3 of ($a*, $b, $a1) and 1 of ($a2, $a1) }
more r.yar rule s4 { strings: $ = "ab" $ = "q" condition: 1 of ($) and not all of ($*) and any of them in (2..3) and not any of them in (5..9) and none of them at 0 }
more r.yar rule s5 { strings: $a = "ab" condition: #a in (9..0) == 0 and not $a in (9..0) and $a in (2..2) and #a in (2..4) == 2 and not defined @a[0] and not defined !a[3] }
more r.yar rule s6 { strings: $a = "ab" condition: not defined $a at (1 \ 0) and not defined #a in (1..1 \ 0) and not defined any of them in (1 \ 0..2) and not defined @a[1 \ 0] }
scan r.yar t.bin
out s1 t.bin
out s2 t.bin
out s3 t.bin
out s4 t.bin
out s5 t.bin
out s6 t.bin

file r.yar rule o1 { strings: $b = "ab" $ab = "ba" $a = "q" $ = "ab" $abc = "z" $ = "q"
more r.yar condition: 1 of ($b, $b) and not 2 of ($b, $b) and 1 of ($a*) and not 2 of ($a*) and none of ($abc*) and 1 of ($ab*) and 2 of ($ab*, $a, $a*, $b)
more r.yar and not 3 of ($ab*, $a, $a*, $b) and 1 of ($) and not 2 of ($) and 3 of ($*, $b) and not 4 of ($*) }
scan r.yar t.bin
out o1 t.bin

file r.yar rule f1 { strings: $a = "ab" $b = "ba" condition: for 2 of them : ( # >= 1 ) and for none of ($a) : ( @ == 0 ) and for all of ($a, $b) : ( $ and not $ at 0 ) and for -1 of them : ( false ) }
more r.yar rule f2 { strings: $a = "ab" condition: not defined for (1 \ 0) of them : ( true ) and not defined (1 \ 0) of them and for none of ($a) : ( 1 \ 0 == 0 ) }
more r.yar rule f3 { condition: for 0 i in (1..3) : ( i > 3 ) and not for 0 i in (1..3) : ( i > 2 ) and for none i in (1, 2) : ( i == 3 ) }
more r.yar rule f4 { condition: not defined for any i in (0..268435457) : ( true ) and not defined for all i in (1..1 \ 0) : ( true ) }
more r.yar rule f5 { condition: not defined for any i in (-9223372036854775807 - 1..9223372036854775807) : ( true ) }
more r.yar rule f6 { condition: not for any i in (0..268435457) : ( true ) }
scan r.yar t.bin
out f1 t.bin
out f2 t.bin
out f3 t.bin
out f4 t.bin
out f5 t.bin

file r.yar private rule p1 { condition: true } private rule p2 { condition: false }
more r.yar rule q1 { condition: 1 of (p*) }
more r.yar rule q2 { condition: all of (p*) }
more r.yar rule q3 { condition: not p2 and p1 }
more r.yar rule q4 { condition: none of (p2) }
more r.yar rule q5 { condition: 50% of (p1, p2, p*) and not 51% of (p*) }
scan r.yar t.bin
out q1 t.bin
out q3 t.bin
out q4 t.bin
out q5 t.bin

file r.yar rule a { meta: a = "\x7f\x80\xff ~" b = 0x10 c = 1KB d = -9223372036854775807 condition: true }
scan -m r.yar t.bin
out a [a="\x7f\x80\xff ~",b=16,c=1024,d=-9223372036854775807] t.bin

file r.yar rule h { condition: for any n in (7..7) : ( n == 7 ) and n == 5 }
scan r.yar t.bin n=5
out h t.bin

file r.yar rule x { condition: include "c.yar" }
file c.yar true
scan r.yar t.bin
out x t.bin

file r.yar include "b.yar" include "b.yar" rule x { condition: true }
file b.yar // nothing
scan r.yar t.bin
out x t.bin

file q.yar rule r { condition: true }
file s.yar rule s { condition: r }
scan -e a:q.yar a:s.yar t.bin
out a:r t.bin
out a:s t.bin

file w.yar private rule a1 { condition: true } rule b { condition: any of (a*) }
file x.yar rule a2 { condition: true }
scan u:w.yar v:x.yar t.bin
out b t.bin
out a2 t.bin

file m.yar import "elf" rule m { condition: not defined elf.type }
file e.yar rule e { condition: not defined elf.type }
scan m.yar e.yar t.bin
out m t.bin
out e t.bin

file p.yar global private rule g { condition: false }
file q.yar rule r { condition: true }
scan -c p:p.yar q:q.yar p:q.yar t.bin
out 1

file p.yar global rule g { condition: filesize == 6 }
file q.yar rule r { condition: false } private rule s { condition: false }
scan -n -e p:p.yar q:q.yar p:q.yar t.bin
out q:r t.bin
out p:r t.bin"#;

/// How many rows there are.
pub const COUNT: u32 = 48;
