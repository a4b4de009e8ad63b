//! Words that read and words that do not, and the commands besides `scan`.

/// What stands before each row.
pub const FILES: &str = r#"file r.yar rule a { strings: $a = "ab" condition: $a }
file q.yar rule r { condition: true }
file v.yar rule v { condition: n > 4 and name iequals "ABC" }
file t.bin xxabab"#;

/// The rows.
pub const ROWS: &str = r#"run
err bad command line
status 1

run help
err bad command line
status 1

run --help
err bad command line
status 1

run scan --help
err bad command line
status 1

run -- scan r.yar t.bin
err bad command line
status 1

run scan
err bad command line
status 1

run scan r.yar
err bad command line
status 1

run scan -x r.yar t.bin
err bad command line
status 1

run scan --stats=1 r.yar t.bin
err bad command line
status 1

run scan --- r.yar t.bin
err bad command line
status 1

run scan a: t.bin
err bad command line
status 1

run compile -s r.yar r.img
err bad command line
status 1

run compile r.yar
err bad command line
status 1

run check
err bad command line
status 1

run check -C r.yar
err bad command line
status 1

run scan -C r.img
err bad command line
status 1

run scan -C r.img t.bin more
err bad command line
status 1

run work 1
err bad command line
status 1

run work 1 16777217
err bad command line
status 1

run work 18446744073709551616 0
err bad command line
status 1

run work x 0
err bad command line
status 1

run work -1 0
err bad command line
status 1

run scan q.yar q.yar q.yar q.yar q.yar q.yar q.yar q.yar q.yar q.yar q.yar q.yar q.yar q.yar q.yar q.yar q.yar t.bin
err bad command line
status 1

run scan -e a:q.yar b:q.yar c:q.yar d:q.yar e:q.yar f:q.yar g:q.yar h:q.yar i:q.yar j:q.yar k:q.yar l:q.yar m:q.yar n:q.yar o:q.yar p:q.yar t.bin
out a:r t.bin
out b:r t.bin
out c:r t.bin
out d:r t.bin
out e:r t.bin
out f:r t.bin
out g:r t.bin
out h:r t.bin
out i:r t.bin
out j:r t.bin
out k:r t.bin
out l:r t.bin
out m:r t.bin
out n:r t.bin
out o:r t.bin
out p:r t.bin

run scan r.yar -s t.bin -c -s
out 1

run scan -ssgm -e r.yar t.bin
out default:a [] [] t.bin
out 0x2:2:$a
out 0x4:2:$a

run scan -s -- r.yar -
err cannot read -
status 4

file -s q
run scan -- q.yar -s
out r -s

file - q
run scan q.yar -
out r -

run scan q.yar ''
err cannot read 
status 4

file b=c x
run scan q.yar b=c
out r b=c

run scan r.yar t.bin rule=5
err t.bin:1: Syntax
status 2

run scan r.yar t.bin 1n=5
err t.bin:1: Syntax
status 2

file a:q.yar rule s { condition: true }
run scan 1:a:q.yar t.bin
err cannot read 1:a:q.yar
status 4

file a:q.yar rule s { condition: true }
run scan -e p:a:q.yar t.bin
out p:s t.bin

run scan v.yar t.bin n=5 n=6
err external n: Twice
status 8

run compile v.yar r.img n=5 n=6
err external n: Twice
status 8
holds r.img

run check no.yar n=5 m=1 n=6 m=2
err external n: Twice
status 8

run scan v.yar t.bin n=5 name=aBc
out v t.bin

run scan v.yar t.bin n=-007 name=abc

run scan v.yar t.bin n=007 name=abc
out v t.bin

run scan no.yar t.bin
err cannot read no.yar
status 4

run scan r.yar no.bin
err cannot read no.bin
status 4

run check r.yar
out rules 1, strings 1

run check r.yar a:q.yar
out rules 2, strings 1

run check v.yar
err v.yar:1: UnknownName v n
status 2

run check v.yar n=5 name=x
out rules 1, strings 0

run work 1 0
out rules 16
out bytes 0
out satisfied 0
out matches 0

run work 001 00016
out rules 16
out bytes 192
out satisfied 16
out matches 16

run work 18446744073709551615 16
out rules 16
out bytes 192
out satisfied 16
out matches 16

run check r.yar r.yar
err r.yar:1: DuplicateRule a
status 2

run check a:r.yar b:r.yar
out rules 2, strings 2

run check -- r.yar
out rules 1, strings 1

run check n=5
err cannot read n=5
status 4

run compile r.yar n=5
holds n=5 0 59 52 49 02

run compile r.yar r.img n
err cannot read r.img
status 4
holds n

run scan r.yar t.bin n=5 x m=1
err cannot read n=5
status 4

run scan r.yar t.bin nnnnnnnnnnnnnnnnnnnnnnnnnnnnnnnnnnnnnnnnnnnnnnnnnnnnnnnnnnnnnnnnnnnnnnnnnnnnnnnnnnnnnnnnnnnnnnnnnnnnnnnnnnnnnnnnnnnnnnnnnnnnnnnnn=5
err t.bin:1: Syntax
status 2

run scan r.yar t.bin nnnnnnnnnnnnnnnnnnnnnnnnnnnnnnnnnnnnnnnnnnnnnnnnnnnnnnnnnnnnnnnnnnnnnnnnnnnnnnnnnnnnnnnnnnnnnnnnnnnnnnnnnnnnnnnnnnnnnnnnnnnnnnnn=5
out a t.bin

run scan r.yar t.bin --status
err bad command line
status 1

run scan -sC
err bad command line
status 1

run work
err bad command line
status 1

run work 1 1 1
err bad command line
status 1

run work 1 ''
err bad command line
status 1

run work 0x1 0
err bad command line
status 1

run work -- 1 0
out rules 16
out bytes 0
out satisfied 0
out matches 0"#;

/// How many rows there are.
pub const COUNT: u32 = 66;
