//! Calls and puts that fail.

/// What stands before each row.
pub const FILES: &str = r#"file r.yar include "i.yar" rule a { strings: $a = "ab" condition: $a }
file i.yar
file q.yar rule r { condition: true }
file s.yar rule a { strings: $a = /a+/ condition: any of them }
file t.bin xxabab
file b.bin baaa
calls"#;

/// The rows.
pub const ROWS: &str = r#"calls r.yar i.yar t.bin
run scan r.yar t.bin
out a t.bin
puts 1

calls s.yar b.bin
run scan -s s.yar b.bin
out a b.bin
out 0x1:3:$a
out 0x2:2:$a
out 0x3:1:$a
puts 4

calls r.yar i.yar q.yar t.bin
run scan -segm --stats x:r.yar q.yar t.bin
out x:a [] [] t.bin
out 0x2:2:$a
out 0x4:2:$a
out default:r [] [] t.bin
out hits: 2

calls r.yar i.yar t.bin
run scan -c r.yar t.bin
out 1

calls r.yar i.yar >r.img
run compile r.yar r.img

calls r.img t.bin
run compile r.yar r.img
run scan -C -s r.img t.bin
out a t.bin
out 0x2:2:$a
out 0x4:2:$a
puts 3

calls r.img t.bin
run compile r.yar q.yar r.img
run scan -C -c --stats r.img t.bin
out 2
out hits: 2

calls r.yar i.yar q.yar
run check r.yar q.yar
out rules 2, strings 1

run work 1 16
out rules 16
out bytes 192
out satisfied 16
out matches 16

run scan r.yar
err bad command line
status 1

run scan r.yar t.bin n=1 n=2
err external n: Twice
status 8

run scan r.yar q.yar q.yar t.bin
err q.yar:1: DuplicateRule r
status 2
calls r.yar i.yar q.yar q.yar

calls r.yar i.yar
file i.yar include "r.yar"
run compile r.yar r.img
err i.yar:1: Cycle r.yar
status 2
holds r.img

calls r.img
file r.img YRI
run scan -C r.img t.bin
err r.img: TooShort
status 3

calls r.img
run compile q.yar r.img n=1
run scan -C r.img t.bin n=x
err external n: Kind
status 8

calls r.yar no.yar
file r.yar include "no.yar"
run scan r.yar t.bin
err cannot read no.yar
status 4

calls r.yar t.bin
file r.yar rule a { strings: $a = "ab" condition: $a }
run scan -s r.yar t.bin
out a t.bin
out 0x2:2:$a
out 0x4:2:$a
puts 3

calls r.yar i.yar q.yar t.bin
run scan -n -e -c r.yar x:q.yar t.bin n=5
out 0

calls r.yar i.yar q.yar >r.img
run compile r.yar x:q.yar r.img

calls r.img no.bin
run compile q.yar r.img
run scan -C r.img no.bin
err cannot read no.bin
status 4"#;

/// How many rows there are.
pub const COUNT: u32 = 20;
