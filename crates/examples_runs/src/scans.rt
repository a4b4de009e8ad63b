//! Strings and their matches.

/// What stands before each row.
pub const FILES: &str = r#"file t.bin xxabab"#;

/// The rows.
pub const ROWS: &str = r#"file r.yar rule a { strings: $a = "ab" condition: $a }
scan -s r.yar t.bin
out a t.bin
out 0x2:2:$a
out 0x4:2:$a

file r.yar rule a { strings: $a = "ab" condition: $a }
file t.bin nothing
scan -s r.yar t.bin

file r.yar rule a { strings: $a = "aa" condition: any of them }
file t.bin aaaa
scan -s r.yar t.bin
out a t.bin
out 0x0:2:$a
out 0x1:2:$a
out 0x2:2:$a

file r.yar rule a { strings: $a = /a+/ condition: any of them }
file t.bin baaa
scan -s r.yar t.bin
out a t.bin
out 0x1:3:$a
out 0x2:2:$a
out 0x3:1:$a

file r.yar rule a { strings: $a = /a+?/ condition: any of them }
file t.bin baaa
scan -s r.yar t.bin
out a t.bin
out 0x1:1:$a
out 0x2:1:$a
out 0x3:1:$a

file r.yar rule a { strings: $a = /a|ab/ $b = { 61 ( 62 | 62 63 ) } condition: all of them }
file t.bin abc
scan -s r.yar t.bin
out a t.bin
out 0x0:2:$a
out 0x0:2:$b

file r.yar rule a { strings: $a = /a*?/ condition: $a }
file t.bin aab
scan -s r.yar t.bin
out a t.bin
out 0x0:1:$a
out 0x1:1:$a

file r.yar rule a { strings: $a = /x{2,3}y?/ condition: $a }
file t.bin xxxxy
scan -s r.yar t.bin
out a t.bin
out 0x0:3:$a
out 0x1:4:$a
out 0x2:3:$a

file r.yar rule a { strings: $a = /.*/s $b = /(ab|cd)x/ condition: any of them }
file t.bin ab
scan -s r.yar t.bin
out a t.bin
out 0x0:2:$a
out 0x1:1:$a

file r.yar rule a { strings: $a = /(ab|cd)x/ condition: any of them }
file t.bin abxcdx
scan -s r.yar t.bin
out a t.bin
out 0x0:3:$a
out 0x3:3:$a

file r.yar rule a { strings: $a = /^ab/ $b = /ab$/ $c = "abcd" $d = "bab" condition: any of them }
file t.bin abab
scan -s r.yar t.bin
out a t.bin
out 0x0:2:$a
out 0x2:2:$b
out 0x1:3:$d

file r.yar rule a { strings: $a = "abcde" $b = "bcd" condition: any of them }
file t.bin xabcdx
scan -s r.yar t.bin
out a t.bin
out 0x2:3:$b

file r.yar rule a { strings: $a = { 01 [2-4] 02 } condition: any of them }
file t.bin
hex t.bin 01 00 00 02 02
scan -s r.yar t.bin
out a t.bin
out 0x0:4:$a

file r.yar rule a { strings: $a = { 01 ~?2 ( 03 | 04 [1-2] 05 ) } condition: $a }
file t.bin
hex t.bin 01 13 04 00 00 05
scan -s r.yar t.bin
out a t.bin
out 0x0:6:$a

file r.yar rule a { strings: $a = "domain" fullword condition: any of them }
file t.bin www.mydomain.com
scan -s r.yar t.bin

file r.yar rule a { strings: $a = "domain" fullword condition: any of them }
file t.bin www.my-domain.com
scan -s r.yar t.bin
out a t.bin
out 0x7:6:$a

file r.yar rule a { strings: $a = "domain" fullword condition: any of them }
file t.bin _domain_
scan -s r.yar t.bin
out a t.bin
out 0x1:6:$a

file r.yar rule a { strings: $a = /a[b.]*/ fullword condition: any of them }
file t.bin ab.bc
scan -s r.yar t.bin
out a t.bin
out 0x0:2:$a

file r.yar rule a { strings: $a = "This program cannot" xor(0x01-0xff) condition: any of them }
file t.bin This program cannot
scan -s r.yar t.bin

file r.yar rule a { strings: $a = "This program cannot" xor(0x01-0xff) condition: any of them }
file t.bin Uihr!qsnfs`l!b`oonu
scan -s r.yar t.bin
out a t.bin
out 0x0:19:$a

file r.yar rule a { strings: $a = "This program cannot" base64 condition: any of them }
file t.bin VGhpcyBwcm9ncmFtIGNhbm5vdA==
scan -s r.yar t.bin
out a t.bin
out 0x0:25:$a

file r.yar rule a { strings: $a = "This program cannot" base64 condition: any of them }
file t.bin .RoaXMgcHJvZ3JhbSBjYW5ub3.UaGlzIHByb2dyYW0gY2Fubm90.
scan -s r.yar t.bin
out a t.bin
out 0x1:24:$a
out 0x1a:25:$a

file r.yar rule a { strings: $a = "a" base64 condition: $a }
file t.bin Yh
scan -s r.yar t.bin
out a t.bin
out 0x0:1:$a
out 0x1:1:$a

file r.yar rule a { strings: $a = "a" base64("0123456789abcdefghijklmnopqrstuvwxyzABCDEFGHIJKLMNOPQRSTUVWXYZ+/") condition: $a }
file t.bin Yhox
scan -s r.yar t.bin
out a t.bin
out 0x2:1:$a
out 0x3:1:$a

file r.yar rule a { strings: $a = "a" base64wide condition: $a }
file t.bin
hex t.bin 59 00
scan -s r.yar t.bin
out a t.bin
out 0x0:2:$a

file r.yar rule a { strings: $a = "A" ascii wide condition: any of them }
file t.bin
hex t.bin 41 00
scan -s r.yar t.bin
out a t.bin
out 0x0:1:$a

file r.yar rule a { strings: $a = "AB" wide condition: any of them }
file t.bin
hex t.bin 41 00 42 00
scan -s r.yar t.bin
out a t.bin
out 0x0:4:$a

file r.yar rule a { strings: $a = "ab" xor wide condition: $a }
file t.bin
hex t.bin 60 01 63 01
scan -s r.yar t.bin
out a t.bin
out 0x0:4:$a

file r.yar rule a { strings: $a = /\bab\b/ condition: $a }
file t.bin ab cab
scan -s r.yar t.bin
out a t.bin
out 0x0:2:$a

file r.yar rule a { strings: $a = /ab/ wide nocase condition: $a }
file t.bin
hex t.bin 41 00 62 00
scan -s r.yar t.bin
out a t.bin
out 0x0:4:$a

file r.yar rule a { strings: $a = "aB[" nocase $b = /b\x5b/i condition: all of them }
file t.bin Ab[ab{
scan -s r.yar t.bin
out a t.bin
out 0x0:3:$a
out 0x1:2:$b

file r.yar rule a { strings: $ = "x" $ = "y" condition: all of them }
file t.bin xy
scan -s r.yar t.bin
out a t.bin
out 0x0:1:$
out 0x1:1:$

file r.yar rule a { strings: $a = "ab" private $b = "ba" condition: all of them }
scan -s r.yar t.bin
out a t.bin
out 0x3:2:$b

file r.yar rule a { strings: $a = "abcdef" condition: $a }
file t.bin abcd.bcde.cdef
scan --stats r.yar t.bin
out hits: 1

file r.yar rule a { strings: $a = "ab" condition: $a }
scan --stats r.yar t.bin
out a t.bin
out hits: 2

file r.yar rule a { strings: $a = "ab" condition: $a }
scan -c --stats r.yar t.bin
out 1
out hits: 2

file r.yar rule a { strings: $d = /\d+/ $w = /\w{2,3}/ $s = /\s\W?/ $n = /[^\d\n]{2}/ $e = /2.?/ $f = /2.?/s $x = /\x31(\x32|2\n)/ $b = /\B\d/ $o = /b{,2}1/ $r = /[b-]\d?/ $q = /a|/ $c = /[]]|Z/ condition: any of them }
file t.bin ab12
more t.bin _Z-
scan -s r.yar t.bin
out a t.bin
out 0x2:2:$d
out 0x3:1:$d
out 0x0:3:$w
out 0x1:3:$w
out 0x2:2:$w
out 0x5:2:$w
out 0x4:1:$s
out 0x0:2:$n
out 0x5:2:$n
out 0x6:2:$n
out 0x3:1:$e
out 0x3:2:$f
out 0x2:3:$x
out 0x2:1:$b
out 0x3:1:$b
out 0x1:2:$o
out 0x2:1:$o
out 0x1:2:$r
out 0x7:1:$r
out 0x0:1:$q
out 0x6:1:$c

file r.yar rule a { strings: $a = { 6? ?2 } $b = { ~61 3? } $c = { 61 [0-2] 3? } $d = { ( 61 | 62 31 ) [1] 3? } $e = { 62 /* } */ 31 } $f = { ?? 62 } $g = { 61 ~6? } condition: any of them }
file t.bin ab12
scan -s r.yar t.bin
out a t.bin
out 0x0:2:$a
out 0x1:2:$b
out 0x2:2:$b
out 0x0:3:$c
out 0x0:3:$d
out 0x1:2:$e
out 0x0:2:$f

file r.yar rule a { strings: $a = "\x61\t\n\r\\\"" $b = /\t\n/ $c = /\\\"/ condition: all of them }
file t.bin
hex t.bin 61 09 0a 0d 5c 22
scan -s r.yar t.bin
out a t.bin
out 0x0:6:$a
out 0x1:2:$b
out 0x4:2:$c

file r.yar rule a { strings: $a = "ab" xor(1-2) $b = "ab" xor(3) $c = "ab" xor condition: all of them }
file t.bin
hex t.bin 61 62 00 60 63 00 63 60 00 62 61
scan -s r.yar t.bin
out a t.bin
out 0x3:2:$a
out 0x6:2:$a
out 0x9:2:$b
out 0x0:2:$c
out 0x3:2:$c
out 0x6:2:$c
out 0x9:2:$c

file r.yar rule a { strings: $a = "ab" xor fullword condition: $a }
file t.bin .`c.
scan -s r.yar t.bin
out a t.bin
out 0x1:2:$a

file r.yar rule a { strings: $a = "ab" xor fullword condition: $a }
file t.bin x`c.
scan -s r.yar t.bin

file r.yar rule a { strings: $a = "a" wide fullword condition: $a }
file t.bin
hex t.bin 62 00 61 00 2e 00 61 00
scan -s r.yar t.bin
out a t.bin
out 0x6:2:$a

file r.yar rule a { strings: $a = "a" wide fullword condition: $a }
file t.bin
hex t.bin 62 61 00 62
scan -s r.yar t.bin
out a t.bin
out 0x1:2:$a

file r.yar rule a { strings: $a = /\bab\b/ wide $b = /\Bab/ wide condition: all of them }
file t.bin
hex t.bin 61 00 62 00 2e 00 63 00 61 00 62 00
scan -s r.yar t.bin
out a t.bin
out 0x0:4:$a
out 0x8:4:$b

file r.yar rule a { strings: $a = /\bab\b/ condition: $a }
file t.bin _ab ab-
scan -s r.yar t.bin
out a t.bin
out 0x4:2:$a

file r.yar rule a { strings: $a = /a/ ascii wide $b = /ab?/ ascii wide $c = /ab??/ ascii wide condition: all of them }
file t.bin
hex t.bin 61 00 62 00 61 62
scan -s r.yar t.bin
out a t.bin
out 0x0:2:$a
out 0x4:1:$a
out 0x0:4:$b
out 0x4:2:$b
out 0x0:1:$c
out 0x4:1:$c"#;

/// How many rows there are.
pub const COUNT: u32 = 47;
