//! Strings with many hits, most of which are left for one walk over the file.

/// What stands before each row.
pub const FILES: &str = "file t.bin";

/// The rows.
pub const ROWS: &str =
    r#"file r.yar rule longest { strings: $a = /a.*[0-9]/s condition: #a == 300 and for all i in (1..300) : ( @a[i] == i - 1 and !a[i] == 304 - i ) }
more r.yar rule shortest { strings: $a = /a.*?[0-9]/s condition: #a == 300 and for all i in (1..300) : ( @a[i] == i - 1 and !a[i] == 302 - i ) }
more r.yar rule jump { strings: $a = { 61 [-] 3? } condition: #a == 300 and for all i in (1..300) : ( @a[i] == i - 1 and !a[i] == 302 - i ) }
many t.bin 300 a
many t.bin 1 5b7cc
scan r.yar t.bin
out longest t.bin
out shortest t.bin
out jump t.bin

file r.yar rule longest { strings: $a = /a.*[0-9]/s condition: #a == 400 and for all i in (1..200) : ( @a[i] == i - 1 and !a[i] == 403 - i ) and for all i in (201..400) : ( @a[i] == i and !a[i] == 402 - i ) }
more r.yar rule shortest { strings: $a = /a.*?[0-9]/s condition: #a == 400 and for all i in (1..200) : ( @a[i] == i - 1 and !a[i] == 202 - i ) and for all i in (201..400) : ( @a[i] == i and !a[i] == 402 - i ) }
many t.bin 200 a
many t.bin 1 1
many t.bin 200 a
many t.bin 1 2
scan r.yar t.bin
out longest t.bin
out shortest t.bin

file r.yar rule a { strings: $a = /a.*[0-9]/s condition: $a }
many t.bin 12 a
many t.bin 100 b
many t.bin 1 1
scan -s --stats r.yar t.bin
out a t.bin
out 0x0:113:$a
out 0x1:112:$a
out 0x2:111:$a
out 0x3:110:$a
out 0x4:109:$a
out 0x5:108:$a
out 0x6:107:$a
out 0x7:106:$a
out 0x8:105:$a
out 0x9:104:$a
out 0xa:103:$a
out 0xb:102:$a
out hits: 12

file r.yar rule a { strings: $a = /a.*[0-9]/s condition: #a == 3000 and for all i in (1..3000) : ( @a[i] == i - 1 and !a[i] == 3002 - i ) }
more r.yar rule b { strings: $a = /a.*[0-9]/s condition: $a at 2999 and not $a at 3000 and #a in (10..19) == 10 and !a == 3001 and @a[3000] == 2999 and not defined @a[3001] }
many t.bin 3000 a
many t.bin 1 1
scan r.yar t.bin
out a t.bin
out b t.bin

file r.yar rule a { strings: $a = /a.*[0-9]/ condition: #a == 200 and for all i in (1..100) : ( @a[i] == i - 1 and !a[i] == 102 - i ) and for all i in (101..200) : ( @a[i] == i + 1 and !a[i] == 202 - i ) }
many t.bin 100 a
many t.bin 1 1
more t.bin
many t.bin 100 a
many t.bin 1 2b
scan r.yar t.bin
out a t.bin

file r.yar rule a { strings: $a = /a.*[0-9]/s fullword condition: #a == 150 and for all i in (1..150) : ( @a[i] == 3 * i - 2 and !a[i] == 454 - 3 * i ) }
many t.bin 150  aa
many t.bin 1  1 2y
scan r.yar t.bin
out a t.bin

file r.yar rule a { strings: $a = /[0-9].*a/s $b = /[0-9].*?a/s condition: any of them }
many t.bin 1 3
many t.bin 50 x
many t.bin 1 4
many t.bin 300 a
many t.bin 1 5
many t.bin 10 a
many t.bin 1 6
scan -s r.yar t.bin
out a t.bin
out 0x0:363:$a
out 0x33:312:$a
out 0x160:11:$a
out 0x0:53:$b
out 0x33:2:$b
out 0x160:2:$b

file r.yar rule longest { strings: $a = /[0-9].*a/s condition: #a == 200 and for all i in (1..200) : ( @a[i] == i - 1 and !a[i] == 251 - i ) }
more r.yar rule shortest { strings: $a = /[0-9].*?a/s condition: #a == 200 and for all i in (1..200) : ( @a[i] == i - 1 and !a[i] == 202 - i ) }
more r.yar rule jump { strings: $a = { 3? [-] 61 } condition: #a == 200 and for all i in (1..200) : ( @a[i] == i - 1 and !a[i] == 202 - i ) }
many t.bin 200 7
many t.bin 50 a
scan r.yar t.bin
out longest t.bin
out shortest t.bin
out jump t.bin

file r.yar rule a { strings: $a = /[0-9].*a/s fullword $b = /[0-9].*?a/s fullword condition: any of them }
many t.bin 1 1 x2
many t.bin 150  aa
many t.bin 1 y
scan -s r.yar t.bin
out a t.bin
out 0x0:451:$a
out 0x0:7:$b

file r.yar rule a { strings: $a = /[0-9].*a.*[0-9]/s $b = /[0-9].*?a.*?[0-9]/s condition: any of them }
many t.bin 1 1b2
many t.bin 300 a
many t.bin 1 3c4ad
scan -s r.yar t.bin
out a t.bin
out 0x0:306:$a
out 0x2:304:$a
out 0x0:304:$b
out 0x2:302:$b

file r.yar rule longest { strings: $a = /[0-9].*a.*[0-9]/s condition: #a == 150 and for all i in (1..150) : ( @a[i] == 2 * i - 2 and !a[i] == 303 - 2 * i ) }
more r.yar rule shortest { strings: $a = /[0-9].*?a.*?[0-9]/s condition: #a == 150 and for all i in (1..150) : ( @a[i] == 2 * i - 2 and !a[i] == 3 ) }
more r.yar rule jump { strings: $a = { 3? [-] 61 [-] 3? } condition: #a == 150 and for all i in (1..150) : ( @a[i] == 2 * i - 2 and !a[i] == 3 ) }
many t.bin 150 1a
many t.bin 1 2
scan r.yar t.bin
out longest t.bin
out shortest t.bin
out jump t.bin

file r.yar rule a { strings: $a = /[0-9].*a.*[0-9]/s fullword condition: $a }
many t.bin 1 1 x2.
many t.bin 200 a
many t.bin 1  3 4y
scan -s --stats r.yar t.bin
out a t.bin
out 0x0:207:$a
out hits: 200

file r.yar rule longest { strings: $a = /[0-9].*a.*[0-9]/s fullword condition: #a == 60 and for all i in (1..60) : ( @a[i] == 9 * i - 9 and !a[i] == 550 - 9 * i ) }
more r.yar rule shortest { strings: $a = /[0-9].*?a.*?[0-9]/s fullword condition: #a == 60 and for all i in (1..60) : ( @a[i] == 9 * i - 9 and !a[i] == 6 ) }
many t.bin 60 1 a x2 a.
many t.bin 1 3 4y
scan r.yar t.bin
out longest t.bin
out shortest t.bin

file r.yar rule a { strings: $a = /[0-9].*a.*[0-9]/s condition: $a }
many t.bin 1 1
many t.bin 2000 a
many t.bin 1 2
scan -s r.yar t.bin
out a t.bin
out 0x0:2002:$a

file r.yar rule a { strings: $a = /a.*b/s condition: #a == 200 and for all i in (1..200) : ( @a[i] == 2 * i - 2 and !a[i] == 402 - 2 * i ) }
more r.yar rule b { strings: $a = /b.*a/s condition: #a == 199 and for all i in (1..199) : ( @a[i] == 2 * i - 1 and !a[i] == 400 - 2 * i ) }
more r.yar rule c { strings: $a = /a.*?b/s condition: #a == 200 and for all i in (1..200) : ( @a[i] == 2 * i - 2 and !a[i] == 2 ) }
more r.yar rule d { strings: $a = /b.*?a/s condition: #a == 199 and for all i in (1..199) : ( @a[i] == 2 * i - 1 and !a[i] == 2 ) }
many t.bin 200 ab
scan r.yar t.bin
out a t.bin
out b t.bin
out c t.bin
out d t.bin

file r.yar rule longest { strings: $a = /[ab].*[0-9]/s condition: #a == 200 and for all i in (1..200) : ( @a[i] == i - 1 and !a[i] == 204 - i ) }
more r.yar rule shortest { strings: $a = /[ab].*?[0-9]/s condition: #a == 200 and for all i in (1..200) : ( @a[i] == i - 1 and !a[i] == 202 - i ) }
more r.yar rule folded { strings: $a = /B.*[0-9]/is condition: #a == 100 and for all i in (1..100) : ( @a[i] == 2 * i - 1 and !a[i] == 204 - 2 * i ) }
more r.yar rule all_of_it { strings: $a = /[ab]*/ condition: #a == 200 and for all i in (1..200) : ( @a[i] == i - 1 and !a[i] == 201 - i ) }
more r.yar rule one_by_one { strings: $a = /[ab]*?/ condition: #a == 200 and for all i in (1..200) : ( @a[i] == i - 1 and !a[i] == 1 ) }
many t.bin 100 ab
many t.bin 1 7c8
scan r.yar t.bin
out longest t.bin
out shortest t.bin
out folded t.bin
out all_of_it t.bin
out one_by_one t.bin

file r.yar rule end { strings: $a = /a.*$/s condition: #a == 200 and for all i in (1..200) : ( @a[i] == i and !a[i] == 201 - i ) }
more r.yar rule start { strings: $a = /^.*a/s $b = /^.*?a/s condition: #a == 1 and @a == 0 and !a == 201 and #b == 1 and @b == 0 and !b == 2 }
many t.bin 1 b
many t.bin 200 a
scan r.yar t.bin
out end t.bin
out start t.bin

file r.yar rule longest { strings: $a = /a.*[0-9]/s wide $b = /a.*[0-9]/s ascii wide condition: #a == 24 and #b == 24 and for all i in (1..24) : ( @a[i] == 2 * i - 2 and !a[i] == 52 - 2 * i and @b[i] == @a[i] and !b[i] == !a[i] ) }
more r.yar rule shortest { strings: $a = /a.*?[0-9]/s ascii wide condition: #a == 24 and for all i in (1..24) : ( @a[i] == 2 * i - 2 and !a[i] == 51 - 2 * i ) }
hex t.bin 61 00 61 00 61 00 61 00 61 00 61 00 61 00 61 00 61 00 61 00 61 00 61 00
hex t.bin 61 00 61 00 61 00 61 00 61 00 61 00 61 00 61 00 61 00 61 00 61 00 61 00
hex t.bin 31 00 62 00
scan r.yar t.bin
out longest t.bin
out shortest t.bin

file r.yar rule a { strings: $a = /a.*[0-9]/s wide fullword condition: #a == 24 and for all i in (1..24) : ( @a[i] == 4 * i - 2 and !a[i] == 100 - 4 * i ) }
hex t.bin 2e 00 61 00 2e 00 61 00 2e 00 61 00 2e 00 61 00 2e 00 61 00 2e 00 61 00
hex t.bin 2e 00 61 00 2e 00 61 00 2e 00 61 00 2e 00 61 00 2e 00 61 00 2e 00 61 00
hex t.bin 2e 00 61 00 2e 00 61 00 2e 00 61 00 2e 00 61 00 2e 00 61 00 2e 00 61 00
hex t.bin 2e 00 61 00 2e 00 61 00 2e 00 61 00 2e 00 61 00 2e 00 61 00 2e 00 61 00
hex t.bin 31 00 2e 00 32 00 62 00
scan r.yar t.bin
out a t.bin

file r.yar rule a { strings: $a = /a.*[0-9]/s $b = /[0-9].*a/s $c = /[0-9].*a.*[0-9]/s condition: any of them }
many t.bin 500 a
scan -s --stats r.yar t.bin
out hits: 1500"#;

/// How many rows there are.
pub const COUNT: u32 = 20;
