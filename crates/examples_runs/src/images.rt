//! Images that the program wrote, and images that anybody made.

use std::alloc::{AllocError, Global};

/// What stands before each row.
pub const FILES: &str = r#"file r.yar rule a { strings: $a = /a+/ condition: any of them }
file v.yar rule v { condition: n > 4 and name iequals "ABC" }
file t.bin baaa
file s.img
hex s.img 59 52 49 01 99 00 00 00 01
zeros s.img 153
byte s.img 40 01
byte s.img 56 02 00 00 00 01
byte s.img 68 01
byte s.img 92 02
byte s.img 120 03 01
byte s.img 152 61
file x.img
hex x.img 59 52 49 01 ca 00 00 00 01
zeros x.img 202
byte x.img 20 01 00 00 00 01
byte x.img 40 01
byte x.img 56 02 00 00 00 02
byte x.img 68 01
byte x.img 84 01
byte x.img 92 02
byte x.img 96 01 00 00 00 01
byte x.img 121 01
byte x.img 168 0a
byte x.img 200 61 78
file n.img
hex n.img 59 52 49 02 a2 00 00 00 01
zeros n.img 162
byte n.img 40 01
byte n.img 56 02 00 00 00 02
byte n.img 68 01
byte n.img 92 02
byte n.img 96 01 00 00 00 01
byte n.img 128 03 01
byte n.img 160 61 6e
file u.img
hex u.img 59 52 49 01 52 01 00 00 01
zeros u.img 338
byte u.img 20 01 00 00 00 02
byte u.img 40 04 00 00 00 03 00 00 00 02
byte u.img 56 02 00 00 00 02
byte u.img 68 01
byte u.img 84 01
byte u.img 92 02
byte u.img 96 01 00 00 00 01
byte u.img 121 02
byte u.img 153 01
byte u.img 180 02
byte u.img 200 02 00 00 00 01 00 00 00 00 00 00 00 01
byte u.img 224 03
byte u.img 236 01
byte u.img 244 01
byte u.img 248 03 00 00 00 00 00 00 00 02 00 00 00 02 00 00 00 01 00 00 00 01
byte u.img 272 61 00 00 00 01 00 00 00 62 00 00 00 02 00 00 00 62 00 00 00 03
byte u.img 296 01
byte u.img 304 0a
byte u.img 336 61 78
file b.img
hex b.img 59 52 49 01 b9 00 00 00 01
zeros b.img 185
byte b.img 40 01
byte b.img 56 04 00 00 00 01
byte b.img 68 01
byte b.img 92 04
byte b.img 120 03 01
byte b.img 136 1d 00 00 00 03
byte b.img 152 03 01
byte b.img 184 61
file m.img
hex m.img 59 52 49 01 a9 00 00 00 01
zeros m.img 169
byte m.img 36 01 00 00 00 01
byte m.img 56 02 00 00 00 01
byte m.img 68 01
byte m.img 92 02
byte m.img 136 03 01
byte m.img 168 61"#;

/// The rows.
pub const ROWS: &str = r#"run compile r.yar r.img
run scan -C -s r.img t.bin
out a t.bin
out 0x1:3:$a
out 0x2:2:$a
out 0x3:1:$a

file r.yar rule a { strings: $a = "ab" condition: $a }
run compile r.yar r.img
holds r.img 0 59 52 49 02
holds r.img 8 01 00 00 00
holds r.img 20 01 00 00 00

file r.yar
run compile r.yar r.img
holds r.img 8 00 00 00 00
holds r.img 40 01 00 00 00

file r.yar
run compile r.yar r.img
run scan -C -c r.img t.bin
out 0

file r.img
run scan -C r.img t.bin
err r.img: TooShort
status 3

run scan -C r.yar no.bin
err r.yar: TooShort
status 3

run compile v.yar v.img n=5 name=abc
run scan -C v.img t.bin
out v t.bin

run compile v.yar v.img n=5 name=abc
run scan -C v.img t.bin n=3

run compile v.yar v.img n=5 name=abc
run scan -C v.img t.bin name=x n=9

run compile v.yar v.img n=5 name=abc
run scan -C v.img t.bin n=x
err external n: Kind
status 8

run compile v.yar v.img n=5 name=abc
run scan -C v.img no.bin k=1 n=x
err external k: Unknown
status 8

run compile v.yar v.img n=5 name=abc
run scan -C no.img no.bin k=1 k=x
err external k: Twice
status 8

run scan -C no.img no.bin k=1
err cannot read no.img
status 4

run scan -C s.img t.bin
out a t.bin

run scan -C -e s.img t.bin
out default:a t.bin

run scan -C -e n.img t.bin
out n:a t.bin

file t.bin x
run scan -C --stats x.img t.bin
out hits: 0

run scan -C a:s.img t.bin
err cannot read a:s.img
status 4

byte s.img 3 02
run scan -C s.img t.bin
err s.img: Section 12
status 3

byte s.img 3 03
run scan -C s.img t.bin
err s.img: Version
status 3

byte s.img 0 58
run scan -C s.img t.bin
err s.img: Magic
status 3

byte s.img 4 98
run scan -C s.img t.bin
err s.img: Length
status 3

byte s.img 56 03
run scan -C s.img t.bin
err s.img: Section 12
status 3

byte s.img 40 00
run scan -C s.img t.bin
err s.img: Section 8
status 3

byte s.img 68 02
run scan -C s.img t.bin
err s.img: Index 0 0
status 3

byte s.img 152 31
run scan -C s.img t.bin
err s.img: Name 0 0
status 3

byte n.img 161 31
run scan -C n.img t.bin
err n.img: Name 0 0
status 3

byte s.img 120 06 00
run scan -C s.img t.bin
err s.img: Code 0 0
status 3

byte s.img 120 19 00
run scan -C s.img no.bin
err s.img: Code 0 0
status 3

byte s.img 121 02
run scan -C s.img t.bin
err s.img: Code 0 0
status 3

byte s.img 137 01
run scan -C s.img t.bin
err s.img: Code 0 1
status 3

byte s.img 108 01
run scan -C s.img t.bin
err s.img: Node 0
status 3

byte s.img 36 01
run scan -C s.img t.bin
err s.img: Section 12
status 3

byte x.img 121 05
run scan -C x.img t.bin
err x.img: Index 4 0
status 3

run scan s.img -sC t.bin
out a t.bin

run scan -CC -n s.img t.bin

run scan -C -c --stats s.img t.bin
out 1
out hits: 0

file b=c x
run scan -C s.img b=c
out a b=c

run scan -C r.yar t.bin k=1
err r.yar: TooShort
status 3

run compile v.yar v.img n=5 name=abc
run scan -C v.img t.bin name=5
err external name: Kind
status 8

run compile v.yar v.img n=5 name=abc
run scan -C v.img t.bin n=true
err external n: Kind
status 8

file g.yar global rule g { condition: filesize < 3 }
run compile p:g.yar q:r.yar p:r.yar r.img
run scan -C -e -n r.img t.bin

file g.yar global rule g { condition: filesize < 3 }
run compile p:g.yar q:r.yar p:r.yar r.img
run scan -C -e r.img t.bin
out q:a t.bin

byte s.img 3 00
run scan -C s.img t.bin
err s.img: Version
status 3

hex s.img 00
run scan -C s.img t.bin
err s.img: Length
status 3

hex s.img 00
byte s.img 4 9a
run scan -C s.img t.bin
err s.img: Section 13
status 3

byte s.img 92 01
run scan -C s.img t.bin
err s.img: Index 0 0
status 3

byte s.img 72 01
run scan -C s.img t.bin
err s.img: Index 0 0
status 3

byte x.img 108 01
run scan -C x.img t.bin
err x.img: Index 3 0
status 3

byte x.img 112 01
run scan -C x.img t.bin
err x.img: Index 4 0
status 3

byte x.img 201 2d
run scan -C x.img t.bin
err x.img: Name 3 0
status 3

file t.bin ab
run scan -C -s --stats u.img t.bin
out a t.bin
out 0x0:2:$x
out 0x1:1:$x
out hits: 2

file t.bin ab
byte u.img 256 00
run scan -C -s --stats u.img t.bin
out a t.bin
out 0x0:2:$x
out hits: 1

byte u.img 256 03
run scan -C u.img t.bin
err u.img: Node 3
status 3

byte u.img 208 01
run scan -C u.img t.bin
err u.img: Node 1
status 3

byte u.img 296 00
run scan -C u.img t.bin
err u.img: Node 2
status 3

byte u.img 272 62
run scan -C u.img t.bin
err u.img: Node 0
status 3

byte u.img 273 01
run scan -C u.img t.bin
err u.img: Index 9 0
status 3

byte u.img 296 02
run scan -C u.img t.bin
err u.img: Index 10 0
status 3

run scan -C b.img t.bin
out a t.bin

byte b.img 152 01 00
run scan -C b.img t.bin
err b.img: Code 0 3
status 3

byte b.img 140 02
run scan -C b.img t.bin
err b.img: Code 0 1
status 3

byte b.img 140 05
run scan -C b.img t.bin
err b.img: Code 0 1
status 3

run scan -C m.img t.bin
err m.img: ProgramBad 0
status 3"#;

/// How many rows there are.
pub const COUNT: u32 = 64;

/// A row for the first sample, and one for each shorter length of it.
pub fn cuts(alloc: Global) -> Result<String, AllocError> {
    let mut rows = String::from_str(alloc, "run scan -C s.img t.bin\nout a t.bin")?;
    for size in 0..153 {
        let name = if size < 64 { "TooShort" } else { "Length" };
        let row = format!(in alloc;
            "\n\ncut s.img {size}\nrun scan -C s.img t.bin\nerr s.img: {name}\nstatus 3"
        )?;
        rows.push_str(row.as_str())?;
    }
    Ok(rows)
}
