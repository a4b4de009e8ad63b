//! What is too long, too many or too heavy.

/// What stands before each row.
pub const FILES: &str = r#"file r.yar rule a { condition: filesize == 268435456 }
file e.yar
file t.bin"#;

/// The rows.
pub const ROWS: &str = r#"file r.yar rule x { condition: for any i in (0..999999) : ( true ) }
more r.yar rule y { condition: for any i in (0..268435457) : ( true ) }
scan r.yar t.bin
out x t.bin

zeros t.bin 268435457
run scan r.yar t.bin
err t.bin: too long
status 7

zeros r.yar 16777217
run check r.yar
err r.yar: TextTooLong
status 2

file r.yar rule x { strings:
many r.yar 35  $ = /a{30000}/
many r.yar 1  condition: any of them }
run check r.yar
err r.yar:1: TooHeavy x
status 2

file r.yar rule x { strings:
many r.yar 65536  $ = "a"
many r.yar 1  condition: any of them }
run check r.yar
err r.yar:1: TooMany x
status 2

run check e.yar n=*33554400
err TooHeavy
status 2

run check e.yar n=*33554399
out rules 0, strings 0"#;

/// How many rows there are.
pub const COUNT: u32 = 7;
