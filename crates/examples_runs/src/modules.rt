//! Fields of files and digests.

/// What stands before each row.
pub const FILES: &str = r#"file t.bin abc
file t.elf
hex t.elf 7f 45 4c 46 02 01 01
zeros t.elf 320
byte t.elf 16 02 00 3e 00 01
byte t.elf 26 40
byte t.elf 40 80
byte t.elf 52 40 00 38 00 00 00 40 00 03 00 02 00
byte t.elf 64 2f 62 69 6e 2f 73 68
byte t.elf 72 6c 64 5f 70 72 65 6c 6f 61 64
byte t.elf 83 68 74 74 70 3a 2f 2f 61 62 2e 63 64 2f 78
byte t.elf 98 48 31 c0 0f 05
byte t.elf 105 2e 74 65 78 74 00 2e 73 68 73 74 72 74 61 62
byte t.elf 192 01 00 00 00 01 00 00 00 06 00 00 00 00 00 00 00 00 00 40 00 00 00 00 00 40 00 00 00 00 00 00 00 28
byte t.elf 256 07 00 00 00 03 00 00 00 00 00 00 00 00 00 00 00 00 00 00 00 00 00 00 00 68 00 00 00 00 00 00 00 11
file t.exe MZ
zeros t.exe 148
byte t.exe 60 40
byte t.exe 64 50 45 00 00 4c 01 01 00
byte t.exe 84 14 00 02 00
byte t.exe 88 0b 01
byte t.exe 104 10 10
byte t.exe 108 2e 74 65 78 74
byte t.exe 116 00 01
byte t.exe 120 00 10
byte t.exe 124 00 02
byte t.exe 128 00 02
byte t.exe 144 20 00 00 60
file h.bin
hex h.bin 7f 45 4c 46 02 01 01
zeros h.bin 64
byte h.bin 16 02 00 3e 00"#;

/// The rows.
pub const ROWS: &str = r#"file r.yar import "elf"
more r.yar rule h1 { condition: elf.type == elf.ET_EXEC }
more r.yar rule h2 { condition: defined elf.sections[0].size }
scan r.yar h.bin
out h1 h.bin

file r.yar import "elf"
more r.yar rule h1 { condition: elf.type == elf.ET_EXEC }
more r.yar rule h2 { condition: defined elf.sections[0].size }
cut h.bin 63
scan r.yar h.bin

file r.yar import "elf"
more r.yar rule h1 { condition: defined elf.type }
more r.yar rule h2 { condition: elf.ET_EXEC == 2 }
more r.yar rule h3 { condition: defined for any s in elf.sections : ( true ) }
scan r.yar t.bin
out h2 t.bin

file r.yar import "elf"
more r.yar rule Sample_Loader : linux loader {
more r.yar   meta:
more r.yar     author = "analyst"
more r.yar     date = "2024-05-01"
more r.yar     score = 80
more r.yar   strings:
more r.yar     $s1 = "/bin/sh" fullword
more r.yar     $s2 = "LD_PRELOAD" wide ascii nocase
more r.yar     $s3 = "ptrace"
more r.yar     $s4 = "/etc/shadow"
more r.yar     $s5 = "socket" xor
more r.yar     $s6 = "cmd.exe" base64
more r.yar     $s7 = /https?:\/\/[a-z0-9.]{3,40}\/[a-z]{1,20}/
more r.yar     $s8 = "elf_loader" fullword ascii
more r.yar     $h1 = { 48 31 C? ( 0F 05 | CD 80 ) }
more r.yar     $h2 = { 7F 45 4C 46 [12-20] ~02 }
more r.yar   condition:
more r.yar     uint32(0) == 0x464c457f and filesize < 5MB
more r.yar     and elf.machine == elf.EM_X86_64
more r.yar     and (2 of ($s*) or any of ($h*))
more r.yar     and for any s in elf.sections : ( s.name == ".text" )
more r.yar }
scan -s -g -m r.yar t.elf
out Sample_Loader [linux,loader] [author="analyst",date="2024-05-01",score=80] t.elf
out 0x40:7:$s1
out 0x48:10:$s2
out 0x53:14:$s7
out 0x62:5:$h1
out 0x0:18:$h2

file r.yar import "elf"
more r.yar rule e1 { condition: not defined elf.entry_point }
more r.yar rule e2 { condition: elf.number_of_sections == 3 }
more r.yar rule e3 { condition: elf.sections[1].flags & elf.SHF_EXECINSTR != 0 }
more r.yar rule e4 { condition: defined elf.sections[0].name and elf.sections[0].name == "" }
more r.yar rule e5 { condition: for all p in elf.segments : ( false ) }
more r.yar rule e6 { condition: for 2 s in elf.sections : ( s.size > 0x10 ) }
scan r.yar t.elf
out e1 t.elf
out e2 t.elf
out e3 t.elf
out e4 t.elf
out e5 t.elf
out e6 t.elf

file r.yar import "hash"
more r.yar rule m { condition: hash.md5(0, filesize) == "900150983cd24fb0d6963f7d28e17f72" }
more r.yar rule s { condition: hash.sha1(0, 3) == "a9993e364706816aba3e25717850c26c9cd0d89d" }
more r.yar rule t { condition: hash.sha256(0, 3) == "ba7816bf8f01cfea414140de5dae2223b00361a396177a9cb410ff61f20015ad" }
more r.yar rule n { condition: hash.md5(3, 0) == "d41d8cd98f00b204e9800998ecf8427e" }
more r.yar rule u { condition: defined hash.md5(1, 3) or defined hash.md5(-1, 1) }
scan r.yar t.bin
out m t.bin
out s t.bin
out t t.bin
out n t.bin

file r.yar import "hash" rule x { condition: hash.md5("abc") == "x" }
scan r.yar t.bin
err r.yar:1: WrongType x
status 2

file r.yar import "hash" rule x { condition: hash.crc32(0, 3) == 0 }
scan r.yar t.bin
err r.yar:1: UnknownName x crc32
status 2

file r.yar import "pe"
more r.yar rule p1 { condition: pe.machine == pe.MACHINE_I386 and pe.number_of_sections == 1 and pe.entry_point == 0x210 }
more r.yar rule p2 { condition: for any s in pe.sections : ( s.name == ".text" and s.characteristics & pe.SECTION_MEM_EXECUTE != 0 ) }
more r.yar rule p3 { condition: defined pe.machine }
scan r.yar t.exe
out p1 t.exe
out p2 t.exe
out p3 t.exe

file r.yar import "pe" rule p3 { condition: defined pe.machine and not defined pe.entry_point }
cut t.exe 147
scan r.yar t.exe
out p3 t.exe

file r.yar import "pe" rule p3 { condition: defined pe.machine }
cut t.exe 87
scan r.yar t.exe

file r.yar import "pe" import "elf"
more r.yar rule b { condition: not defined pe.machine and defined elf.machine }
scan r.yar t.elf
out b t.elf"#;

/// How many rows there are.
pub const COUNT: u32 = 12;
