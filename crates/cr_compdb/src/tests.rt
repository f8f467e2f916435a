use super::*;
use cr_base::{List, PathText, Unit};
use std::alloc::Global;
use std::test::Fail;

fn push_paths(out: &mut Vec<u8>, name: &[u8], paths: &List<PathText>) -> Result<(), Fail> {
    for path in paths.items() {
        out.extend_from_slice(name)?;
        out.extend_from_slice(path.bytes())?;
    }
    Ok(())
}

fn push_unit(out: &mut Vec<u8>, unit: &Unit) -> Result<(), Fail> {
    out.extend_from_slice(unit.main.bytes())?;
    out.extend_from_slice(b" in ")?;
    out.extend_from_slice(unit.directory.bytes())?;
    push_paths(out, b" quote ", &unit.quote_dirs)?;
    push_paths(out, b" dir ", &unit.dirs)?;
    push_paths(out, b" system ", &unit.system_dirs)?;
    out.extend_from_slice(b"\n")?;
    out.extend_from_slice(unit.words.bytes())?;
    Ok(())
}

// The entries as a text, in which `skip` stands before a skipped file.
fn shown(alloc: Global, entries: &[Entry]) -> Result<Vec<u8>, Fail> {
    let mut out = Vec::new(alloc);
    for entry in entries {
        match entry {
            Entry::Unit(unit) => push_unit(&mut out, unit)?,
            Entry::Skipped(_, path) => {
                out.extend_from_slice(b"skip ")?;
                out.extend_from_slice(path.bytes())?;
                out.extend_from_slice(b"\n")?;
            }
        }
    }
    Ok(out)
}

#[test]
fn reads_the_entries_of_a_database(rt: HostRuntime) -> Result<(), Fail> {
    let alloc = rt.alloc();
    let rows: [(&str, &str); 8] = [
        ("[]", ""),
        (
            r#"[{"directory":"/w","file":"a.c","arguments":["cc","-c","a.c"]},
                {"directory":"/w","file":"b.c","arguments":["cc","-c","b.c"],"output":"b.o"}]"#,
            "/w/a.c in /w\n/w/b.c in /w\n",
        ),
        // each option that is read, in one word and in two; the last `-x` has no value
        (
            r#"[{"directory":"/w","file":"a.c","arguments":["cc","-Ia","-I","/b/../c","-iquoteq",
                "-iquote","r","-isystems","-isystem","t","-DX","-D","Y=1=2","-UZ","-include","f.h",
                "-U","W","-o","-DN","-MF","-I","-MT","x","-MQ","y","-includez","-Wall","-x"]}]"#,
            "/w/a.c in /w quote /w/q quote /w/r dir /w/a dir /c system /w/s system /w/t\n#define X 1 \n#define Y 1=2 \n#undef Z \n#undef W \n#include \"f.h\" \n",
        ),
        // the last `-x` decides, and else the file's name; a skipped file is named from its directory
        (
            r#"[{"directory":"/w","file":"a.cc","arguments":["cc","-xc++","-x","c"]},
                {"directory":"/w","file":"a.c","arguments":["cc","-xc","-xc++"]},
                {"directory":"v/../u","file":"../b.h","arguments":[]}]"#,
            "/w/a.cc in /w\nskip /w/a.c\nskip b.h\n",
        ),
        // quotes and backslashes of a command, and an empty word
        (
            r#"[{"directory":"/w","file":"a.c",
                "command":"cc\t-D'A=b  \\c' \"-DB=\\\"\\\\\\$\\`\\q'\" -DC\\ D\\' -I '' -D\"E\"=f'g'\r\n-U\"h\\\ni\""}]"#,
            "/w/a.c in /w dir /w\n#define A b  \\c \n#define B \"\\$`\\q' \n#define C D' 1 \n#define E fg \n#undef h i \n",
        ),
        // the first `=` alone is parted, and a line feed is a blank
        (
            r#"[{"directory":"/w","file":"a.c","arguments":["cc","-DF(x)=x\n=y","-D=","-include","a\nb"]}]"#,
            "/w/a.c in /w\n#define F(x) x =y \n#define   \n#include \"a b\" \n",
        ),
        // `arguments` is taken before `command`
        (
            r#"[{"directory":"/w","file":"a.c","command":"cc -DX '","arguments":["cc","-DY"]}]"#,
            "/w/a.c in /w\n#define Y 1 \n",
        ),
        // the last of two equal members stands
        (
            r#"[{"directory":1,"directory":"/v","file":"/w/a.c","arguments":["-DX"]}]"#,
            "/w/a.c in /v\n",
        ),
    ];
    for (text, want) in rows {
        let entries = read_db(alloc, text.as_bytes())?;
        let found = shown(alloc, &entries)?;
        assert_eq!(rt; found.as_slice(), want.as_bytes());
    }
    Ok(())
}

#[test]
fn names_the_first_fault(rt: HostRuntime) -> Result<(), Fail> {
    let alloc = rt.alloc();
    let rows: [(&[u8], DbFault); 18] = [
        (b"[", DbFault::NotJson),
        (b"", DbFault::NotJson),
        (b"[\"\xff\"]", DbFault::NotJson),
        (b"\xef\xbb\xbf[]", DbFault::NotJson),
        (b"[1e999]", DbFault::NotJson),
        (b"{}", DbFault::NotArray),
        (b"[1]", DbFault::Field(0, FieldName::Object)),
        (b"[{}]", DbFault::Field(0, FieldName::Directory)),
        (
            br#"[{"directory":"/w","file":1}]"#,
            DbFault::Field(0, FieldName::File),
        ),
        (
            br#"[{"directory":"/w","file":"a.c"}]"#,
            DbFault::Field(0, FieldName::Words),
        ),
        (
            br#"[{"directory":"/w","file":"a.c","arguments":["cc",1]}]"#,
            DbFault::Field(0, FieldName::Words),
        ),
        (
            br#"[{"directory":"/w","file":"a.c","arguments":"cc","command":"cc"}]"#,
            DbFault::Field(0, FieldName::Words),
        ),
        (
            br#"[{"directory":"/w","file":"a.c","command":1}]"#,
            DbFault::Field(0, FieldName::Words),
        ),
        (
            br#"[{"directory":"/w","file":"a.c","command":"cc 'a"}]"#,
            DbFault::Quote(0),
        ),
        (
            br#"[{"directory":"/w","file":"a.c","command":"cc \"a\\"}]"#,
            DbFault::Quote(0),
        ),
        (
            br#"[{"directory":"/w","file":"a.c","command":"cc a\\"}]"#,
            DbFault::Quote(0),
        ),
        (
            br#"[{"directory":"/w","file":"a.h","command":"cc"},{"directory":"/w","file":"b.h"}]"#,
            DbFault::Field(1, FieldName::Words),
        ),
        (
            br#"[{"directory":"/w","file":"a.c","command":"'"},1]"#,
            DbFault::Quote(0),
        ),
    ];
    for (text, want) in rows {
        match read_db(alloc, text) {
            Ok(_) => assert!(rt; false),
            Err(fault) => assert_eq!(rt; fault, want),
        }
    }
    Ok(())
}

// An array of so many zeros, or of so many arrays inside one another.
fn zeros(alloc: Global, count: usize) -> Result<Vec<u8>, Fail> {
    let mut text = b"[0".to_vec(alloc)?;
    for _ in 1..count {
        text.extend_from_slice(b",0")?;
    }
    text.push(b']')?;
    Ok(text)
}

fn nested(alloc: Global, depth: usize) -> Result<Vec<u8>, Fail> {
    let mut text = vec![in alloc; b'['; depth]?;
    for _ in 0..depth {
        text.push(b']')?;
    }
    Ok(text)
}

#[test]
fn keeps_the_limits(rt: HostRuntime) -> Result<(), Fail> {
    let alloc = rt.alloc();
    let rows = [
        (zeros(alloc, 16_384)?, DbFault::Field(0, FieldName::Object)),
        (zeros(alloc, 16_385)?, DbFault::LimitUnits),
        (nested(alloc, 127)?, DbFault::Field(0, FieldName::Object)),
        (nested(alloc, 128)?, DbFault::NotJson),
    ];
    for (text, want) in rows {
        match read_db(alloc, &text) {
            Ok(_) => assert!(rt; false),
            Err(fault) => assert_eq!(rt; fault, want),
        }
    }
    Ok(())
}
