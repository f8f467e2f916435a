use crate::crename_serial;
use cr_base::PathText;
use cr_world::{DirTree, MemSink, MemTree, SystemDisk};
use std::alloc::{AllocError, Global};
use std::test::Fail;
use std::{env, fs, process};

const TWO_FUNCTIONS: &[u8] = b"int foo(void){return 0;}\nint main(void){return foo();}\n";

const TWO_FUNCTIONS_RENAMED: &[u8] = b"int bar(void){return 0;}\nint main(void){return bar();}\n";

const TWO_FUNCTIONS_REPORT: &[u8] =
    b"renamed foo to bar\nunits 1, skipped 0, files 1, edits 2\nedit a.c 4\nedit a.c 47\nfile a.c 55\nint bar(void){return 0;}\nint main(void){return bar();}\n\n";

const HIDDEN: &[u8] = b"int x;int f(void){int x=1;return x;}int y=x;";

const HIDDEN_REPORT: &[u8] =
    b"renamed x to z\nunits 1, skipped 0, files 1, edits 2\nedit a.c 4\nedit a.c 42\nfile a.c 44\nint z;int f(void){int x=1;return x;}int y=z;\n";

const INNER_REPORT: &[u8] =
    b"renamed x to z\nunits 1, skipped 0, files 1, edits 2\nedit a.c 22\nedit a.c 33\nfile a.c 44\nint x;int f(void){int z=1;return z;}int y=x;\n";

const COMMENTED: &[u8] = b"int/* foo */foo;// foo\nint f(void){return \\\nfoo;}\n";

const COMMENTED_REPORT: &[u8] =
    b"renamed foo to bar\nunits 1, skipped 0, files 1, edits 2\nedit a.c 12\nedit a.c 44\nfile a.c 50\nint/* foo */bar;// foo\nint f(void){return \\\nbar;}\n\n";

const UNBUILT: &[u8] = b"crename: unbuilt: a.c\n";

const NO_SYMBOL: &[u8] = b"crename: no symbol\n";

const TWO_UNITS: &[u8] =
    b"[{\"directory\":\"/w\",\"file\":\"a.c\",\"arguments\":[\"cc\",\"-c\",\"a.c\"]},{\"directory\":\"/w\",\"file\":\"b.c\",\"arguments\":[\"cc\",\"-c\",\"b.c\"]}]";

const IN_PLACE: &str = "-p /w/db /w/a.c --offset 4 --new-name bar -i";

#[derive(Drop)]
struct Answer {
    status: u8,
    out: MemSink,
    err: MemSink,
}

// The words of a line, split at its blanks.
fn words_of(alloc: Global, line: &str) -> Result<Vec<String>, AllocError> {
    let mut words = Vec::new(alloc);
    for word in line.split(' ') {
        words.push(String::from_str(alloc, word)?)?;
    }
    Ok(words)
}

fn path_of(alloc: Global, path: &str) -> Result<PathText, Fail> {
    Ok(PathText::normalise(alloc, &PathText::empty(alloc), path.as_bytes())?)
}

fn put(alloc: Global, tree: &mut MemTree, path: &str, text: &[u8]) -> Result<(), Fail> {
    tree.put(path_of(alloc, path)?, text.to_vec(alloc)?)?;
    Ok(())
}

fn two_units(alloc: Global, first: &[u8], second: &[u8]) -> Result<MemTree, Fail> {
    let mut tree = MemTree::new(alloc);
    put(alloc, &mut tree, "/w/db", TWO_UNITS)?;
    put(alloc, &mut tree, "/w/a.c", first)?;
    put(alloc, &mut tree, "/w/b.c", second)?;
    Ok(tree)
}

fn told_of(alloc: Global, tree: &mut MemTree, line: &str) -> Result<Answer, Fail> {
    let words = words_of(alloc, line)?;
    let mut out = MemSink::new(alloc);
    let mut err = MemSink::new(alloc);
    let status = crename_serial(alloc, &words, tree, &mut out, &mut err);
    Ok(Answer { status, out, err })
}

// Whether this was answered.
fn is(told: &Answer, status: u8, out: &[u8], err: &[u8]) -> bool {
    told.status == status && told.out.bytes() == out && told.err.bytes() == err
}

// Whether a file holds this text.
fn holds(alloc: Global, tree: &MemTree, path: &str, text: &[u8]) -> Result<bool, Fail> {
    match tree.get(&path_of(alloc, path)?) {
        Some(bytes) => Ok(bytes == text),
        None => Ok(false),
    }
}

// Words, their status and the line on `err`.
const REFUSED_WORDS: [(&str, u8, &[u8]); 19] = [
    ("--frob", 2, b"crename: usage: --frob\n"),
    (
        "a.c --offset 4 --offset 5",
        2,
        b"crename: usage: --offset\n",
    ),
    (
        "a.c --offset 4 --new-name while",
        7,
        b"crename: reserved: while\n",
    ),
    (
        "a.c --offset 4 --new-name __x",
        7,
        b"crename: reserved: __x\n",
    ),
    (
        "a.c --offset 4 --new-name _X",
        7,
        b"crename: reserved: _X\n",
    ),
    (
        "a.c --offset 4 --new-name defined",
        7,
        b"crename: reserved: defined\n",
    ),
    (
        "a.c --offset 4 --new-name 9a",
        7,
        b"crename: reserved: 9a\n",
    ),
    ("a.c --offset 4 --new-name ", 7, b"crename: reserved: \n"),
    (
        "a.c --offset 4 --new-name main",
        7,
        b"crename: reserved: main\n",
    ),
    (
        "a.c --offset 4 --new-name foo",
        7,
        b"crename: reserved: foo\n",
    ),
    (
        "a.c --offset 4 --new-name _x",
        7,
        b"crename: reserved: _x\n",
    ),
    (
        "a.c --offset 29 --new-name bar",
        7,
        b"crename: reserved: main\n",
    ),
    ("a.c --offset 3 --new-name bar", 6, NO_SYMBOL),
    ("a.c --offset 7 --new-name bar", 6, NO_SYMBOL),
    ("a.c --offset 55 --new-name bar", 6, NO_SYMBOL),
    (
        "b.c --offset 4 --new-name bar",
        20,
        b"crename: unbuilt: b.c\n",
    ),
    (
        "-p db --qualified-name foo --new-name bar",
        20,
        b"crename: unbuilt: --qualified-name\n",
    ),
    (
        "--root /w a.c --offset 4 --new-name bar",
        20,
        b"crename: unbuilt: --root\n",
    ),
    ("--generate 5", 20, b"crename: unbuilt: --generate\n"),
];

#[test]
fn words_and_names_are_refused_with_their_line(rt: HostRuntime) -> Result<(), Fail> {
    let alloc = rt.alloc();
    let mut tree = MemTree::new(alloc);
    put(alloc, &mut tree, "a.c", TWO_FUNCTIONS)?;
    let mut out = MemSink::new(alloc);
    let mut err = MemSink::new(alloc);
    let none = Vec::new(alloc);
    let status = crename_serial(alloc, &none, &mut tree, &mut out, &mut err);
    assert_eq!(rt; status, 2);
    assert_eq!(rt; err.bytes(), b"crename: usage: --new-name\n".as_slice());
    for (line, status, err) in &REFUSED_WORDS {
        let told = told_of(alloc, &mut tree, line)?;
        assert!(rt; is(&told, *status, b"", err));
    }
    Ok(())
}

// The text of `a.c`, the words, the status, and what `out` and `err` get.
const ONE_FILE: [(&[u8], &str, u8, &[u8], &[u8]); 17] = [
    (
        TWO_FUNCTIONS,
        "a.c --offset 4 --new-name bar",
        0,
        TWO_FUNCTIONS_REPORT,
        b"",
    ),
    (
        TWO_FUNCTIONS,
        "--new-name bar ./x/../a.c --offset=06",
        0,
        TWO_FUNCTIONS_REPORT,
        b"",
    ),
    (HIDDEN, "a.c --offset 4 --new-name z", 0, HIDDEN_REPORT, b""),
    (
        HIDDEN,
        "a.c --offset 42 --new-name z",
        0,
        HIDDEN_REPORT,
        b"",
    ),
    (HIDDEN, "a.c --offset 33 --new-name z", 0, INNER_REPORT, b""),
    (
        COMMENTED,
        "a.c --offset 13 --new-name bar",
        0,
        COMMENTED_REPORT,
        b"",
    ),
    (
        b"int fo\\\no;\n",
        "a.c --offset 4 --new-name bar",
        12,
        b"",
        b"crename: spelling: a.c:4\n",
    ),
    (
        b"int foo;int f(void){return fo\\\r\no+f\\\noo;}\n",
        "a.c --offset 31 --new-name bar",
        12,
        b"",
        b"crename: spelling: a.c:27\n",
    ),
    (
        b"int fo\\\no;\n",
        "a.c --offset 4 --new-name _x",
        7,
        b"",
        b"crename: reserved: _x\n",
    ),
    (
        b"# pragma x\nint foo;\n",
        "a.c --offset 15 --new-name bar",
        20,
        b"",
        UNBUILT,
    ),
    (
        b"int foo; /* x",
        "a.c --offset 4 --new-name bar",
        20,
        b"",
        UNBUILT,
    ),
    (
        b"int foo;\nint bar;\n",
        "a.c --offset 4 --new-name bar",
        20,
        b"",
        UNBUILT,
    ),
    (
        b"int foo;\nint foo(void);\n",
        "a.c --offset 4 --new-name bar",
        20,
        b"",
        UNBUILT,
    ),
    (
        b"int foo=bar;\n",
        "a.c --offset 4 --new-name baz",
        20,
        b"",
        UNBUILT,
    ),
    (
        b"int _foo;int foo;\n",
        "a.c --offset 13 --new-name baz",
        20,
        b"",
        UNBUILT,
    ),
    (
        b"int f(void){int x;int x;}",
        "a.c --offset 4 --new-name g",
        20,
        b"",
        UNBUILT,
    ),
    (
        b"extern int f;static int f;",
        "a.c --offset 11 --new-name g",
        20,
        b"",
        UNBUILT,
    ),
];

#[test]
fn one_file_is_renamed_or_refused(rt: HostRuntime) -> Result<(), Fail> {
    let alloc = rt.alloc();
    for (text, line, status, out, err) in &ONE_FILE {
        let mut tree = MemTree::new(alloc);
        put(alloc, &mut tree, "a.c", text)?;
        let told = told_of(alloc, &mut tree, line)?;
        assert!(rt; is(&told, *status, out, err));
    }
    Ok(())
}

// A database, and the line on `err`.
const BAD_DATABASES: [(&[u8], &[u8]); 4] = [
    (b"[", b"crename: database: not json\n"),
    (b"{}", b"crename: database: not array\n"),
    (b"[{}]", b"crename: database: entry 0 field directory\n"),
    (b"[3]", b"crename: database: entry 0 field object\n"),
];

#[test]
fn a_database_is_refused_with_what_is_wrong(rt: HostRuntime) -> Result<(), Fail> {
    let alloc = rt.alloc();
    let mut tree = two_units(alloc, TWO_FUNCTIONS, b"int b;\n")?;
    let absent = told_of(
        alloc,
        &mut tree,
        "-p /w/no /w/a.c --offset 4 --new-name bar",
    )?;
    assert!(rt; is(&absent, 3, b"", b"crename: database: absent\n"));
    for (database, err) in &BAD_DATABASES {
        put(alloc, &mut tree, "/w/db", database)?;
        let told = told_of(alloc, &mut tree, IN_PLACE)?;
        assert!(rt; is(&told, 3, b"", err));
    }
    assert!(rt; holds(alloc, &tree, "/w/a.c", TWO_FUNCTIONS)?);
    Ok(())
}

// Two units before and after a rename with these words, and its report.
#[derive(Drop)]
struct Renamed {
    line: &'static str,
    report: &'static [u8],
    before: (&'static [u8], &'static [u8]),
    after: (&'static [u8], &'static [u8]),
}

const STATIC_OBJECT: Renamed = Renamed {
    line: "-p /w/db /w/a.c --offset 11 --new-name bar -i",
    report: b"renamed foo to bar\nunits 2, skipped 0, files 1, edits 2\nedit /w/a.c 11\nedit /w/a.c 35\n",
    before: (
        b"static int foo;\nint a(void){return foo;}\n",
        b"int foo;\n",
    ),
    after: (
        b"static int bar;\nint a(void){return bar;}\n",
        b"int foo;\n",
    ),
};

const SHARED_FUNCTION: Renamed = Renamed {
    line: IN_PLACE,
    report: b"renamed foo to bar\nunits 2, skipped 0, files 2, edits 3\nedit /w/a.c 4\nedit /w/a.c 34\nedit /w/b.c 4\n",
    before: (
        b"int foo(void);\nint a(void){return foo();}\n",
        b"int foo(void){return 1;}\n",
    ),
    after: (
        b"int bar(void);\nint a(void){return bar();}\n",
        b"int bar(void){return 1;}\n",
    ),
};

// Whether the rename does what it should.
fn is_done(alloc: Global, case: &Renamed) -> Result<bool, Fail> {
    let mut tree = two_units(alloc, case.before.0, case.before.1)?;
    let told = told_of(alloc, &mut tree, case.line)?;
    Ok(
        is(&told, 0, case.report, b"")
            && holds(alloc, &tree, "/w/a.c", case.after.0)?
            && holds(alloc, &tree, "/w/b.c", case.after.1)?,
    )
}

#[test]
fn a_name_is_renamed_in_the_units_that_share_it(rt: HostRuntime) -> Result<(), Fail> {
    let alloc = rt.alloc();
    assert!(rt; is_done(alloc, &STATIC_OBJECT)?);
    assert!(rt; is_done(alloc, &SHARED_FUNCTION)?);
    Ok(())
}

#[test]
fn a_unit_that_is_not_built_changes_no_file(rt: HostRuntime) -> Result<(), Fail> {
    let alloc = rt.alloc();
    let first = b"int foo(void);\n".as_slice();
    let seconds: [&[u8]; 3] = [b"int bar;\n", b"#include \"a.h\"\n", b"int b\n"];
    for second in &seconds {
        let mut tree = two_units(alloc, first, second)?;
        let told = told_of(alloc, &mut tree, IN_PLACE)?;
        assert!(rt; is(&told, 20, b"", b"crename: unbuilt: /w/b.c\n"));
        assert!(rt; holds(alloc, &tree, "/w/a.c", first)?);
    }
    Ok(())
}

// The text of the second unit, the status, and the line on `err`.
const JOINED_NAMES: [(&[u8], u8, &[u8]); 2] = [
    (
        b"int f\\\noo(void);\n",
        12,
        b"crename: spelling: /w/b.c:4\n",
    ),
    (
        b"int f\\\noo(void);int bar;\n",
        20,
        b"crename: unbuilt: /w/b.c\n",
    ),
];

#[test]
fn a_name_over_a_joined_line_changes_no_file(rt: HostRuntime) -> Result<(), Fail> {
    let alloc = rt.alloc();
    let first = b"int foo(void);\n".as_slice();
    for (second, status, err) in &JOINED_NAMES {
        let mut tree = two_units(alloc, first, second)?;
        let told = told_of(alloc, &mut tree, IN_PLACE)?;
        assert!(rt; is(&told, *status, b"", err));
        assert!(rt; holds(alloc, &tree, "/w/a.c", first)?);
    }
    Ok(())
}

#[test]
fn a_failed_read_or_replace_is_told_with_its_path(rt: HostRuntime) -> Result<(), Fail> {
    let alloc = rt.alloc();
    let case = SHARED_FUNCTION;
    let mut tree = two_units(alloc, case.before.0, case.before.1)?;
    tree.fail_read(2)?;
    let told = told_of(alloc, &mut tree, IN_PLACE)?;
    assert!(rt; is(&told, 4, b"", b"crename: read fault: /w/a.c\n"));
    tree.fail_replace(2)?;
    let told = told_of(alloc, &mut tree, IN_PLACE)?;
    assert!(rt;
        is(
            &told,
            16,
            b"",
            b"crename: write fault: /w/b.c after 1 files\n"
        )
    );
    assert!(rt; holds(alloc, &tree, "/w/a.c", case.after.0)?);
    Ok(())
}

#[test]
fn a_failed_output_is_told(rt: HostRuntime) -> Result<(), Fail> {
    let alloc = rt.alloc();
    let words = words_of(alloc, "a.c --offset 4 --new-name bar")?;
    let mut tree = MemTree::new(alloc);
    put(alloc, &mut tree, "a.c", TWO_FUNCTIONS)?;
    let mut out = MemSink::new(alloc);
    out.fail_write(1)?;
    let mut err = MemSink::new(alloc);
    let status = crename_serial(alloc, &words, &mut tree, &mut out, &mut err);
    assert_eq!(rt; status, 18);
    assert_eq!(rt; err.bytes(), b"crename: output fault\n".as_slice());
    Ok(())
}

#[test]
fn a_real_file_is_written_in_place(rt: HostRuntime) -> Result<(), Fail> {
    let alloc = rt.alloc();
    let temp = env::temp_dir(&rt)?;
    let number = process::id(rt.process());
    let base = format!(in alloc; "{}/cr_run-{number}", temp.display())?;
    fs::create_dir(&rt, base.as_str())?;
    let path = format!(in alloc; "{base}/a.c")?;
    fs::write(&rt, path.as_str(), TWO_FUNCTIONS)?;
    let line = format!(in alloc; "{path} --offset 47 --new-name bar -i")?;
    let words = words_of(alloc, line.as_str())?;
    let mut tree = DirTree::new(alloc, SystemDisk::new(&rt));
    let mut out = MemSink::new(alloc);
    let mut err = MemSink::new(alloc);
    let status = crename_serial(alloc, &words, &mut tree, &mut out, &mut err);
    let want = format!(in alloc;
        "renamed foo to bar\nunits 1, skipped 0, files 1, edits 2\nedit {path} 4\nedit {path} 47\n"
    )?;
    assert_eq!(rt; status, 0);
    assert_eq!(rt; out.bytes(), want.as_bytes());
    assert_eq!(rt; err.bytes(), b"".as_slice());
    let now = fs::read_to_string(&rt, path.as_str())?;
    assert_eq!(rt; now.as_bytes(), TWO_FUNCTIONS_RENAMED);
    fs::remove_dir_all(&rt, base.as_str())?;
    Ok(())
}
