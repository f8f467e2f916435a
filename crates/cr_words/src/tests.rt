use crate::{Aim, QualifiedName, Task, WordsFault, read_words};
use cr_base::TagKind;
use std::alloc::{AllocError, Global};
use std::test::Fail;

// The words of a line, split at its blanks; `~` stands for a blank in a word.
fn words_of(alloc: Global, line: &str) -> Result<Vec<String>, AllocError> {
    let mut words = Vec::new(alloc);
    for word in line.split(' ') {
        let mut text = String::new(alloc);
        for part in word.chars() {
            text.push(if part == '~' { ' ' } else { part })?;
        }
        words.push(text)?;
    }
    Ok(words)
}

fn fault_of<'a>(alloc: Global, words: &'a [String]) -> Option<&'a [u8]> {
    match read_words(alloc, words) {
        Err(WordsFault::Usage(word)) => Some(word),
        _ => None,
    }
}

#[test]
fn the_word_that_is_wrong_or_missing_is_named(rt: HostRuntime) -> Result<(), Fail> {
    let alloc = rt.alloc();
    let cases: [(&str, &str); 22] = [
        ("--frob", "--frob"),
        ("a.c --offset 4 --offset 5", "--offset"),
        ("a.c --offset 4 --offset=5", "--offset=5"),
        ("a.c --offset 4", "--new-name"),
        ("a.c --new-name bar", "--offset"),
        ("--offset 4 --new-name bar", "SOURCE"),
        ("--qualified-name f --new-name bar", "SOURCE"),
        (
            "a.c --offset 4 --qualified-name f --new-name bar",
            "--offset",
        ),
        ("-p db a.c --qualified-name f --new-name bar", "a.c"),
        ("a.c --offset x --new-name bar", "--offset"),
        ("a.c --offset=x --new-name bar", "--offset=x"),
        ("a.c --offset 4294967296 --new-name bar", "--offset"),
        ("a.c --offset 4 --new-name", "--new-name"),
        ("a.c --new-name --offset 4", "--new-name"),
        ("-p - --qualified-name f --new-name bar", "-p"),
        ("-p db --database db", "--database"),
        ("a.c b.c", "b.c"),
        ("-- -a -b", "-b"),
        ("--workers 17", "--workers"),
        ("--qualified-name enum~e::x", "--qualified-name"),
        ("--generate 5 -i", "--generate"),
        ("--generate 5 --", "--generate"),
    ];
    let none = Vec::new(alloc);
    let fault = fault_of(alloc, &none).ok_or("the words were taken")?;
    assert_eq!(rt; fault, b"--new-name".as_slice());
    for (line, want) in &cases {
        let words = words_of(alloc, line)?;
        let fault = fault_of(alloc, &words).ok_or("the words were taken")?;
        assert_eq!(rt; fault, want.as_bytes());
    }
    Ok(())
}

#[test]
fn options_come_in_any_order_and_with_an_equals_sign(rt: HostRuntime) -> Result<(), Fail> {
    let alloc = rt.alloc();
    let lines = [
        "a.c --offset 4 --new-name=- -i -p db --workers 16",
        "--new-name=- -i --offset=04 --workers=16 --database=db -- a.c",
    ];
    for line in &lines {
        let words = words_of(alloc, line)?;
        let request = read_words(alloc, &words).ok().ok_or("refused")?;
        assert_eq!(rt; request.pooling.workers, 16);
        assert_eq!(rt; request.pooling.retries, 2);
        assert!(rt; request.pooling.rehearse.is_none());
        let Task::Rename(rename) = request.task else {
            return Err(Fail::from("no rename"));
        };
        assert_eq!(rt; rename.new_name, b"-".as_slice());
        assert!(rt; rename.in_place);
        assert!(rt; rename.root.is_none());
        let Aim::Offset(source, offset, database) = rename.aim else {
            return Err(Fail::from("no offset"));
        };
        assert_eq!(rt; source, b"a.c".as_slice());
        assert_eq!(rt; offset, 4);
        assert_eq!(rt; database.ok_or("no database")?, b"db".as_slice());
    }
    Ok(())
}

#[test]
fn members_are_named_by_their_tag(rt: HostRuntime) -> Result<(), Fail> {
    let alloc = rt.alloc();
    let line = "-p db --qualified-name struct~list::next --new-name link";
    let words = words_of(alloc, line)?;
    let request = read_words(alloc, &words).ok().ok_or("refused")?;
    let Task::Rename(rename) = request.task else {
        return Err(Fail::from("no rename"));
    };
    let Aim::NameInDatabase(_, QualifiedName::Member(TagKind::Struct, tag, name)) = rename.aim
    else {
        return Err(Fail::from("no member"));
    };
    assert_eq!(rt; tag, b"list".as_slice());
    assert_eq!(rt; name, b"next".as_slice());
    Ok(())
}
