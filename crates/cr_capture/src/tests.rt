//! Values from what the worked texts mean in C11, never from a run.
ghost use Rattle.std.specs.Prelude.{IfSome};
ghost use Rattle.cr_capture.specs.Conflicts.{IsVisible};

use super::*;
use cr_scope::{Decl, Kind, Linkage, lookup_means};
use std::test::Fail;

const OLD: Name = Name(1);

const NEW: Name = Name(2);

// A step through a text; a declaration's token is the number of its step.
#[derive(Clone, Copy)]
enum Step {
    Enter,
    Object(Name),
    Linked(Name, Linkage),
    Typedef(Name),
    Struct(Name),
}

// What is asked at the end of the text, at the token 9, or at the last declaration of a name.
#[derive(Clone, Copy)]
enum Question {
    Mention(Name),
    NewTag(Name, u32),
    Declaration(Name),
    Ask(Name, bool),
}

// A declaration is told by the number of its step.
struct Case {
    steps: &'static [Step],
    question: Question,
    wanted: &'static [(Option<u32>, u32)],
}

fn decl(step: Step, token: u32) -> Option<Decl> {
    let (space, name, kind, linkage) = match step {
        Step::Enter => return None,
        Step::Object(name) => (Space::Ordinary, name, Kind::Object, Linkage::None),
        Step::Linked(name, linkage) => (Space::Ordinary, name, Kind::Object, linkage),
        Step::Typedef(name) => (Space::Ordinary, name, Kind::Typedef, Linkage::None),
        Step::Struct(name) => (Space::Tag, name, Kind::Struct, Linkage::None),
    };
    Some(Decl {
        space,
        name,
        token,
        kind,
        linkage,
        note: 0,
    })
}

// Takes the steps, and gives each declaration with its token.
fn walk(alloc: Global, scopes: &mut Scopes, steps: &[Step]) -> Result<Vec<(DeclNo, u32)>, Fail> {
    let mut made = Vec::new(alloc);
    let mut token: u32 = 0;
    for &step in steps {
        match decl(step, token) {
            Some(d) => made.push((scopes.declare(d)?, token))?,
            None => {
                scopes.enter()?;
            }
        }
        token = token.saturating_add(1);
    }
    Ok(made)
}

fn mention(scopes: &Scopes, question: Question) -> Option<Mention>
    ensures { IfSome result (IsVisible scopes.now) }
{
    lookup_means();
    match question {
        Question::Ask(name, parameter) => Some(Mention::Asked(name, 9, parameter)),
        Question::Mention(name) => {
            let d = scopes.lookup(Space::Ordinary, name)?;
            Some(Mention::Named(Space::Ordinary, name, 9, Some(d)))
        }
        Question::Declaration(name) => {
            let d = scopes.lookup(Space::Ordinary, name)?;
            Some(Mention::Declared(d))
        }
        Question::NewTag(name, token) => {
            let d = scopes.lookup(Space::Tag, name)?;
            if scopes.get(d).token == token {
                Some(Mention::Named(Space::Tag, name, token, None))
            } else {
                None
            }
        }
    }
}

// Whether a pair is the wanted one, by the token of its declaration.
fn is_wanted(
    made: &[(DeclNo, u32)],
    pair: &(Option<DeclNo>, u32),
    want: &(Option<u32>, u32),
) -> bool {
    pair.1 == want.1
        && match (pair.0, want.0) {
            (None, None) => true,
            (Some(d), Some(token)) => made.iter().any(|m| m.0 == d && m.1 == token),
            _ => false,
        }
}

// Whether the conflicts are those that are wanted, in any order.
fn passes(alloc: Global, case: &Case) -> Result<bool, Fail> {
    let mut scopes = Scopes::new(alloc)?;
    let made = walk(alloc, &mut scopes, case.steps)?;
    let Some(what) = mention(&scopes, case.question) else {
        return Ok(false);
    };
    let found = conflicts(alloc, &scopes, what, OLD, NEW)?;
    let none_more = found.iter().all(|pair| case
        .wanted
        .iter()
        .any(|want| is_wanted(&made, pair, want)));
    let none_less = case.wanted.iter().all(|want| found
        .iter()
        .any(|pair| is_wanted(&made, pair, want)));
    Ok(none_more && none_less)
}

static CASES: [Case; 15] = [
    // int bar; { int foo; { int foo; bar
    Case {
        steps: &[
            Step::Object(NEW),
            Step::Enter,
            Step::Object(OLD),
            Step::Enter,
            Step::Object(OLD),
        ],
        question: Question::Mention(NEW),
        wanted: &[(Some(2), 9), (Some(4), 9)],
    },
    // { int foo; { int bar; foo
    Case {
        steps: &[
            Step::Enter,
            Step::Object(OLD),
            Step::Enter,
            Step::Object(NEW),
        ],
        question: Question::Mention(OLD),
        wanted: &[(Some(1), 9)],
    },
    // int bar; { int foo; foo
    Case {
        steps: &[Step::Object(NEW), Step::Enter, Step::Object(OLD)],
        question: Question::Mention(OLD),
        wanted: &[],
    },
    // { int bar; int foo; foo
    Case {
        steps: &[Step::Enter, Step::Object(NEW), Step::Object(OLD)],
        question: Question::Mention(OLD),
        wanted: &[(Some(2), 9)],
    },
    // int foo; { struct bar; foo
    Case {
        steps: &[Step::Object(OLD), Step::Enter, Step::Struct(NEW)],
        question: Question::Mention(OLD),
        wanted: &[],
    },
    // struct foo; { struct bar *
    Case {
        steps: &[Step::Struct(OLD), Step::Enter, Step::Struct(NEW)],
        question: Question::NewTag(NEW, 2),
        wanted: &[(Some(0), 2)],
    },
    // struct bar; { struct foo *
    Case {
        steps: &[Step::Struct(NEW), Step::Enter, Step::Struct(OLD)],
        question: Question::NewTag(OLD, 2),
        wanted: &[(Some(2), 2)],
    },
    // { int foo; int bar;
    Case {
        steps: &[Step::Enter, Step::Object(OLD), Step::Object(NEW)],
        question: Question::Declaration(NEW),
        wanted: &[(Some(1), 2)],
    },
    // int foo; { int bar;
    Case {
        steps: &[Step::Object(OLD), Step::Enter, Step::Object(NEW)],
        question: Question::Declaration(NEW),
        wanted: &[],
    },
    // static int foo; { extern int bar;
    Case {
        steps: &[
            Step::Linked(OLD, Linkage::Internal),
            Step::Enter,
            Step::Linked(NEW, Linkage::External),
        ],
        question: Question::Declaration(NEW),
        wanted: &[(Some(0), 2)],
    },
    // typedef int foo; with a parameter bar
    Case {
        steps: &[Step::Typedef(OLD)],
        question: Question::Ask(NEW, true),
        wanted: &[(Some(0), 9)],
    },
    // typedef int foo; { int foo; where foo is built in
    Case {
        steps: &[Step::Typedef(OLD), Step::Enter, Step::Object(OLD)],
        question: Question::Ask(OLD, false),
        wanted: &[(Some(2), 9)],
    },
    // typedef int bar; with a parameter foo
    Case {
        steps: &[Step::Typedef(NEW)],
        question: Question::Ask(OLD, true),
        wanted: &[(None, 9)],
    },
    // typedef int foo; with a parameter foo
    Case {
        steps: &[Step::Typedef(OLD)],
        question: Question::Ask(OLD, true),
        wanted: &[(Some(0), 9)],
    },
    // int bar; { typedef int foo; { int bar; with a parameter bar
    Case {
        steps: &[
            Step::Object(NEW),
            Step::Enter,
            Step::Typedef(OLD),
            Step::Enter,
            Step::Object(NEW),
        ],
        question: Question::Ask(NEW, true),
        wanted: &[],
    },
];

#[test]
fn conflicts_are_those_of_the_texts(rt: HostRuntime) -> Result<(), Fail> {
    for case in &CASES {
        assert!(rt; passes(rt.alloc(), case)?);
    }
    Ok(())
}
