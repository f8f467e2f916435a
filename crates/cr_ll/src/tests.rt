ghost use Rattle.std.specs.Prelude.{◌≡◌, ◌≤◌, ◌^◌, None, length};

use crate::{Event, Machine, MachineFault};
use cr_base::{
    NameTable, Origin, OutOfMemory, PathNo, Place, Tok, TokKind, is_digit, is_keyword, starts_name,
};
use cr_grammar::Action;
use std::alloc::Global;
use std::test::Fail;

fn kind_of(word: &[u8]) -> TokKind {
    match word {
        [] => TokKind::End,
        [b'"', ..] => TokKind::Str,
        [first, ..] if is_digit(*first) => TokKind::Constant,
        [first, ..] if !starts_name(*first) => TokKind::Punct,
        _ if is_keyword(word) => TokKind::Keyword,
        _ => TokKind::Ident,
    }
}

#[derive(Drop)]
struct Text {
    names: NameTable,
    tokens: Vec<Tok>,
}

impl Text {
    fn push(&mut self, word: &[u8]) -> Result<(), OutOfMemory> {
        if self.names.len() > 1000 {
            return Err(OutOfMemory);
        }
        let text = self.names.intern(word)?;
        let site = Place {
            path: PathNo(0),
            offset: 0,
        };
        self.tokens.push(Tok {
            kind: kind_of(word),
            text,
            origin: Origin::At(site),
            site,
        })?;
        Ok(())
    }

    // The words of a text, which blanks part.
    fn push_all(&mut self, words: &[u8]) -> Result<(), OutOfMemory> {
        for word in words.split(|b| *b == b' ') {
            if !word.is_empty() {
                self.push(word)?;
            }
        }
        Ok(())
    }
}

// A text in which one word and its counterpart stand so many times.
#[derive(Clone, Copy)]
struct Nest<'a> {
    before: &'a [u8],
    open: &'a [u8],
    between: &'a [u8],
    close: &'a [u8],
    after: &'a [u8],
}

fn nested(alloc: Global, nest: &Nest, times: usize) -> Result<Text, OutOfMemory> {
    let mut text = Text {
        names: NameTable::new(alloc),
        tokens: Vec::new(alloc),
    };
    text.push_all(nest.before)?;
    for _ in 0..times {
        text.push_all(nest.open)?;
    }
    text.push_all(nest.between)?;
    for _ in 0..times {
        text.push_all(nest.close)?;
    }
    text.push_all(nest.after)?;
    text.push(b"")?;
    Ok(text)
}

// The next event; an ask gets this reply.
fn next(machine: &mut Machine, text: &Text, typedef_name: bool) -> Result<Event, MachineFault>
    requires idle { machine.old.waits ≡ None }
    requires placed { machine.old.place ≤ length text.now.tokens.items }
    requires short { length text.now.tokens.items ≤ 2 ^ 25 }
    ensures idle { machine.new.waits ≡ None }
    ensures placed { machine.new.place ≤ length text.now.tokens.items }
{
    match machine.step(&text.tokens, &text.names) {
        Ok(Event::Ask(token)) => {
            machine.reply(typedef_name);
            Ok(Event::Ask(token))
        }
        other => other,
    }
}

fn gives(
    machine: &mut Machine,
    text: &Text,
    typedef_name: bool,
    events: &[Result<Event, MachineFault>],
) -> bool
    requires idle { machine.old.waits ≡ None }
    requires placed { machine.old.place ≤ length text.now.tokens.items }
    requires short { length text.now.tokens.items ≤ 2 ^ 25 }
{
    for event in events {
        if next(machine, text, typedef_name) != *event {
            return false;
        }
    }
    true
}

// The first event that is the end or a fault.
fn last(machine: &mut Machine, text: &Text) -> Result<Event, MachineFault>
    requires idle { machine.old.waits ≡ None }
    requires placed { machine.old.place ≤ length text.now.tokens.items }
    requires short { length text.now.tokens.items ≤ 2 ^ 25 }
{
    for _ in 0..1_000_000 {
        match next(machine, text, false) {
            Ok(Event::Done) => return Ok(Event::Done),
            Ok(_) => {}
            Err(fault) => return Err(fault),
        }
    }
    Ok(Event::Ask(0))
}

fn text_gives(
    alloc: Global,
    words: &[u8],
    typedef_name: bool,
    events: &[Result<Event, MachineFault>],
) -> Result<bool, OutOfMemory> {
    let mut text = Text {
        names: NameTable::new(alloc),
        tokens: Vec::new(alloc),
    };
    text.push_all(words)?;
    text.push(b"")?;
    if text.tokens.len() > 33_554_432 {
        return Err(OutOfMemory);
    }
    let mut machine = Machine::new(alloc)?;
    Ok(gives(&mut machine, &text, typedef_name, events))
}

fn nest_ends(
    alloc: Global,
    nest: &Nest,
    times: usize,
) -> Result<Result<Event, MachineFault>, OutOfMemory> {
    let text = nested(alloc, nest, times)?;
    if text.tokens.len() > 33_554_432 {
        return Err(OutOfMemory);
    }
    let mut machine = Machine::new(alloc)?;
    Ok(last(&mut machine, &text))
}

#[test]
fn declarations_give_their_events(rt: HostRuntime) -> Result<(), Fail> {
    let alloc = rt.alloc();
    let object = [
        Ok(Event::Act(Action::Decl)),
        Ok(Event::Token(0)),
        Ok(Event::Act(Action::Spec)),
        Ok(Event::Token(1)),
        Ok(Event::Act(Action::Name)),
        Ok(Event::Act(Action::Declare)),
        Ok(Event::Token(2)),
        Ok(Event::Done),
        Ok(Event::Done),
    ];
    assert!(rt; text_gives(alloc, b"int foo ;", false, &object)?);
    let cut = [
        Ok(Event::Act(Action::Decl)),
        Ok(Event::Token(0)),
        Ok(Event::Act(Action::Spec)),
        Err(MachineFault::Syntax(1)),
        Err(MachineFault::Syntax(1)),
    ];
    assert!(rt; text_gives(alloc, b"int", false, &cut)?);
    Ok(())
}

#[test]
fn a_name_is_asked_for_where_a_type_may_stand(rt: HostRuntime) -> Result<(), Fail> {
    let alloc = rt.alloc();
    let a_type = [
        Ok(Event::Act(Action::Decl)),
        Ok(Event::Ask(0)),
        Ok(Event::Token(0)),
        Ok(Event::Act(Action::Spec)),
        Ok(Event::Token(1)),
    ];
    assert!(rt; text_gives(alloc, b"foo bar ;", true, &a_type)?);
    let no_type = [
        Ok(Event::Act(Action::Decl)),
        Ok(Event::Ask(0)),
        Err(MachineFault::Syntax(0)),
    ];
    assert!(rt; text_gives(alloc, b"foo bar ;", false, &no_type)?);
    Ok(())
}

// Parentheses, the braces of a function body and of the blocks in it, and pointers.
#[test]
fn the_stack_holds_4096_symbols(rt: HostRuntime) -> Result<(), Fail> {
    let alloc = rt.alloc();
    let cases = [
        (
            Nest {
                before: b"int a =",
                open: b"(",
                between: b"1",
                close: b")",
                after: b";",
            },
            271,
        ),
        (
            Nest {
                before: b"int f ( void )",
                open: b"{",
                between: b";",
                close: b"}",
                after: b"",
            },
            1_364,
        ),
        (
            Nest {
                before: b"int",
                open: b"*",
                between: b"a",
                close: b"",
                after: b";",
            },
            4_089,
        ),
    ];
    for (nest, most) in &cases {
        assert_eq!(rt; nest_ends(alloc, nest, *most)?, Ok(Event::Done));
        assert_eq!(rt;
            nest_ends(alloc, nest, *most + 1)?,
            Err(MachineFault::LimitDepth)
        );
    }
    Ok(())
}
