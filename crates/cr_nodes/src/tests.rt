ghost use Rattle.std.specs.Prelude.{◌≤◌, ◌^◌, length};

use crate::Before::{self, Closes, Nothing, Opens};
use crate::{Nodes, NodesFault};
use cr_base::{NameTable, Origin, OutOfMemory, PathNo, Place, Tok, TokKind};
use cr_grammar::{Action, NonTerm};
use cr_ll::Event;
use std::alloc::Global;
use std::test::Fail;

#[derive(Drop)]
struct Text {
    names: NameTable,
    tokens: Vec<Tok>,
}

impl Text {
    fn new(alloc: Global, words: &[(TokKind, &[u8])]) -> Result<Text, OutOfMemory> {
        let mut text = Text {
            names: NameTable::new(alloc),
            tokens: Vec::new(alloc),
        };
        let site = Place {
            path: PathNo(0),
            offset: 0,
        };
        for (kind, word) in words {
            if text.names.len() > 1000 {
                return Err(OutOfMemory);
            }
            let name = text.names.intern(word)?;
            text.tokens.push(Tok {
                kind: *kind,
                text: name,
                origin: Origin::At(site),
                site,
            })?;
        }
        Ok(text)
    }
}

// Whether calls with the event give these answers, one after another.
fn gives(nodes: &mut Nodes, text: &Text, event: Event, answers: &[Before]) -> bool
    requires { length text.now.tokens.items ≤ 2 ^ 25 }
{
    for answer in answers {
        if nodes.advance(event, &text.tokens, &text.names) != Ok(*answer) {
            return false;
        }
    }
    true
}

// Whether each event of a text has these answers, where an ask gets this reply.
fn leads(
    alloc: Global,
    words: &[(TokKind, &[u8])],
    typedef_name: bool,
    events: &[(Event, &[Before])],
) -> Result<bool, OutOfMemory> {
    let text = Text::new(alloc, words)?;
    if text.tokens.len() > 33_554_432 {
        return Err(OutOfMemory);
    }
    let mut nodes = Nodes::new(alloc);
    for (event, answers) in events {
        if !gives(&mut nodes, &text, *event, answers) {
            return Ok(false);
        }
        if let Event::Ask(_) = event {
            nodes.reply(typedef_name);
        }
    }
    Ok(true)
}

#[test]
fn nodes_stand_between_the_events_of_a_declaration(rt: HostRuntime) -> Result<(), Fail> {
    let words: [(TokKind, &[u8]); 4] = [
        (TokKind::Ident, b"foo"),
        (TokKind::Ident, b"bar"),
        (TokKind::Punct, b";"),
        (TokKind::End, b""),
    ];
    let events: [(Event, &[Before]); 9] = [
        (
            Event::Act(Action::Decl),
            &[Opens(NonTerm::Unit), Opens(NonTerm::External), Nothing],
        ),
        (Event::Ask(0), &[Nothing]),
        (Event::Token(0), &[Opens(NonTerm::Specs0), Nothing]),
        (Event::Act(Action::Spec), &[Nothing]),
        (
            Event::Token(1),
            &[
                Opens(NonTerm::SpecsT),
                Closes,
                Closes,
                Opens(NonTerm::ExtTail),
                Opens(NonTerm::Dtor),
                Nothing,
            ],
        ),
        (Event::Act(Action::Name), &[Nothing]),
        (
            Event::Act(Action::Declare),
            &[Opens(NonTerm::Sufs), Closes, Closes, Nothing],
        ),
        (
            Event::Token(2),
            &[
                Opens(NonTerm::After),
                Closes,
                Opens(NonTerm::ExtNext),
                Opens(NonTerm::InitOpt),
                Closes,
                Opens(NonTerm::More),
                Closes,
                Nothing,
            ],
        ),
        (
            Event::Done,
            &[
                Closes,
                Closes,
                Closes,
                Opens(NonTerm::Unit),
                Closes,
                Closes,
                Nothing,
            ],
        ),
    ];
    assert!(rt; leads(rt.alloc(), &words, true, &events)?);
    Ok(())
}

#[test]
fn a_refused_alternative_is_not_taken(rt: HostRuntime) -> Result<(), Fail> {
    let words: [(TokKind, &[u8]); 5] = [
        (TokKind::Keyword, b"_Alignas"),
        (TokKind::Punct, b"("),
        (TokKind::Ident, b"foo"),
        (TokKind::Punct, b")"),
        (TokKind::End, b""),
    ];
    let events: [(Event, &[Before]); 6] = [
        (
            Event::Act(Action::Decl),
            &[Opens(NonTerm::Unit), Opens(NonTerm::External), Nothing],
        ),
        (
            Event::Token(0),
            &[Opens(NonTerm::Specs0), Opens(NonTerm::Mod), Nothing],
        ),
        (Event::Token(1), &[Nothing]),
        (Event::Ask(2), &[Nothing]),
        (
            Event::Token(2),
            &[
                Opens(NonTerm::AlignArg),
                Opens(NonTerm::Cond),
                Opens(NonTerm::Bin1),
                Opens(NonTerm::Bin2),
                Opens(NonTerm::Bin3),
                Opens(NonTerm::Bin4),
                Opens(NonTerm::Bin5),
                Opens(NonTerm::Bin6),
                Opens(NonTerm::Bin7),
                Opens(NonTerm::Bin8),
                Opens(NonTerm::Bin9),
                Opens(NonTerm::Bin10),
                Opens(NonTerm::Cast),
                Opens(NonTerm::Unary),
                Opens(NonTerm::Primary),
                Nothing,
            ],
        ),
        (Event::Act(Action::Mention), &[Nothing]),
    ];
    assert!(rt; leads(rt.alloc(), &words, false, &events)?);
    Ok(())
}

#[test]
fn another_event_changes_nothing(rt: HostRuntime) -> Result<(), Fail> {
    let words: [(TokKind, &[u8]); 2] = [(TokKind::Ident, b"foo"), (TokKind::End, b"")];
    let text = Text::new(rt.alloc(), &words)?;
    if text.tokens.len() > 33_554_432 {
        return Err(OutOfMemory.into());
    }
    let mut nodes = Nodes::new(rt.alloc());
    assert!(rt;
        gives(
            &mut nodes,
            &text,
            Event::Done,
            &[Opens(NonTerm::Unit), Opens(NonTerm::External)]
        )
    );
    let unfit = Err(NodesFault::Unfit);
    assert_eq!(rt;
        nodes.advance(Event::Token(0), &text.tokens, &text.names),
        unfit
    );
    assert!(rt; gives(&mut nodes, &text, Event::Act(Action::Decl), &[Nothing]));
    assert!(rt; gives(&mut nodes, &text, Event::Ask(0), &[Nothing]));
    assert_eq!(rt;
        nodes.advance(Event::Ask(0), &text.tokens, &text.names),
        unfit
    );
    nodes.reply(true);
    assert!(rt;
        gives(
            &mut nodes,
            &text,
            Event::Token(0),
            &[Opens(NonTerm::Specs0), Nothing]
        )
    );
    assert_eq!(rt; nodes.innermost(), NonTerm::Specs0);
    Ok(())
}
