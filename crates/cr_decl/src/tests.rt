//! Values from C11 6.7.2p2 and 6.7.1p2, never from a run.
use super::*;
use SpecWord as W;
use std::process::Abort;
use std::test::Fail;

const BASIC: [SpecWord; 12] = [
    W::Void,
    W::Char,
    W::Short,
    W::Int,
    W::Long,
    W::Float,
    W::Double,
    W::Signed,
    W::Unsigned,
    W::Bool,
    W::Complex,
    W::VaList,
];

// Each permitted list, with the words of which one may still be added to it.
const LISTS: &[(&[SpecWord], &[SpecWord])] = &[
    (&[W::Void], &[]),
    (&[W::Char], &[W::Signed, W::Unsigned]),
    (&[W::Signed, W::Char], &[]),
    (&[W::Unsigned, W::Char], &[]),
    (&[W::Short], &[W::Int, W::Signed, W::Unsigned]),
    (&[W::Short, W::Int], &[W::Signed, W::Unsigned]),
    (&[W::Signed, W::Short], &[W::Int]),
    (&[W::Unsigned, W::Short], &[W::Int]),
    (&[W::Signed, W::Short, W::Int], &[]),
    (&[W::Unsigned, W::Short, W::Int], &[]),
    (&[W::Int], &[W::Short, W::Long, W::Signed, W::Unsigned]),
    (&[W::Signed], &[W::Char, W::Short, W::Int, W::Long]),
    (&[W::Unsigned], &[W::Char, W::Short, W::Int, W::Long]),
    (&[W::Signed, W::Int], &[W::Short, W::Long]),
    (&[W::Unsigned, W::Int], &[W::Short, W::Long]),
    (
        &[W::Long],
        &[
            W::Int,
            W::Long,
            W::Signed,
            W::Unsigned,
            W::Double,
            W::Complex,
        ],
    ),
    (&[W::Long, W::Int], &[W::Long, W::Signed, W::Unsigned]),
    (&[W::Signed, W::Long], &[W::Int, W::Long]),
    (&[W::Unsigned, W::Long], &[W::Int, W::Long]),
    (&[W::Signed, W::Long, W::Int], &[W::Long]),
    (&[W::Unsigned, W::Long, W::Int], &[W::Long]),
    (&[W::Long, W::Long], &[W::Int, W::Signed, W::Unsigned]),
    (&[W::Long, W::Long, W::Int], &[W::Signed, W::Unsigned]),
    (&[W::Signed, W::Long, W::Long], &[W::Int]),
    (&[W::Unsigned, W::Long, W::Long], &[W::Int]),
    (&[W::Signed, W::Long, W::Long, W::Int], &[]),
    (&[W::Unsigned, W::Long, W::Long, W::Int], &[]),
    (&[W::Float], &[W::Complex]),
    (&[W::Double], &[W::Long, W::Complex]),
    (&[W::Long, W::Double], &[W::Complex]),
    (&[W::Float, W::Complex], &[]),
    (&[W::Double, W::Complex], &[W::Long]),
    (&[W::Long, W::Double, W::Complex], &[]),
    (&[W::Bool], &[]),
    (&[W::VaList], &[]),
];

fn read(rt: &impl Abort, words: &[SpecWord]) -> SpecState {
    let mut state = SpecState::new();
    for word in words {
        assert!(rt; state.word(*word).is_ok());
    }
    state
}

fn read_backwards(rt: &impl Abort, words: &[SpecWord]) -> SpecState {
    let mut state = SpecState::new();
    for word in words.iter().rev() {
        assert!(rt; state.word(*word).is_ok());
    }
    state
}

#[test]
fn lists_of_type_specifiers_are_permitted_in_any_order(rt: HostRuntime) {
    // what begins a permitted list needn't be one
    assert!(rt; !read(&rt, &[]).permitted());
    assert!(rt; !read(&rt, &[W::Complex, W::Long]).permitted());
    for (list, more) in LISTS {
        assert!(rt; read_backwards(&rt, list).permitted());
        for word in BASIC {
            let mut state = read(&rt, list);
            assert!(rt; state.permitted());
            assert_eq!(rt;
                state.word(word).is_ok(),
                more.contains(&word),
                "{word:?} after {list:?}"
            );
        }
    }
}

#[test]
fn one_storage_word_may_stand(rt: HostRuntime) {
    let cases = [
        (W::Static, W::Static, false),
        (W::Typedef, W::Extern, false),
        (W::Extern, W::ThreadLocal, true),
        (W::ThreadLocal, W::Static, true),
        (W::ThreadLocal, W::Register, false),
        (W::Static, W::Const, true),
        (W::Static, W::Struct, true),
    ];
    for (first, second, stands) in cases {
        let mut state = SpecState::new();
        assert!(rt; state.word(first).is_ok());
        assert_eq!(rt; state.word(second).is_ok(), stands);
    }
}

#[test]
fn declarators_derive_from_the_base(rt: HostRuntime) -> Result<(), Fail> {
    let mut types = Types::new(rt.alloc());
    let mut state = SpecState::new();
    assert!(rt; state.word(W::Int).is_ok());
    let int = state.base(&mut types)?;
    assert_eq!(rt; types.get(int), Ty::Arith);
    // int *(*f)(void)
    let f = dtype(
        &mut types,
        int,
        &[Part::Pointer, Part::Function, Part::Pointer],
    )?;
    let pointer = types.make(Ty::Ptr(int))?;
    let function = types.make(Ty::Fun(pointer))?;
    assert_eq!(rt; types.get(f), Ty::Ptr(function));
    Ok(())
}
