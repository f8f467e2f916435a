ghost use Rattle.std.specs.Prelude.{◌≡◌, ◌≤◌, OnOk, IfOk, None, length};
ghost use Rattle.std.specs.List.{All};
ghost use Rattle.cr_macros.specs.MacroTables.{Macros};
ghost use Rattle.cr_base.specs.NameTable.{IsDistinct};
ghost use Rattle.cr_expand.specs.HideSets.{Grows};
ghost use Rattle.cr_expand.specs.Held.{IsNamed};
ghost use Rattle.cr_expand.specs.Items.{IsTokenNamed};
ghost use Rattle.cr_expand.specs.Machines.{AreMacros};
ghost use Rattle.cr_expand.specs.Expanders.{IsRunning};

use cr_base::{Name, NameTable, Origin, OutOfMemory, PathNo, Place, PpKind, PpTok};
use cr_expand::{ExpStep, ExpandFault, Expander, MacroTable, defined_macros_are_known};
use cr_macros::{one_token, text};
use std::alloc::Global;
use std::test::Fail;

fn number_of(names: &mut NameTable, word: &[u8]) -> Result<Name, OutOfMemory>
    ensures grows { OnOk result (Grows names.old names.new) }
    ensures distinct { OnOk result (IsDistinct names.new) }
    ensures named { IfOk result (λ n. IsNamed names.new n) }
{
    if names.len() > 1_000_000 {
        return Err(OutOfMemory);
    }
    let number = names.intern(word)?;
    Ok(number)
}

// A word as a token; one that begins with `~` has no white space before it.
fn token_of(names: &mut NameTable, offset: u32, word: &[u8]) -> Result<PpTok, OutOfMemory>
    ensures grows { OnOk result (Grows names.old names.new) }
    ensures distinct { OnOk result (IsDistinct names.new) }
    ensures named { IfOk result (λ t. IsTokenNamed names.new t) }
{
    let space = !word.starts_with(b"~");
    let spelling = if space || word.is_empty() {
        word
    } else {
        &word[1..]
    };
    let place = Place {
        path: PathNo(0),
        offset,
    };
    let name = number_of(names, spelling)?;
    Ok(PpTok {
        kind: one_token(spelling).unwrap_or(PpKind::Stray),
        text: name,
        origin: Origin::At(place),
        site: place,
        line: 1,
        end: 0,
        space,
        first: false,
        joined: false,
    })
}

// The tokens of a text whose words blanks part, at the places 0, 1, 2 and so on.
fn words(alloc: Global, names: &mut NameTable, line: &[u8]) -> Result<Vec<PpTok>, OutOfMemory>
    requires { IsDistinct names.old }
    ensures grows { OnOk result (Grows names.old names.new) }
    ensures distinct { OnOk result (IsDistinct names.new) }
    ensures named { IfOk result (λ v. All (IsTokenNamed names.new) v.items) }
    ensures short { IfOk result (λ v. length v.items ≤ 1001) }
{
    let mut list = Vec::new(alloc);
    for word in line.split(|b| *b == b' ') {
        if list.len() > 1000 {
            return Err(OutOfMemory);
        }
        if !word.is_empty() {
            let token = token_of(names, list.len() as u32, word)?;
            list.push(token)?;
        }
    }
    Ok(list)
}

// Carries a `define` line out, if it is a good one.
fn define(
    alloc: Global,
    names: &mut NameTable,
    macros: &mut MacroTable,
    line: &[u8],
) -> Result<(), OutOfMemory>
    requires distinct { IsDistinct names.old }
    requires macros { AreMacros names.old macros.old }
    ensures distinct { OnOk result (IsDistinct names.new) }
    ensures macros { OnOk result (AreMacros names.new macros.new) }
{
    defined_macros_are_known();
    let line = words(alloc, names, line)?;
    if line.len() < 2 || !matches!(line[0].origin, Origin::At(_)) {
        return Err(OutOfMemory);
    }
    match macros.define(names, &line) {
        Ok(()) => Ok(()),
        Err(_) => Err(OutOfMemory),
    }
}

// The macros of some lines.
fn table_of(
    alloc: Global,
    names: &mut NameTable,
    lines: &[&[u8]],
) -> Result<MacroTable, OutOfMemory>
    requires { IsDistinct names.old }
    ensures distinct { OnOk result (IsDistinct names.new) }
    ensures macros { IfOk result (λ macros. AreMacros names.new macros) }
{
    defined_macros_are_known();
    let mut macros = MacroTable::new(alloc);
    for line in lines {
        define(alloc, names, &mut macros, line)?;
    }
    Ok(macros)
}

// The end of a run in a word.
fn fault_word(fault: ExpandFault) -> &'static [u8] {
    match fault {
        ExpandFault::ArgCount(_) => b"ArgCount",
        ExpandFault::OpenCall(_) => b"OpenCall",
        ExpandFault::BadPaste(_) => b"BadPaste",
        ExpandFault::LimitMacros => b"LimitMacros",
        ExpandFault::BadDefine(_) => b"BadDefine",
        ExpandFault::OutOfMemory => b"OutOfMemory",
    }
}

fn put_token(out: &mut Vec<u8>, names: &NameTable, t: PpTok) -> Result<(), OutOfMemory> {
    out.extend_from_slice(text(names, t.text))?;
    out.push(b' ')?;
    Ok(())
}

fn step_of(
    names: &mut NameTable,
    macros: &MacroTable,
    e: &mut Expander,
) -> Result<ExpStep, ExpandFault>
    requires macros { AreMacros names.old macros.now }
    requires running { IsRunning names.old macros.now e.old }
    requires fault { e.old.fault ≡ None }
    ensures macros { OnOk result (AreMacros names.new macros.now) }
    ensures running { OnOk result (IsRunning names.new macros.now e.new) }
    ensures fault { OnOk result (e.new.fault ≡ None) }
{
    defined_macros_are_known();
    if names.len() > 1_000_000 {
        return Err(ExpandFault::OutOfMemory);
    }
    let step = e.step(macros, names)?;
    Ok(step)
}

// The tokens that a machine gives, each with a blank, and a word for what ends them.
fn given(
    alloc: Global,
    names: &mut NameTable,
    macros: &MacroTable,
    e: &mut Expander,
) -> Result<Vec<u8>, OutOfMemory>
    requires macros { AreMacros names.old macros.now }
    requires running { IsRunning names.old macros.now e.old }
    requires fault { e.old.fault ≡ None }
{
    let mut out = Vec::new(alloc);
    for i in 0..100_000 {
        let step = match step_of(names, macros, e) {
            Ok(step) => step,
            Err(fault) => {
                out.extend_from_slice(fault_word(fault))?;
                return Ok(out);
            }
        };
        match step {
            ExpStep::Out(t) => put_token(&mut out, names, t)?,
            ExpStep::More => {}
            ExpStep::Hungry => {
                out.extend_from_slice(b"Hungry")?;
                return Ok(out);
            }
            ExpStep::End => {
                out.extend_from_slice(b"End")?;
                return Ok(out);
            }
        }
    }
    Err(OutOfMemory)
}

// How many tokens a machine gives up to its end; none where it doesn't come to that.
fn counted(names: &mut NameTable, macros: &MacroTable, e: &mut Expander) -> Option<u32>
    requires macros { AreMacros names.old macros.now }
    requires running { IsRunning names.old macros.now e.old }
    requires fault { e.old.fault ≡ None }
{
    let mut count = 0u32;
    for i in 0..8_000_000 {
        match step_of(names, macros, e) {
            Ok(ExpStep::Out(_)) => count = count.saturating_add(1),
            Ok(ExpStep::More) => {}
            Ok(ExpStep::End) => return Some(count),
            _ => return None,
        }
    }
    None
}

// A machine that is fed a list, where this work was used before.
fn machine_for(
    alloc: Global,
    names: &mut NameTable,
    list: &[u8],
    work: u32,
) -> Result<Expander, OutOfMemory>
    requires work { work ≤ 4194304 }
    requires distinct { IsDistinct names.old }
    ensures grows { OnOk result (Grows names.old names.new) }
    ensures running { (macros : Macros) → IfOk result (λ e. IsRunning names.new macros e) }
    ensures fault { IfOk result (λ e. e.fault ≡ None) }
{
    let file = number_of(names, b"\"a.c\"")?;
    let list = words(alloc, names, list)?;
    let mut e = Expander::new(alloc, file, file, file, work);
    e.feed(&list)?;
    Ok(e)
}

// What a list gives, and the macro work that was used.
fn expanded(
    alloc: Global,
    lines: &[&[u8]],
    list: &[u8],
    finished: bool,
) -> Result<(Vec<u8>, u32), OutOfMemory> {
    defined_macros_are_known();
    let mut names = NameTable::new(alloc);
    let macros = table_of(alloc, &mut names, lines)?;
    let mut e = machine_for(alloc, &mut names, list, 0)?;
    if !finished {
        let out = given(alloc, &mut names, &macros, &mut e)?;
        return Ok((out, e.work()));
    }
    e.finish();
    let out = given(alloc, &mut names, &macros, &mut e)?;
    Ok((out, e.work()))
}

// How many tokens a list gives, and the work that was used, where this much was used before.
fn counted_behind(
    alloc: Global,
    lines: &[&[u8]],
    list: &[u8],
    work: u32,
) -> Result<Option<(u32, u32)>, OutOfMemory>
    requires { work ≤ 4194304 }
{
    defined_macros_are_known();
    let mut names = NameTable::new(alloc);
    let macros = table_of(alloc, &mut names, lines)?;
    let mut e = machine_for(alloc, &mut names, list, work)?;
    e.finish();
    match counted(&mut names, &macros, &mut e) {
        Some(count) => Ok(Some((count, e.work()))),
        None => Ok(None),
    }
}

const LINES: [&[u8]; 7] = [
    b"# define f ~( a ) a * g",
    b"# define g ~( a ) f ( a )",
    b"# define S ~( x ) # x",
    b"# define E ~( f , ... ) p ( f , ## __VA_ARGS__ )",
    b"# define C ~( a , b ) a ## b",
    b"# define Q ~( )",
    b"# define D ~( a ) a a",
];

const EXPANSIONS: [(&[u8], &[u8], u32); 14] = [
    (b"f ( 2 ) ( 9 )", b"2 * 9 * g End", 13),
    (b"S ( a  \"b\\n\" )", b"\"a \\\"b\\\\n\\\"\" End", 2),
    (b"E ( 1 )", b"p ( 1 ) End", 5),
    (b"E ( 1 , 2 )", b"p ( 1 , 2 ) End", 7),
    (b"C ( - , > )", b"-> End", 2),
    (b"C ( + , / )", b"BadPaste", 0),
    (b"C ( 1 )", b"ArgCount", 0),
    (b"C ( 1", b"OpenCall", 0),
    (b"Q ( ) D ( Q ( ) 1 )", b"1 1 End", 5),
    (b"__LINE__ __FILE__", b"1 \"a.c\" End", 4),
    (
        b"D ( D ( ( 1 , 2 ) ) )",
        b"( 1 , 2 ) ( 1 , 2 ) ( 1 , 2 ) ( 1 , 2 ) End",
        32,
    ),
    (b"S ( D ( ( 1 , 2 ) ) )", b"\"D ( ( 1 , 2 ) )\" End", 2),
    (b"C ( ( 1 , 2 ) 3 , 4 )", b"( 1 , 2 ) 34 End", 7),
    (b"D ( Q ( ) ( Q ( ) ) )", b"( ) ( ) End", 7),
];

#[test]
fn a_list_gives_its_expansion(rt: HostRuntime) -> Result<(), Fail> {
    for (list, want, work) in EXPANSIONS {
        let (out, used) = expanded(rt.alloc(), &LINES, list, true)?;
        assert!(rt; out.as_slice() == want, "{list:?} {out:?}");
        assert!(rt; used == work, "{list:?} {used}");
    }
    Ok(())
}

// The macros of C11 6.10.3.5p5.
const EXAMPLE: [&[u8]; 12] = [
    b"# define x 2",
    b"# define f ~( a ) f ( x * ( a ) )",
    b"# define g f",
    b"# define z z [ 0 ]",
    b"# define h g ( ~~",
    b"# define m ~( a ) a ( w )",
    b"# define w 0 , 1",
    b"# define t ~( a ) a",
    b"# define p ~( ) int",
    b"# define q ~( x ) x",
    b"# define r ~( x , y ) x ## y",
    b"# define str ~( x ) # x",
];

const RESULTS: [(&[u8], &[u8]); 4] = [
    (
        b"f ( y + 1 ) + f ( f ( z ) ) % t ( t ( g ) ( 0 ) + t ) ( 1 ) ;",
        b"f ( 2 * ( y + 1 ) ) + f ( 2 * ( f ( 2 * ( z [ 0 ] ) ) ) ) % f ( 2 * ( 0 ) ) + t ( 1 ) ; End",
    ),
    (
        b"g ( x + ( 3 , 4 ) - w ) | h 5 ) & m ( f ) ^ m ( m ) ;",
        b"f ( 2 * ( 2 + ( 3 , 4 ) - 0 , 1 ) ) | f ( 2 * ( ~ 5 ) ) & f ( 2 * ( 0 , 1 ) ) ^ m ( 0 , 1 ) ; End",
    ),
    (
        b"p ( ) i [ q ( ) ] = { q ( 1 ) , r ( 2 , 3 ) , r ( 4 , ) , r ( , 5 ) , r ( , ) } ;",
        b"int i [ ] = { 1 , 23 , 4 , 5 , } ; End",
    ),
    (
        b"char c [ 2 ] [ 6 ] = { str ( hello ) , str ( ) } ;",
        b"char c [ 2 ] [ 6 ] = { \"hello\" , \"\" } ; End",
    ),
];

#[test]
fn the_standards_example_gives_its_result(rt: HostRuntime) -> Result<(), Fail> {
    for (list, want) in RESULTS {
        let (out, _) = expanded(rt.alloc(), &EXAMPLE, list, true)?;
        assert!(rt; out.as_slice() == want, "{list:?} {out:?}");
    }
    Ok(())
}

const CUT_LISTS: [(&[u8], &[u8]); 5] = [
    (b"C ( 1", b"Hungry"),
    (b"f", b"Hungry"),
    (b"a", b"a Hungry"),
    (b"D ( a ) f", b"a a Hungry"),
    (b"D ( C ( 1 )", b"Hungry"),
];

#[test]
fn more_is_wanted_before_the_end(rt: HostRuntime) -> Result<(), Fail> {
    for (list, want) in CUT_LISTS {
        let (out, _) = expanded(rt.alloc(), &LINES, list, false)?;
        assert!(rt; out.as_slice() == want, "{list:?} {out:?}");
    }
    Ok(())
}

// Calls inside one another, each of which gives its argument twice.
const FIFTEEN: &[u8] =
    b"D ( D ( D ( D ( D ( D ( D ( D ( D ( D ( D ( D ( D ( D ( D ( 1 ) ) ) ) ) ) ) ) ) ) ) ) ) ) )";

#[test]
fn work_has_its_limit(rt: HostRuntime) -> Result<(), Fail> {
    let alloc = rt.alloc();
    let last = counted_behind(alloc, &LINES, b"f ( 2 ) ( 9 )", 4_194_291)?;
    assert!(rt; last == Some((5, 4_194_304)));
    let over = counted_behind(alloc, &LINES, b"f ( 2 ) ( 9 )", 4_194_292)?;
    assert!(rt; over == None);
    let last = counted_behind(alloc, &LINES, FIFTEEN, 4_128_755)?;
    assert!(rt; last == Some((32_768, 4_194_304)));
    let over = counted_behind(alloc, &LINES, FIFTEEN, 4_128_756)?;
    assert!(rt; over == None);
    Ok(())
}

// A macro of nothing, and twenty each of which is the one before twice.
const DOUBLINGS: [&[u8]; 21] = [
    b"# define A0",
    b"# define A1 A0 A0",
    b"# define A2 A1 A1",
    b"# define A3 A2 A2",
    b"# define A4 A3 A3",
    b"# define A5 A4 A4",
    b"# define A6 A5 A5",
    b"# define A7 A6 A6",
    b"# define A8 A7 A7",
    b"# define A9 A8 A8",
    b"# define A10 A9 A9",
    b"# define A11 A10 A10",
    b"# define A12 A11 A11",
    b"# define A13 A12 A12",
    b"# define A14 A13 A13",
    b"# define A15 A14 A14",
    b"# define A16 A15 A15",
    b"# define A17 A16 A16",
    b"# define A18 A17 A17",
    b"# define A19 A18 A18",
    b"# define A20 A19 A19",
];

#[test]
fn twenty_doublings_use_all_work(rt: HostRuntime) -> Result<(), Fail> {
    let alloc = rt.alloc();
    let last = counted_behind(alloc, &DOUBLINGS, b"A20 A0 A0 A0", 0)?;
    assert!(rt; last == Some((0, 4_194_304)));
    let over = counted_behind(alloc, &DOUBLINGS, b"A20 A0 A0 A0 A0", 0)?;
    assert!(rt; over == None);
    Ok(())
}
