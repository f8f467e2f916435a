use crate::{Ends, Fact, FactSet};
use cr_base::{Key, OutOfMemory, PathNo, Place, Role, Text};
use std::alloc::Global;

#[derive(Drop)]
struct Answer(Option<FactSet>);

impl Ends for Answer {
    ghost facts = { λ answer. answer.0 };

    fn facts(&self) -> Option<&FactSet> {
        self.0.as_ref()
    }
}

fn place(offset: u32) -> Place {
    Place {
        path: PathNo(0),
        offset,
    }
}

fn set_of(alloc: Global, first: Fact, second: Fact) -> Result<FactSet, OutOfMemory> {
    let mut facts = FactSet::new(alloc);
    facts.insert(first)?;
    facts.insert(second)?;
    Ok(facts)
}

fn begins_with(facts: &FactSet, wanted: &Fact) -> bool {
    match facts.iter().next() {
        Some(fact) => fact == wanted,
        None => false,
    }
}

#[test]
fn a_set_has_each_fact_once_and_in_order(rt: HostRuntime) -> Result<(), OutOfMemory> {
    let later = Fact::OpaqueAt(place(9));
    let earlier = Fact::HasRole(place(9), Role::Final);
    let mut facts = set_of(rt.alloc(), later, earlier)?;
    assert!(&rt; !facts.insert(Fact::OpaqueAt(place(9)))?);
    assert!(&rt; facts.iter().count() == 2);
    assert!(&rt; begins_with(&facts, &Fact::HasRole(place(9), Role::Final)));
    Ok(())
}

#[test]
fn a_union_has_the_facts_of_both(rt: HostRuntime) -> Result<(), OutOfMemory> {
    let name = Text::new(rt.alloc(), b"n")?;
    let known = Fact::OpaqueAt(place(9));
    let mut table = set_of(rt.alloc(), known, Fact::NewMacro(place(2)))?;
    let answer = Answer(Some(set_of(
        rt.alloc(),
        Fact::OpaqueAt(place(9)),
        Fact::FileScope(Key::Ext(name)),
    )?));
    if let Some(facts) = answer.facts() {
        table.union(facts)?;
    }
    assert!(&rt; table.iter().count() == 3);
    assert!(&rt; table.contains(&Fact::NewMacro(place(2))));
    Ok(())
}
