//! The walk over the tree of a unit, whose nodes are found from its events.
ghost use Rattle.std.specs.Prelude.{◌≡◌, ◌≤◌, ◌<◌, ◌^◌, ◌++◌, ◌∷◌, [], false, length, IfOk, OnOk, List};
ghost use Rattle.cr_ll.specs.Derivation.{Item, Asked};
ghost use Rattle.cr_binding.specs.Source.{Source};
ghost use Rattle.cr_nodes.specs.Falling.{at_most};
ghost use Rattle.cr_acting.specs.Binding.{source_by};
ghost use Rattle.cr_sema.specs.Walking.{HasCome, IsNext, MayCome, IsLed, Steps, Takes};

use cr_acting::Words;
use cr_base::OutOfMemory;
use cr_binder::Binder;
use cr_ll::Event;
use cr_names::BindFault;
use cr_nodes::{Before, Nodes, NodesFault};
use cr_walk::{calls_are_seen, ends_are_bound, events_fit, faults_are_of_the_unit};
use std::alloc::Global;

// The open nodes of a unit, and what is bound.
#[derive(Drop)]
pub struct Walk {
    pub nodes: Nodes,
    pub binder: Binder,
}

impl Walk {
    pub fn new(alloc: Global) -> Result<Walk, OutOfMemory>
        ensures { IfOk result (λ w. (t : Source) → HasCome t [] w) }
    {
        calls_are_seen();
        let binder = Binder::new(alloc)?;
        Ok(Walk {
            nodes: Nodes::new(alloc),
            binder,
        })
    }

    // What comes before an event: a node is opened or closed; or nothing, so that the event is the next one.
    fn step(&mut self, event: Event, words: Words) -> Result<bool, OutOfMemory>
        requires short { length words.tokens.now ≤ 2 ^ 25 }
        requires may { MayCome (source_by words) event self.old }
        ensures steps { let t = source_by words.entry in (es : List Item)
            → HasCome t es self.old → IsNext t es event → IfOk result (Steps t es event self.new) }
        ensures falls { IfOk result (λ done. done ≡ false
            → at_most self.new.nodes < at_most self.old.nodes) }
    {
        calls_are_seen();
        events_fit();
        match self.nodes.advance(event, words.tokens, words.names) {
            Ok(Before::Opens(node)) => {
                self.binder.open(node)?;
                Ok(false)
            }
            Ok(Before::Closes) => {
                self.binder.close()?;
                Ok(false)
            }
            Ok(Before::Nothing) => Ok(true),
            Err(NodesFault::Unfit) => unreachable!(),
            Err(NodesFault::OutOfMemory) => Err(OutOfMemory),
        }
    }

    // Opens and closes the nodes before an event.
    fn lead(&mut self, event: Event, words: Words) -> Result<(), OutOfMemory>
        requires short { length words.tokens.now ≤ 2 ^ 25 }
        requires may { MayCome (source_by words) event self.old }
        ensures { let t = source_by words.entry in (es : List Item)
            → HasCome t es self.old → IsNext t es event → OnOk result (IsLed t es event self.new) }
    {
        'nodes: loop {
            let done = self.step(event, words)?;
            if done {
                return Ok(());
            }
        }
    }

    // Binds an event, before which all nodes were opened and closed.
    fn bind(&mut self, event: Event, words: Words) -> Result<(), BindFault>
        requires { (es : List Item) × IsLed (source_by words) es event self.old }
        ensures { let t = source_by words.entry in (es : List Item)
            → IsLed t es event self.old → Takes t es event self.new result }
    {
        calls_are_seen();
        faults_are_of_the_unit();
        ends_are_bound();
        match event {
            Event::Token(i) => self.binder.pass(i, words),
            Event::Act(action) => self.binder.act(action, words),
            Event::Ask(_) => Ok(()),
            Event::Done => Ok(()),
        }
    }

    // An event that isn't an ask.
    pub fn take(&mut self, event: Event, words: Words) -> Result<(), BindFault>
        requires short { length words.tokens.now ≤ 2 ^ 25 }
        requires may { MayCome (source_by words) event self.old }
        ensures { let t = source_by words.entry in (es : List Item)
            → HasCome t es self.old → IsNext t es event → Takes t es event self.new result }
    {
        self.lead(event, words)?;
        self.bind(event, words)?;
        Ok(())
    }

    // An ask, which is answered.
    pub fn ask(&mut self, token: u32, words: Words) -> Result<bool, OutOfMemory>
        requires short { length words.tokens.now ≤ 2 ^ 25 }
        requires may { MayCome (source_by words) (Event.Ask token) self.old }
        ensures { let t = source_by words.entry in (es : List Item)
            → HasCome t es self.old → IsNext t es (Event.Ask token)
            → IfOk result (λ b. HasCome t (es ++ Asked token b ∷ []) self.new) }
    {
        calls_are_seen();
        self.lead(Event::Ask(token), words)?;
        let answer = self.binder.ask(token, words)?;
        self.nodes.reply(answer);
        Ok(answer)
    }
}
