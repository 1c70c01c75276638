//! What passes on a node's way to a line, with a port and a bank that keep it.
ghost use Rattle.std.specs.Prelude.{◌≡◌, Some};
ghost use Rattle.sci_port.specs.Watching.{ending_of, looks_by, passed_by};

use crate::bank::Bank;
use crate::port::Port;
use sci_core::{Event, Outcome, Pending, Stage};
use sci_words::{LineNo, Mem, NodeId, Tag};
use std::alloc::AllocError;

/// A load, with its answer.
#[derive(Clone, Copy, Debug)]
pub enum Load {
    /// A look at the own tag.
    Own(Option<Tag>),
    /// A load of the memory word.
    Mem(Option<Mem>),
    /// A load of a node's tag.
    Tag(NodeId, Option<Tag>),
}

/// How an exchange ended.
#[derive(Clone, Copy, Debug)]
pub enum Ending {
    /// The row was made.
    Done,
    /// Another word than the row's was found: the word with this code in layout 2.
    Missed(u64),
    /// Another had the line.
    Busy,
}

/// What passed in a turn. It keeps no line of bytes but what a write stores: each call of a turn writes into it.
#[derive(Clone, Copy, Debug)]
pub struct Passed {
    /// The line of the last call.
    pub line: LineNo,
    /// How many looks at the own tag were answered, up to 255. A turn makes at most three loads.
    pub looks: u8,
    /// The last load.
    pub load: Option<Load>,
    /// The exchange that was tried, with its ending.
    pub step: Option<(Event, Ending)>,
}

impl Passed {
    /// Nothing has passed.
    pub const NOTHING: Passed = Passed {
        line: 0,
        looks: 0,
        load: None,
        step: None,
    };

    /// Keeps a load.
    pub fn load(&mut self, line: LineNo, load: Load)
        ensures { self.new ≡ record { line = line; looks = self.old.looks; load = Some load; step = self.old.step } }
    {
        self.line = line;
        self.load = Some(load);
    }

    /// Keeps a look at the own tag.
    pub fn look(&mut self, line: LineNo, own: Option<Tag>)
        ensures { self.new ≡ record { line = line; looks = looks_by self.old.looks own; load = Some (Load.Own own); step = self.old.step } }
    {
        if own.is_some() {
            self.looks = self.looks.saturating_add(1);
        }
        self.load(line, Load::Own(own));
    }

    /// Keeps an exchange.
    pub fn step(&mut self, line: LineNo, event: Event, outcome: &Outcome)
        ensures { self.new ≡ record { line = line; looks = self.old.looks; load = self.old.load; step = Some (event, ending_of outcome.now) } }
    {
        let ending = match outcome {
            Outcome::Done(_) => Ending::Done,
            Outcome::Missed(word) => Ending::Missed(*word),
            Outcome::Busy => Ending::Busy,
        };
        self.line = line;
        self.step = Some((event, ending));
    }
}

/// A port, and what has passed through it, on a line that is called 0. Its answers are those of the port.
#[derive(Drop)]
pub struct Watched<P: Port + Drop> {
    pub port: P,
    pub passed: Passed,
}

impl<P: Port + Drop> Port for Watched<P> {
    type Keep = P::Keep;

    ghost way = { λ s. P.way s.port };

    ghost keep = { λ s. P.keep s.port };

    ghost at_step = { λ s. P.at_step s.port };

    ghost receipts = { λ s. P.receipts s.port };

    ghost gives = { λ s call t. P.gives s.port call t.port × (t.passed ≡ passed_by s.passed 0 call) };

    ghost readies = { λ s r t. P.readies s.port r t.port × (t.passed ≡ s.passed) };

    ghost same_way = { λ s call t h. P.same_way s.port call t.port h.0 };

    ghost same_fact = { λ s call t h. P.same_fact s.port call t.port h.0 };

    ghost owes = { λ s call t h. P.owes s.port call t.port h.0 };

    ghost receives = { λ s call t h. P.receives s.port call t.port h.0 };

    ghost readied = { λ s r t h. P.readied s.port r t.port h.0 };

    fn node(&self) -> NodeId {
        self.port.node()
    }

    fn nodes(&self) -> u16 {
        self.port.nodes()
    }

    fn number(&self) -> LineNo {
        self.port.number()
    }

    fn pending(&self) -> Pending {
        self.port.pending()
    }

    fn stage(&self) -> Stage {
        self.port.stage()
    }

    fn own(&mut self) -> Option<Tag> {
        let own = self.port.own();
        let answer = own;
        self.passed.look(0, answer);
        own
    }

    fn mem(&mut self) -> Option<Mem> {
        let mem = self.port.mem();
        let answer = mem;
        self.passed.load(0, Load::Mem(answer));
        mem
    }

    fn tag(&mut self, node: NodeId) -> Option<Tag> {
        let tag = self.port.tag(node);
        let answer = tag;
        self.passed.load(0, Load::Tag(node, answer));
        tag
    }

    fn step(&mut self, event: Event) -> Outcome {
        let passing = event;
        let outcome = self.port.step(event);
        self.passed.step(0, passing, &outcome);
        outcome
    }

    fn reserve(&mut self, n: usize) -> Result<(), AllocError> {
        self.port.reserve(n)
    }

    fn room(&self) -> usize {
        self.port.room()
    }

    fn last_passed(&self) -> bool {
        self.port.last_passed()
    }

    fn aim(&mut self, passing: bool) {
        self.port.aim(passing);
    }
}

/// A bank that is lent, and what passes through it. Its answers are those of the bank.
#[derive(Drop)]
pub struct WatchedBank<'a, 'b, B: Bank> {
    pub bank: &'a mut B,
    pub passed: &'b mut Passed,
}

impl<B: Bank> Bank for WatchedBank<'_, '_, B> {
    type Keep = B::Keep;

    ghost way = { λ s. B.way s.bank.now };

    ghost nodes_on = { λ s line. B.nodes_on s.bank.now line };

    ghost keep = { λ s. B.keep s.bank.now };

    ghost at_step = { λ s line. B.at_step s.bank.now line };

    ghost receipts = { λ s line. B.receipts s.bank.now line };

    ghost gives = { λ s line call t. B.gives s.bank.now line call t.bank.now × (t.passed.now ≡ passed_by s.passed.now line call) × (t.bank.ghost_name ≡ s.bank.ghost_name) × (t.passed.ghost_name ≡ s.passed.ghost_name) };

    ghost readies = { λ s line r t. B.readies s.bank.now line r t.bank.now × (t.passed ≡ s.passed) × (t.bank.ghost_name ≡ s.bank.ghost_name) };

    ghost same_way = { λ s line call t h. B.same_way s.bank.now line call t.bank.now h.0 };

    ghost same_nodes = { λ s line call t h. B.same_nodes s.bank.now line call t.bank.now h.0 };

    ghost same_fact = { λ s line call t h. B.same_fact s.bank.now line call t.bank.now h.0 };

    ghost others = { λ s line call t h. B.others s.bank.now line call t.bank.now h.0 };

    ghost owes = { λ s line call t h. B.owes s.bank.now line call t.bank.now h.0 };

    ghost receives = { λ s line call t h. B.receives s.bank.now line call t.bank.now h.0 };

    ghost readied = { λ s line r t h. B.readied s.bank.now line r t.bank.now h.0 };

    fn node(&self) -> NodeId {
        self.bank.node()
    }

    fn lines(&self) -> u16 {
        self.bank.lines()
    }

    fn nodes(&self, line: LineNo) -> u16 {
        self.bank.nodes(line)
    }

    fn number(&self, line: LineNo) -> LineNo {
        self.bank.number(line)
    }

    fn pending(&self, line: LineNo) -> Pending {
        self.bank.pending(line)
    }

    fn stage(&self, line: LineNo) -> Stage {
        self.bank.stage(line)
    }

    #[inline(always)]
    fn own(&mut self, line: LineNo) -> Option<Tag> {
        let own = self.bank.own(line);
        let answer = own;
        self.passed.look(line, answer);
        own
    }

    #[inline(always)]
    fn mem(&mut self, line: LineNo) -> Option<Mem> {
        let mem = self.bank.mem(line);
        let answer = mem;
        self.passed.load(line, Load::Mem(answer));
        mem
    }

    #[inline(always)]
    fn tag(&mut self, line: LineNo, node: NodeId) -> Option<Tag> {
        let tag = self.bank.tag(line, node);
        let answer = tag;
        self.passed.load(line, Load::Tag(node, answer));
        tag
    }

    #[inline(always)]
    fn step(&mut self, line: LineNo, event: Event) -> Outcome {
        let passing = event;
        let outcome = self.bank.step(line, event);
        self.passed.step(line, passing, &outcome);
        outcome
    }

    fn reserve(&mut self, line: LineNo, n: usize) -> Result<(), AllocError> {
        self.bank.reserve(line, n)
    }

    fn room(&self, line: LineNo) -> usize {
        self.bank.room(line)
    }

    fn last_passed(&self, line: LineNo) -> bool {
        self.bank.last_passed(line)
    }

    fn aim(&mut self, line: LineNo, passing: bool) {
        self.bank.aim(line, passing);
    }
}
