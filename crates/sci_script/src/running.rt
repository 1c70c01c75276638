//! Runs a script.
ghost use Rattle.std.specs.Prelude.{◌≡◌, ◌<◌, ◌≤◌, ◌++◌, ℕ, List, [], true, Some, string_bytes, IfOk, IfErr, OnOk, All, MatchBool, MatchOption};
ghost use Rattle.sci_core.specs.declared.whole.TheConstants.{MOST_NODES};
ghost use Rattle.sci_script.specs.declared.commands.Command.TheVariants.{Begin as BeginCall, Turn as TurnOnce, Done, Rest, End, List as ListLine, Tag as ShowTag, Show};
ghost use Rattle.sci_script.specs.Size.{IsIn, is_ask};
ghost use Rattle.sci_ops.specs.declared.answers.Turn.TheVariants.{Waiting};
ghost use Rattle.sci_script.specs.Event.{Turned, IsEnd, IsNoEnd, WaitsOn};
ghost use Rattle.sci_script.specs.Request.{words_after};
ghost use Rattle.sci_script.specs.declared.desk.Toward.{Toward};
ghost use Rattle.sci_script.specs.Run.{Unended, CalmsTo, RestsLines, RestsNot, EndsOpenBy, EndStops, Prints, StopsAt};

use crate::commands::{Ask, Command, Request, Script, Size, Step};
use crate::desk::{Desk, Toward};
use crate::loading::{load_mem, load_tag, walk};
use crate::refusals::ScriptRefusal;
use crate::texts::{list_text, look_text, tag_text, turn_text};
use crate::writing::put;
use sci_core::MOST_NODES;
use sci_ops::Turn;
use sci_words::{LineNo, NodeId};
use std::alloc::Global;
use std::io::Write;

/// How many nodes a script has at the most: as many as a line.
pub const NODES: usize = MOST_NODES as usize;

/// How many turns a call may take under `done`.
pub const TURNS: u32 = 100_000;

/// Whether the turn ended the call.
pub fn is_end(turn: Turn) -> bool
    ensures { MatchBool result (IsEnd turn) (IsNoEnd turn) }
{
    matches!(turn, Turn::Done(_))
}

/// Whether behind this turn each further one would wait, and change nothing.
#[inline(always)]
fn is_stuck<D: Desk>(desk: &D, turn: Turn) -> bool
    ensures { result ≡ true → (turn ≡ Waiting) × WaitsOn D.does }
{
    matches!(turn, Turn::Waiting) && desk.waits_on()
}

/// Turns until the call ends, or `None` if it doesn't. Where each further turn would wait, none is taken.
#[inline(always)]
fn turns_to_end<D: Desk>(desk: &mut D, node: NodeId) -> Option<Turn>
    requires node { node < (D.size desk.old).nodes }
    requires open { D.is_open desk.old node ≡ true }
    ensures ended { MatchOption result (Unended D.does node 100000 desk.old desk.new)
        (λ o. (n : ℕ) × (n < 100000) × (mid : D) × Unended D.does node n desk.old mid × IsEnd o × D.does mid (Turned node o) desk.new) }
    ensures size { D.size desk.new ≡ D.size desk.old }
{
    for _ in 0..TURNS {
        let turn = desk.turn(node);
        if is_end(turn) {
            return Some(turn);
        }
        if is_stuck(desk, turn) {
            return None;
        }
    }
    None
}

/// `done`: the text of the end of the node's open call, behind an empty text.
fn done<D: Desk>(
    text: &mut String,
    desk: &mut D,
    nodes: u16,
    words: &[u8; NODES],
    number: u64,
    node: NodeId,
) -> Result<(), ScriptRefusal>
    requires empty { string_bytes text.old ≡ [] }
    requires node { node < (D.size desk.old).nodes }
    requires few { (D.size desk.old).nodes ≤ MOST_NODES }
    requires words { All (λ w. w < 8) words.now }
    ensures ok { OnOk result (Prints D.is_open D.does words.now desk.old (Done node) (string_bytes text.new) desk.new) }
    ensures err { IfErr result (λ e. StopsAt D.is_open D.does nodes desk.old (record { number = number; command = Done node }) e desk.new) }
    ensures size { D.size desk.new ≡ D.size desk.old }
{
    if !desk.open(node) {
        return Err(ScriptRefusal::BadCommand(number));
    }
    match turns_to_end(desk, node) {
        Some(turn) => Ok(turn_text(text, node, words[usize::from(node.get())], &turn)?),
        None => Err(ScriptRefusal::NotDone(number)),
    }
}

/// Turns towards rest on the line, one after another: true where it is reached, false where it isn't known who moves.
fn line_rests<D: Desk>(desk: &mut D, line: LineNo) -> bool
    requires { line < (D.size desk.old).lines }
    ensures calms { MatchBool result (CalmsTo D.does line Toward.Reached desk.old desk.new) (CalmsTo D.does line Toward.Unknown desk.old desk.new) }
    ensures size { D.size desk.new ≡ D.size desk.old }
{
    'turns: loop {
        match desk.rest_turn(line) {
            Toward::Turned(_) => {}
            Toward::Reached => return true,
            Toward::Unknown => return false,
        }
    }
}

/// The same of each line, one after another.
fn all_rest<D: Desk>(desk: &mut D, lines: u16) -> bool
    requires { lines ≡ (D.size desk.old).lines }
    ensures rested { MatchBool result (RestsLines D.does lines desk.old desk.new) (RestsNot D.does lines desk.old desk.new) }
    ensures size { D.size desk.new ≡ D.size desk.old }
{
    for line in 0..lines {
        if !line_rests(desk, line) {
            return false;
        }
    }
    true
}

/// `rest`: each line is brought to rest. It prints nothing.
fn rest<D: Desk>(desk: &mut D, nodes: u16, number: u64, lines: u16) -> Result<(), ScriptRefusal>
    requires { lines ≡ (D.size desk.old).lines }
    ensures ok { OnOk result (Prints D.is_open D.does [] desk.old (Rest lines) [] desk.new) }
    ensures err { IfErr result (λ e. StopsAt D.is_open D.does nodes desk.old (record { number = number; command = Rest lines }) e desk.new) }
    ensures size { D.size desk.new ≡ D.size desk.old }
{
    if !all_rest(desk, lines) {
        return Err(ScriptRefusal::NotDone(number));
    }
    Ok(())
}

/// The node's call is taken to its end, where it is open: the text of that, behind what there is.
fn end_open<D: Desk>(
    text: &mut String,
    desk: &mut D,
    words: &[u8; NODES],
    number: u64,
    node: NodeId,
) -> Result<(), ScriptRefusal>
    requires node { node < (D.size desk.old).nodes }
    requires few { (D.size desk.old).nodes ≤ MOST_NODES }
    requires words { All (λ w. w < 8) words.now }
    ensures ok { OnOk result ((last : List ℕ) × EndsOpenBy (D.is_open desk.old node) D.does words.now node desk.old last desk.new × (string_bytes text.new ≡ string_bytes text.old ++ last)) }
    ensures err { IfErr result (λ e. (D.is_open desk.old node ≡ true) × EndStops D.does words.now number node desk.old e desk.new) }
    ensures size { D.size desk.new ≡ D.size desk.old }
{
    if !desk.open(node) {
        return Ok(());
    }
    match turns_to_end(desk, node) {
        Some(turn) => turn_text(text, node, words[usize::from(node.get())], &turn)?,
        None => return Err(ScriptRefusal::NotDone(number)),
    }
    Ok(())
}

/// `end`: `rest`, and then the texts of the ends of all open calls, the lowest node's first, behind an empty text.
fn end<D: Desk>(
    text: &mut String,
    desk: &mut D,
    words: &[u8; NODES],
    number: u64,
    nodes: u16,
    lines: u16,
) -> Result<(), ScriptRefusal>
    requires empty { string_bytes text.old ≡ [] }
    requires nodes { nodes ≡ (D.size desk.old).nodes }
    requires lines { lines ≡ (D.size desk.old).lines }
    requires few { (D.size desk.old).nodes ≤ MOST_NODES }
    requires words { All (λ w. w < 8) words.now }
    ensures ok { OnOk result (Prints D.is_open D.does words.now desk.old (End nodes lines) (string_bytes text.new) desk.new) }
    ensures err { IfErr result (λ e. StopsAt D.is_open D.does nodes desk.old (record { number = number; command = End nodes lines }) e desk.new) }
    ensures size { D.size desk.new ≡ D.size desk.old }
{
    if !all_rest(desk, lines) {
        return Err(ScriptRefusal::NotDone(number));
    }
    for place in 0..nodes {
        let node = NodeId::new(place).unwrap();
        end_open(text, desk, words, number, node)?;
    }
    Ok(())
}

/// `list`: the text of the line's sharing list.
fn list<D: Desk>(
    alloc: Global,
    text: &mut String,
    desk: &mut D,
    nodes: u16,
    number: u64,
    line: LineNo,
) -> Result<(), ScriptRefusal>
    requires { line < (D.size desk.old).lines }
    ensures ok { OnOk result (Prints D.is_open D.does [] desk.old (ListLine line) (string_bytes text.new) desk.new) }
    ensures err { IfErr result (λ e. StopsAt D.is_open D.does nodes desk.old (record { number = number; command = ListLine line }) e desk.new) }
    ensures size { D.size desk.new ≡ D.size desk.old }
{
    let Some(mem) = load_mem(desk, line) else {
        return Err(ScriptRefusal::NotDone(number));
    };
    match walk(alloc, desk, line, mem.forw, nodes)? {
        Some(entries) => *text = list_text(alloc, line, mem, &entries)?,
        None => return Err(ScriptRefusal::NotDone(number)),
    }
    Ok(())
}

/// `tag`: the text of the node's tag on the line.
fn tag<D: Desk>(
    alloc: Global,
    text: &mut String,
    desk: &mut D,
    nodes: u16,
    number: u64,
    line: LineNo,
    node: NodeId,
) -> Result<(), ScriptRefusal>
    requires line { line < (D.size desk.old).lines }
    requires node { node < (D.size desk.old).nodes }
    ensures ok { OnOk result (Prints D.is_open D.does [] desk.old (ShowTag line node) (string_bytes text.new) desk.new) }
    ensures err { IfErr result (λ e. StopsAt D.is_open D.does nodes desk.old (record { number = number; command = ShowTag line node }) e desk.new) }
    ensures size { D.size desk.new ≡ D.size desk.old }
{
    let tag = load_tag(desk, line, node).ok_or(ScriptRefusal::NotDone(number))?;
    *text = tag_text(alloc, line, node, tag)?;
    Ok(())
}

/// The text of what is asked.
fn show<D: Desk>(
    alloc: Global,
    text: &mut String,
    desk: &mut D,
    nodes: u16,
    number: u64,
    ask: Ask,
) -> Result<(), ScriptRefusal>
    requires { is_ask (D.size desk.old) ask ≡ true }
    ensures ok { OnOk result (Prints D.is_open D.does [] desk.old (Show ask) (string_bytes text.new) desk.new) }
    ensures err { IfErr result (λ e. StopsAt D.is_open D.does nodes desk.old (record { number = number; command = Show ask }) e desk.new) }
    ensures size { D.size desk.new ≡ D.size desk.old }
{
    let look = desk.look(alloc, ask)?;
    *text = look_text(alloc, &look)?;
    Ok(())
}

// A call begins where the node has none open. It prints nothing.
fn begin<D: Desk>(
    desk: &mut D,
    nodes: u16,
    number: u64,
    node: NodeId,
    line: LineNo,
    request: Request,
) -> Result<(), ScriptRefusal>
    requires command { IsIn (D.size desk.old) (BeginCall node line request) }
    ensures ok { OnOk result (Prints D.is_open D.does [] desk.old (BeginCall node line request) [] desk.new) }
    ensures err { IfErr result (λ e. StopsAt D.is_open D.does nodes desk.old (record { number = number; command = BeginCall node line request }) e desk.new) }
    ensures size { D.size desk.new ≡ D.size desk.old }
{
    if desk.open(node) {
        return Err(ScriptRefusal::BadCommand(number));
    }
    Ok(desk.begin(node, request.on(line))?)
}

/// `turn`: the text of one turn of the node's open call, behind an empty text.
fn turn<D: Desk>(
    text: &mut String,
    desk: &mut D,
    nodes: u16,
    words: &[u8; NODES],
    number: u64,
    node: NodeId,
) -> Result<(), ScriptRefusal>
    requires empty { string_bytes text.old ≡ [] }
    requires node { node < (D.size desk.old).nodes }
    requires few { (D.size desk.old).nodes ≤ MOST_NODES }
    requires words { All (λ w. w < 8) words.now }
    ensures ok { OnOk result (Prints D.is_open D.does words.now desk.old (TurnOnce node) (string_bytes text.new) desk.new) }
    ensures err { IfErr result (λ e. StopsAt D.is_open D.does nodes desk.old (record { number = number; command = TurnOnce node }) e desk.new) }
    ensures size { D.size desk.new ≡ D.size desk.old }
{
    if !desk.open(node) {
        return Err(ScriptRefusal::BadCommand(number));
    }
    let came = desk.turn(node);
    Ok(turn_text(text, node, words[usize::from(node.get())], &came)?)
}

/// One command: what it prints, behind an empty text. The words are those that the nodes' last loads are to show.
pub fn perform<D: Desk>(
    alloc: Global,
    text: &mut String,
    desk: &mut D,
    nodes: u16,
    words: &[u8; NODES],
    step: Step,
) -> Result<(), ScriptRefusal>
    requires empty { string_bytes text.old ≡ [] }
    requires command { IsIn (D.size desk.old) step.command }
    requires few { (D.size desk.old).nodes ≤ MOST_NODES }
    requires words { All (λ w. w < 8) words.now }
    ensures ok { OnOk result (Prints D.is_open D.does words.now desk.old step.command (string_bytes text.new) desk.new) }
    ensures err { IfErr result (λ e. StopsAt D.is_open D.does nodes desk.old step e desk.new) }
    ensures size { D.size desk.new ≡ D.size desk.old }
{
    let Step { number, command } = step;
    match command {
        Command::Begin {
            node,
            line,
            request,
        } => begin(desk, nodes, number, node, line, request),
        Command::Turn { node } => turn(text, desk, nodes, words, number, node),
        Command::Done { node } => done(text, desk, nodes, words, number, node),
        Command::Rest { lines } => rest(desk, nodes, number, lines),
        Command::End { nodes, lines } => end(text, desk, words, number, nodes, lines),
        Command::List { line } => list(alloc, text, desk, nodes, number, line),
        Command::Tag { line, node } => tag(alloc, text, desk, nodes, number, line, node),
        Command::Show(ask) => show(alloc, text, desk, nodes, number, ask),
    }
}

/// The words that the nodes' last loads are to show, after a command.
pub fn note(words: &mut [u8; NODES], size: Size, command: Command)
    requires few { size.nodes ≤ MOST_NODES }
    requires command { IsIn size command }
    requires words { All (λ w. w < 8) words.old }
    ensures words { words.new ≡ words_after words.old command }
    ensures range { All (λ w. w < 8) words.new }
{
    if let Command::Begin { node, request, .. } = command {
        if let Request::Load { word } = request {
            words[usize::from(node.get())] = word;
        }
    }
}

impl Script {
    ghost use Rattle.std.specs.Prelude.{◌≡◌, ℕ, List, IfErr, OnOk};
    ghost use Rattle.std.specs.Io.KnownBytes.{Appends};
    ghost use Rattle.sci_script.specs.Request.{no_words};
    ghost use Rattle.sci_script.specs.Run.{PrintsAll, Leaves};

    /// Runs the script over a desk of its nodes and lines, and writes its text. The refusals: 16 for a call begun while the
    /// node's call is open, and for a turn without a call; 18 for a call that didn't end within 100,000 turns, for a word that was
    /// not to be had 100,000 times in a row, and for a list of more entries than nodes; 7 where memory ran out; 24 where the
    /// writer failed before all was written. What was written before stays, and so do the turns.
    pub fn run<D: Desk, W: Write>(
        &self,
        alloc: Global,
        desk: &mut D,
        out: &mut W,
    ) -> Result<(), ScriptRefusal>
        requires { D.size desk.old ≡ self.now.size }
        // All of the script's text is written.
        ensures ok { OnOk result ((text : List ℕ) × PrintsAll D.is_open D.does no_words desk.old self.now.steps.items text desk.new
            × Appends (W.contents out.old) (W.contents out.new) text) }
        // The text of the commands before the refused one is, or a front of the text.
        ensures err { IfErr result (λ e. (written : List ℕ) × Leaves D.is_open D.does self.now.size.nodes desk.old self.now.steps.items e written desk.new
            × Appends (W.contents out.old) (W.contents out.new) written) }
        ensures size { D.size desk.new ≡ D.size desk.old }
    {
        let mut words = [0; NODES];
        // one text for all commands, so that not each takes memory
        let mut text = String::new(alloc);
        for step in &self.steps {
            text.clear();
            perform(alloc, &mut text, desk, self.size.nodes, &words, *step)?;
            note(&mut words, self.size, step.command);
            match put(out, text.as_bytes()) {
                Ok(()) => {}
                Err(_) => return Err(ScriptRefusal::WriteFailed),
            }
        }
        Ok(())
    }
}
