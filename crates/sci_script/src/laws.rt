//! Laws of scripts.
ghost use Rattle.std.specs.Prelude.{◌≡◌, ◌<◌, ℕ, List, Ok, Err, Option, Some, take, slice_get};
ghost use Rattle.std.specs.Str.Lines.{lines};
ghost use Rattle.sci_script.specs.declared.commands.Command.{Command};
ghost use Rattle.sci_script.specs.declared.commands.Size.{Size};
ghost use Rattle.sci_script.specs.declared.commands.Opening.{Opening};
ghost use Rattle.sci_script.specs.declared.commands.Step.{Step};
ghost use Rattle.sci_script.specs.declared.reasons.Reason.{Reason};
ghost use Rattle.sci_ops.specs.declared.answers.Turn.TheVariants.{Waiting};
ghost use Rattle.sci_script.specs.declared.refusals.ScriptRefusal.{ScriptRefusal};
ghost use Rattle.sci_port.specs.declared.watching.Passed.{Passed};
ghost use Rattle.sci_script.specs.declared.refusals.ScriptRefusal.TheVariants.{OutOfMemory, NotDone};
ghost use Rattle.sci_script.specs.Causes.{HasReason, IsRefusedFor};
ghost use Rattle.sci_script.specs.Format.{Sayings, script_of};
ghost use Rattle.sci_script.specs.Reasons.{IsUndoneOf, IsWhy, IsWhySaid, unbegun_reason};
ghost use Rattle.sci_script.specs.Event.{Turned};
ghost use Rattle.sci_script.specs.Passed.{shared_passes};
ghost use Rattle.sci_script.specs.Request.{no_words};
ghost use Rattle.sci_script.specs.Run.{IsNoRest, PrintsAll, StopsAt};
ghost use Rattle.sci_script.specs.ScriptText.{IsTextOf, Opens};
ghost use Rattle.sci_script.specs.Shared.{Shared, shared_is_open, shared_does};
ghost use Rattle.sci_script.specs.Size.{AreIn, IsIn, IsSize};
ghost use Rattle.sci_script.specs.Talks.{FailsFirst, Hears, Refuses, Says, Silent, Standing, Stops, heard};
ghost use Rattle.sci_script.specs.declared.said.Read.TheVariants as reads;
ghost use Rattle.sci_script.specs.Waiting.{IsAwaited};

/// A script's text is what its lines print, said one by one (`Talk::say`), part by part, each of them accepted. It computes nothing: its
/// contract is the law, of every text that is a script and of all that it may print.
pub fn script_is_said()
    ensures said { (input text : List ℕ) (script : Size × ℕ × List Opening × List Step) → script_of input ≡ Ok script
        → IsTextOf script.0 script.1 script.2 script.3 text → Says Silent (lines input) text }
    ensures heard { (input text : List ℕ) (script : Size × ℕ × List Opening × List Step) → script_of input ≡ Ok script
        → Says Silent (lines input) text → IsTextOf script.0 script.1 script.2 script.3 text }
{}

/// `rest` and `end` are never refused 18 over whole lines. It computes nothing: its contract is the law. Of commands that are run one
/// after another over a desk just opened (`Script::run` over a `WholeDesk`, and so whatever traces, draws or logs a script) one that stops
/// with 18 is another: `rest` always finds a node that moves, and at rest a call ends within 2 * (3 * n + 16) turns of n nodes, 6,176
/// at most. A text that is a script has what the law asks of it. So it is of what is said to a talk, whatever was accepted and
/// refused before.
pub fn rest_and_end_are_done()
    ensures run { (size : Size) (capacity : ℕ) (openings : List Opening) (steps : List Step) (step : Step) (k n : ℕ) (text : List ℕ) (s mid t : Shared) → IsSize size → AreIn size steps
        → Opens size capacity openings s → PrintsAll shared_is_open shared_does no_words s (take k steps) text mid → slice_get steps k ≡ Some step
        → StopsAt shared_is_open shared_does size.nodes mid step (NotDone n) t → IsNoRest step.command }
    ensures read { (input : List ℕ) (script : Size × ℕ × List Opening × List Step) → script_of input ≡ Ok script → IsSize script.0 × AreIn script.0 script.3 }
    ensures talk { (before : List (List ℕ)) (line : List ℕ) (command : Command) (n : ℕ) (s t : Standing) → Hears Silent before s → heard s line ≡ Ok (reads.Command command)
        → Stops s command (NotDone n) t → IsNoRest command }
{}

/// A turn that waits names a node that it waits for. Behind commands that are run one after another over a desk just opened, where a
/// turn of a node's call waits, `WholeDesk::waits_for` names a node on the line on which it looked (`Passed::line`). So a `done` that is
/// refused 18 has the reason that its node waits for another (`WholeDesk::why`), unless each of its 100,000 turns made an exchange. It
/// computes nothing: its contract is the law.
pub fn waits_name_a_node()
    ensures turn { (size : Size) (capacity : ℕ) (openings : List Opening) (steps : List Step) (k : ℕ) (text : List ℕ) (s mid t : Shared) (node : ℕ) (before after : Passed) (whom : Option ℕ) → AreIn size steps
        → Opens size capacity openings s → PrintsAll shared_is_open shared_does no_words s (take k steps) text mid → node < size.nodes → shared_does mid (Turned node Waiting) t
        → shared_passes mid node t before after → IsAwaited t after.line node whom → (y : ℕ) × (whom ≡ Some y) }
    ensures done { (size : Size) (capacity : ℕ) (openings : List Opening) (steps : List Step) (step : Step) (k n : ℕ) (text : List ℕ) (s mid t : Shared) (why : Option Reason) → AreIn size steps
        → Opens size capacity openings s → PrintsAll shared_is_open shared_does no_words s (take k steps) text mid → slice_get steps k ≡ Some step
        → StopsAt shared_is_open shared_does size.nodes mid step (NotDone n) t → IsWhy t step.command why → IsUndoneOf step.command mid t why }
{}

/// Why a command was refused, by the desk as it stands behind that (`WholeDesk::why`), is a reason of just this refusal. Each refusal
/// of a call, a turn or a `done` has one, but for want of memory; other commands wait for nobody, and have none. So it is of the first
/// command, over a desk just opened. And what is wrong with a line that is said (`Talk::why`) is a reason of just that refusal. It
/// computes nothing: its contract is the law.
pub fn refusals_have_reasons()
    ensures fits { (s t : Shared) (step : Step) (nodes : ℕ) (e : ScriptRefusal) (why : Option Reason) → StopsAt shared_is_open shared_does nodes s step e t
        → (e ≡ OutOfMemory → ⊥) → IsWhy t step.command why → HasReason step.command e why }
    ensures first { (said : Sayings) (command : Command) (e : ScriptRefusal) → IsIn said.place.size command → FailsFirst said command e
        → (e ≡ OutOfMemory → ⊥) → HasReason command e (unbegun_reason command) }
    ensures line { (s t : Standing) (line : List ℕ) (reason : Reason) (e : ScriptRefusal) (why : Option Reason) → heard s line ≡ Err reason → Refuses s line e t
        → (e ≡ OutOfMemory → ⊥) → IsWhySaid t line why → IsRefusedFor e why }
{}
