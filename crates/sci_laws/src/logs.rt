//! Logs are read as what they tell, and follow.
ghost use Rattle.sci_core.specs.State.{State};
ghost use Rattle.sci_core.specs.Whole.{IsRuled};
ghost use Rattle.sci_core.specs.declared.events.Event.{Event};
ghost use Rattle.sci_dump.specs.ReadBack.{IsContent};
ghost use Rattle.sci_laws.specs.FollowedTurns.{IsOfLine, IsSurelyFollowed, AreFollowed, AreReadAs, AreToldOf, fit, turn_told};
ghost use Rattle.sci_laws.specs.ReadBack.{IsBehind, IsReadAs, MayEnd, look_of, noted_of, told_of};
ghost use Rattle.sci_logs.specs.LineText.{memory_at, noted_at, opening_at};
ghost use Rattle.sci_logs.specs.Logging.{logs};
ghost use Rattle.sci_logs.specs.TurnText.{entries_of, exchange_line, log_head, look_line, opening_line};
ghost use Rattle.sci_ops.specs.Change.{StoresFitting};
ghost use Rattle.sci_ops.specs.Operation.{Operation};
ghost use Rattle.sci_ops.specs.declared.answers.Turn.{Turn};
ghost use Rattle.sci_port.specs.declared.watching.Ending.{Ending};
ghost use Rattle.sci_port.specs.declared.watching.Passed.{Passed};
ghost use Rattle.sci_script.specs.Passed.{PassesOn};
ghost use Rattle.sci_script.specs.Request.{no_words};
ghost use Rattle.sci_script.specs.Run.{IsNoRest, PrintsAll, StopsAt};
ghost use Rattle.sci_script.specs.ScriptText.{Opens};
ghost use Rattle.sci_script.specs.Shared.{Shared};
ghost use Rattle.sci_script.specs.Size.{IsSize, AreIn};
ghost use Rattle.sci_script.specs.Turns.{TurnsOn};
ghost use Rattle.sci_script.specs.declared.commands.Opening.{Opening};
ghost use Rattle.sci_script.specs.declared.commands.Size.{Size};
ghost use Rattle.sci_script.specs.declared.commands.Step.{Step};
ghost use Rattle.sci_script.specs.declared.refusals.ScriptRefusal.TheVariants.{NotDone};
ghost use Rattle.sci_script.specs.declared.refusals.ScriptRefusal.{ScriptRefusal};
ghost use Rattle.sci_serve.specs.Serve.{Serves, StopsRunning};
ghost use Rattle.sci_serve.specs.declared.scripts.Form.TheVariants as forms;
ghost use Rattle.sci_trace.specs.Telling.{nothing, Telling, telling, telling_is_open};
ghost use Rattle.std.specs.List.{flat_map};
ghost use Rattle.std.specs.Prelude.{◌≡◌, ◌<◌, ◌≤◌, ◌++◌, ℕ, List, Some, take, slice_get};

/// What `trace --log` writes line by line is read by `check` as what it tells: the size, what a line opens with, each look, and each
/// exchange with its outcome.
pub fn entries_are_read_back()
    ensures memory { (size : Size) (openings : List Opening) → IsSize size
        → (line : List ℕ) × (log_head size openings ≡ line ++ flat_map opening_line openings) × IsReadAs memory_at line size }
    ensures openings { (opening : Opening) → opening.line < 65536 → IsContent opening.content → IsReadAs opening_at (opening_line opening) (opening.line, opening.content) }
    ensures looks { (node line : ℕ) → node < 65535 → line < 65536 → IsReadAs noted_at (look_line node line) (look_of node line) }
    ensures exchanges { (node : ℕ) (passed : Passed) (event : Event) (ending : Ending) → passed.step ≡ Some (event, ending) → node < 65535 → passed.line < 65536
        → IsBehind passed.load event → MayEnd (told_of passed.load event) ending → IsReadAs noted_at (exchange_line node passed) (noted_of node passed event ending) }
{}

/// What a log has of a turn on a lawful line is followed: it is read line by line, and lines that stand so answer it, one after
/// another, as it is told and in no other way, up to the line behind the turn, which is lawful.
pub fn turns_are_followed()
    ensures { (n me line : ℕ) (op : Operation) (s t : State) (turn : Turn) (passed : Passed) → n ≤ 1024 → me < n → line < 65536 → IsRuled n fit s → StoresFitting fit op.goal
        → TurnsOn n me op s turn t → PassesOn n me line op s t nothing passed
        → AreReadAs (entries_of me passed) (turn_told me passed) × AreToldOf n me line (turn_told me passed) × IsRuled n fit t
        × ((lines : ℕ → State) → lines line ≡ s → AreFollowed n lines (turn_told me passed) line t) }
{}

/// The log of every script follows: what `trace --log` writes of a script that ends, or of one that is refused at one of its lines,
/// is a run of the table from its opening, and `check` finds no fault in it, unless it can't be read or memory runs out.
pub fn logs_follow()
    ensures ended { (limit : ℕ) (input text : List ℕ) → Serves limit forms.Log input text → IsSurelyFollowed text }
    ensures refused { (limit : ℕ) (input written : List ℕ) (refusal : ScriptRefusal) → IsOfLine refusal → StopsRunning limit forms.Log refusal input written → IsSurelyFollowed written }
{}

/// `rest` and `end` are never refused 18 where a script is logged either, as `rest_and_end_are_done` of `sci_script` says of its runs
/// and of its traces. It computes nothing: its contract is the law.
pub fn logged_rest_and_end_are_done()
    ensures { (size : Size) (capacity : ℕ) (openings : List Opening) (steps : List Step) (step : Step) (k n : ℕ) (text log : List ℕ) (s : Shared) (mid t : Telling) → IsSize size → AreIn size steps
        → Opens size capacity openings s → PrintsAll telling_is_open logs no_words (telling s log) (take k steps) text mid → slice_get steps k ≡ Some step
        → StopsAt telling_is_open logs size.nodes mid step (NotDone n) t → IsNoRest step.command }
{}
