//! The law of a step, said of any state.
ghost use Rattle.std.specs.Prelude.{◌≡◌, ◌<◌, ◌≤◌, ◌+◌, ℕ, Option, None, Ok, true, List, All};
ghost use Rattle.sci_core.specs.declared.lines.Line.{Line};
ghost use Rattle.sci_core.specs.declared.events.Event.{Event};
ghost use Rattle.sci_core.specs.declared.outcomes.Outcome.{Outcome};
ghost use Rattle.sci_core.specs.State.{State, opened};
ghost use Rattle.sci_core.specs.Answers.{FitsEvent, Makes, row_at};
ghost use Rattle.sci_core.specs.Costs.{measure, costs};
ghost use Rattle.sci_core.specs.Run.{HasValue, IsLawfulLine, KeepsLawful, Trail};
ghost use Rattle.sci_core.specs.Step.{Finds, IsAtHome, looked};
ghost use Rattle.sci_core.specs.Table.{has_row};
ghost use Rattle.sci_core.specs.Whole.{IsRuled};

use crate::keeps::Keeps;

/// The law of a step, over any state and any number of nodes: it computes nothing, and its contract is the law. A state is
/// *ruled* (`IsRuled` in `specs/Whole.antt`) where it is under the law by ranks, its words are well formed, no link names a
/// node that there isn't, and the value's words fit; so it is lawful and coherent, and what its nodes have seen, told or kept
/// fits the words. A line that nobody has used is ruled. From whatever ruled state, an exchange of any node and a look lead to
/// a ruled one, and change the value only as a write may. An allowed exchange that finds its word finds the slot that it takes
/// at home. Sources: the sharing list of IEEE Std 1596-1992 and of James, Laundrie, Gjessing and Sohi 1990, coherence as in
/// Culler and Singh, the table in this project's profile.
pub fn law_is_kept<K: Keeps>()
    ensures opened { (n : ℕ) (keep : K) (number : ℕ) (line : Line) → K.fits keep number line.words → IsRuled n (K.fits keep number) (opened n line) }
    ensures lawful { (n : ℕ) (keep : K) (number : ℕ) (s : State) → IsRuled n (K.fits keep number) s → IsLawfulLine n (K.fits keep number) s }
    ensures home { (n : ℕ) (keep : K) (number : ℕ) (s : State) (me : ℕ) (e : Event) → IsRuled n (K.fits keep number) s → me < n
        → has_row n me (s.steps me) e ≡ true → Finds s (row_at s me e).change → IsAtHome s (row_at s me e).carry }
    ensures exchange { (n : ℕ) (keep : K) (number : ℕ) (s t : State) (me : ℕ) (e : Event) (answer : Option Line) → IsRuled n (K.fits keep number) s → me < n
        → FitsEvent (K.fits keep number) e → Makes n s me e answer t
        → IsRuled n (K.fits keep number) t × KeepsLawful n (K.fits keep number) s me e (Ok (Outcome.Done answer)) t }
    ensures look { (n : ℕ) (keep : K) (number : ℕ) (s : State) (me : ℕ) → IsRuled n (K.fits keep number) s → me < n
        → IsRuled n (K.fits keep number) (looked s me) × KeepsLawful n (K.fits keep number) s me Event.Look (Ok (Outcome.Done None)) (looked s me) }
{}

/// What a run costs, over any state and any number of nodes: it computes nothing, and its contract is the law. Each event that
/// begins something pays for all exchanges that can follow from it, and what is left to do on a line is never below 0 (`measure`
/// and `cost` in `specs/Costs.antt`). So the events done in a run are at most what its events cost, and what was left to do; and on
/// a line that nobody has used nothing is left. Only Requeue, Adopt and Look can be made again and again, and each costs 1. This
/// project's profile.
pub fn run_is_paid<K: Keeps>()
    ensures paid { (n : ℕ) (keep : K) (number : ℕ) (s t : State) (v w : Line) (es : List (ℕ × Event)) (done : ℕ) → HasValue n (K.fits keep number) s v
        → All (λ e. e.0 < n) es → Trail n (K.fits keep number) s v es done t w → done + measure n t ≤ measure n s + costs es }
    ensures opened { (n : ℕ) (line : Line) → measure n (opened n line) ≡ 0 }
{}
