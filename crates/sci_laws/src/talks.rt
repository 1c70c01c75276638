//! What a talk answers is what its script prints.
ghost use Rattle.std.specs.Prelude.{◌≡◌, ℕ, false, List, Ok};
ghost use Rattle.std.specs.Str.Lines.{lines};
ghost use Rattle.sci_laws.specs.Accepted.{refuses, without_ok};
ghost use Rattle.sci_script.specs.Format.{script_of};
ghost use Rattle.sci_script.specs.ScriptText.{IsTextOf};
ghost use Rattle.sci_script.specs.Talks.{Standing, Silent};
ghost use Rattle.sci_script.specs.declared.commands.Opening.{Opening};
ghost use Rattle.sci_script.specs.declared.commands.Size.{Size};
ghost use Rattle.sci_script.specs.declared.commands.Step.{Step};
ghost use Rattle.sci_serve.specs.Serve.{Serves};
ghost use Rattle.sci_serve.specs.Talked.{Talks};
ghost use Rattle.sci_serve.specs.declared.scripts.Form.TheVariants as forms;

/// What `serve_script` writes of a script that ends is what `serve_talk` writes without its lines `ok`, and the other way round where no
/// line is refused. It computes nothing: its contract is the law, of every text that is a script and of all that may be written.
pub fn script_is_talked()
    ensures talked { (input text : List ℕ) → Serves 1048576 forms.Script input text
        → (talk : List ℕ) × (t : Standing) × Talks Silent (lines input) talk t × (refuses talk ≡ false) × (without_ok talk ≡ text) }
    ensures printed { (input talk : List ℕ) (script : Size × ℕ × List Opening × List Step) (t : Standing) → script_of input ≡ Ok script
        → Talks Silent (lines input) talk t → refuses talk ≡ false → IsTextOf script.0 script.1 script.2 script.3 (without_ok talk) }
{}
