//! A gallery as a whole.
ghost use Rattle.std.specs.Prelude.{ℕ, Result, IsOk};
ghost use Rattle.dsda_cli.specs.Meaning.{generated, Work};
ghost use Rattle.dsda_cli.specs.declared.fault.InputFault.{InputFault};

use lmp_codec::laws::one_verdict;

/// No answer of `gen` that is right is a refusal, whatever the number: the gallery's files and its script are read, its
/// level starts and has all that the script names, and no command of the script is refused.
pub fn gen_is_never_refused()
    ensures { (number : ℕ) (answer : Result Work InputFault) → generated number answer → IsOk answer }
{
    one_verdict();
}
