ghost use Rattle.std.specs.Prelude.{◌≡◌, ◌<◌, ◌^◌, ◌++◌, ℕ, List, [], Result};
ghost use Rattle.std.specs.List.{AllByRecursion};
ghost use Rattle.lmp_codec.specs.Demo.{IsVerdict, MayBeWritten, written};
ghost use Rattle.lmp_codec.specs.declared.input.Tic.{Tic};
ghost use Rattle.lmp_codec.specs.declared.whole.Demo.{Demo};
ghost use Rattle.lmp_codec.specs.declared.fault.DemoFault.{DemoFault};

/// Each text of bytes is a demo or has a fault, and never two of these: no text is read in two ways, none has two
/// faults, and no demo has one.
pub fn one_verdict()
    ensures some { (text : List ℕ) → AllByRecursion (λ byte. byte < 2 ^ 8) text → (verdict : Result Demo DemoFault) × IsVerdict text verdict }
    ensures one { (text : List ℕ) (this other : Result Demo DemoFault) → IsVerdict text this → IsVerdict text other → this ≡ other }
{}

/// No written form begins another one, in either version: what is written can't be a demo that was cut.
pub fn no_form_begins_another()
    ensures { (header other : List ℕ) (tics others : List Tic) (more : List ℕ) → MayBeWritten header tics → MayBeWritten other others → written header tics ++ more ≡ written other others → more ≡ [] }
{}
