//! Laws of entries, stacks and code. Each is the contract of a function that does nothing.
ghost use Rattle.std.specs.Prelude.{◌≡◌, ◌≤◌, ℕ, List, All, Contains, length, map};
ghost use Rattle.std.specs.List.Sorted.{IsStrictlyIncreasing};
ghost use Rattle.sed_typed.specs.declared.program.Method.{Method as AnyMethod};
ghost use Rattle.sed_typed.specs.declared.program.Program.{Program as AnyProgram};
ghost use Rattle.sed_typed.specs.Typed.{IsMethod};
ghost use Rattle.scode_image.specs.declared.image.ImageEntry.{ImageEntry as AnyEntry};
ghost use Rattle.scode_ops.specs.Codes.{IsOp};
ghost use Rattle.scode_emit.specs.Site.{Layout as AnyLayout};
ghost use Rattle.scode_emit.specs.Starts.{starts_of};
ghost use Rattle.scode_emit.specs.Method.{code_of, size_of};
ghost use Rattle.scode_entries.specs.Cases.{EachCaseOf, Has32Bits};
ghost use Rattle.scode_entries.specs.Small.{HasSmallNumbers};
ghost use Rattle.scode_entries.specs.Stack.{body_stack};
ghost use Rattle.scode_entries.specs.Method.{entries_of};

/// The entries of a method ascend, each stands where an instruction starts, and none has more cells on the stack than
/// the method says.
pub fn entries_ascend()
    ensures ascend { (program : AnyProgram) (layout : AnyLayout) (m : AnyMethod)
        → IsStrictlyIncreasing (map (λ (e : AnyEntry). e.place) (entries_of program layout m)) }
    ensures stand { (program : AnyProgram) (layout : AnyLayout) (m : AnyMethod)
        → All (λ (e : AnyEntry). Contains (starts_of 0 (code_of program layout m)) e.place)
        (entries_of program layout m) }
    ensures low { (program : AnyProgram) (layout : AnyLayout) (m : AnyMethod)
        → All (λ (e : AnyEntry). length e.stack ≤ body_stack m.body) (entries_of program layout m) }
{}

/// A method says no more cells than its code has bytes.
pub fn stacks_are_no_longer_than_code()
    ensures { (program : AnyProgram) (layout : AnyLayout) (m : AnyMethod)
        → body_stack m.body ≤ size_of program layout m }
{}

/// Each instruction of a typed method's code is one that there is, if the code is not too long.
pub fn code_exists()
    ensures { (program : AnyProgram) (layout : AnyLayout) (m : AnyMethod)
        → HasSmallNumbers program layout → IsMethod program m → EachCaseOf Has32Bits m.body
        → size_of program layout m ≤ 65535 → All IsOp (code_of program layout m) }
{}
