//! Laws of code. Each is the contract of a function that does nothing but name the laws that it stands on.
ghost use Rattle.std.specs.Prelude.{◌≡◌, ◌≤◌, ℕ, ◌++◌, List, ◌∷◌, Option, Some, All, length};
ghost use Rattle.sed_typed.specs.declared.program.Method.{Method as AnyMethod};
ghost use Rattle.sed_typed.specs.declared.program.Program.{Program as AnyProgram};
ghost use Rattle.sed_typed.specs.declared.statement.Stmt.{Stmt as AnyStmt};
ghost use Rattle.sed_typed.specs.declared.tree.Expr.{Expr as AnyExpr};
ghost use Rattle.scode_ops.specs.declared.op.Op.{Op as AnyOp};
ghost use Rattle.scode_ops.specs.Codes.{IsOp};
ghost use Rattle.scode_ops.specs.Decoding.{op_at};
ghost use Rattle.scode_code.specs.CodeRules.{starts};
ghost use Rattle.scode_emit.specs.Site.{Site as AnySite, Layout as AnyLayout};
ghost use Rattle.scode_emit.specs.Sizes.{expr_size, stmt_size};
ghost use Rattle.scode_emit.specs.Code.{expr_code, stmt_code, bytes_of};
ghost use Rattle.scode_emit.specs.Starts.{starts_of};
ghost use Rattle.scode_emit.specs.Method.{code_of, size_of};
ghost use Rattle.scode_emit.specs.Nodes.{body_nodes};

use scode_ops::instructions_are_found;

/// The code of an expression, of a statement and of a method has as many bytes as its size says, wherever it begins.
pub fn code_has_its_size()
    ensures expressions { (w : AnySite) (at : ℕ) (e : AnyExpr) → length (bytes_of (expr_code w at e)) ≡ expr_size w e }
    ensures statements { (w : AnySite) (at out on : ℕ) (s : AnyStmt)
        → length (bytes_of (stmt_code w at out on s)) ≡ stmt_size w s }
    ensures methods { (program : AnyProgram) (layout : AnyLayout) (m : AnyMethod)
        → length (bytes_of (code_of program layout m)) ≡ size_of program layout m }
{}

/// The code of a method that has at most 1,000 statements, expressions and case labels together is not too long.
pub fn small_methods_are_not_too_long()
    ensures { (program : AnyProgram) (layout : AnyLayout) (m : AnyMethod)
        → body_nodes m.body ≤ 1000 → size_of program layout m ≤ 65535 }
{}

/// In the bytes of instructions each that has an encoding stands behind those before it; and where all have one, the
/// starts that are found from the first byte on are theirs.
pub fn instructions_stand_where_they_start()
    ensures stands { (before behind : List AnyOp) (op : AnyOp) → IsOp op
        → op_at (bytes_of (before ++ op ∷ behind)) (length (bytes_of before)) ≡ Some op }
    ensures starts { (ops : List AnyOp) → All IsOp ops → starts (bytes_of ops) ≡ starts_of 0 ops }
{
    instructions_are_found();
}
