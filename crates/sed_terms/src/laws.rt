//! Laws of terms and of faults. Each is the contract of a function that does nothing.
ghost use Rattle.std.specs.Prelude.{◌≡◌, List, Option};
ghost use Rattle.sed_typed.specs.declared.statement.Stmt.{Stmt};
ghost use Rattle.sed_typed.specs.declared.tree.Expr.{Expr};
ghost use Rattle.sed_typed.specs.declared.tree.Place.{Place};
ghost use Rattle.sed_typed.specs.Bare.{bare_expr, bare_place, bare_stmt};
ghost use Rattle.sed_typed.specs.Depth.{body_depth, depth_of};
ghost use Rattle.sed_typed.specs.Flat.{IsFlat, IsFlatPlace, IsFlatStmt};
ghost use Rattle.sed_typed.specs.Kinds.{kind_of, place_kind};
ghost use Rattle.sed_typed.specs.Locals.{declared_in};
ghost use Rattle.sed_typed.specs.TypedExpr.{Context, IsExpr, IsPlace};
ghost use Rattle.sed_typed.specs.TypedStmt.{Around, IsStmt};
ghost use Rattle.sed_faults.specs.declared.fault.Fault.{Fault};
ghost use Rattle.sed_terms.specs.declared.judged.Judged.{Judged};
ghost use Rattle.sed_terms.specs.Faults as faults;
ghost use Rattle.sed_terms.specs.Faults.{all_faults, least_fault, told};
ghost use Rattle.sed_terms.specs.Seen.{term_of, place_term, stmt_term};
ghost use Rattle.sed_terms.specs.Sorts.{term_kind};
ghost use Rattle.sed_terms.specs.TermDepth.{body_term_depth, declared_term, term_depth};
ghost use Rattle.sed_terms.specs.TypedTerm.{IsTerm, IsTermPlace};
ghost use Rattle.sed_terms.specs.TypedStmtTerm.{IsStmtTerm};

/// A tree has the kind of its term, and is typed where its term is.
pub fn typed_terms_give_typed_trees()
    ensures kind { (e : Expr) → kind_of e ≡ term_kind (term_of e) }
    ensures place_kind { (p : Place) → place_kind p ≡ term_kind (place_term p) }
    ensures expression { (c : Context) (e : Expr) → IsTerm c (term_of e) → IsExpr c e }
    ensures place { (c : Context) (p : Place) → IsTermPlace c (place_term p) → IsPlace c p }
    ensures statement { (c : Context) (around : Around) (s : Stmt) → IsStmtTerm c around (stmt_term s)
        → IsStmt c around s }
{}

/// The term of a typed tree is typed, so a term says all that the typing rules ask of a tree.
pub fn typed_trees_have_typed_terms()
    ensures expression { (c : Context) (e : Expr) → IsExpr c e → IsTerm c (term_of e) }
    ensures place { (c : Context) (p : Place) → IsPlace c p → IsTermPlace c (place_term p) }
    ensures statement { (c : Context) (around : Around) (s : Stmt) → IsStmt c around s
        → IsStmtTerm c around (stmt_term s) }
{}

/// A tree nests as deep as its term, and declares the same locals.
pub fn trees_nest_as_their_terms()
    ensures expression { (e : Expr) → depth_of e ≡ term_depth (term_of e) }
    ensures body { (s : Stmt) → body_depth s ≡ body_term_depth (stmt_term s) }
    ensures locals { (s : Stmt) → declared_in s ≡ declared_term (stmt_term s) }
{}

/// A term has at most one flat tree. In a flat tree, what follows an operand stands in one chain; two flat trees with
/// the same term are the same wherever they lie in memory. Trees that are the same have the same term, flat or not.
pub fn terms_have_one_tree()
    ensures expression { (a b : Expr) → IsFlat a → IsFlat b → term_of a ≡ term_of b → bare_expr a ≡ bare_expr b }
    ensures place { (a b : Place) → IsFlatPlace a → IsFlatPlace b → place_term a ≡ place_term b
        → bare_place a ≡ bare_place b }
    ensures statement { (a b : Stmt) → IsFlatStmt a → IsFlatStmt b → stmt_term a ≡ stmt_term b
        → bare_stmt a ≡ bare_stmt b }
    ensures same_expression { (a b : Expr) → bare_expr a ≡ bare_expr b → term_of a ≡ term_of b }
    ensures same_place { (a b : Place) → bare_place a ≡ bare_place b → place_term a ≡ place_term b }
    ensures same_statement { (a b : Stmt) → bare_stmt a ≡ bare_stmt b → stmt_term a ≡ stmt_term b }
{}

/// A rule that keeps the least fault where one that keeps all does so too finds the same.
pub fn rules_keep_the_least<A, B, C>()
    ensures one { (x : Judged A (List Fault)) (all : A → Judged C (List Fault)) (least : A → Judged C (Option Fault)) →
        ((a : A) → told (all a) ≡ least a) → told (faults.after x all) ≡ faults.after (told x) least }
    ensures two { (x : Judged A (List Fault)) (y : Judged B (List Fault)) (all : A
        → B → Judged C (List Fault)) (least : A → B → Judged C (Option Fault)) →
        ((a : A) (b : B) → told (all a b) ≡ least a b) →
        told (faults.joined all_faults x y all) ≡ faults.joined least_fault (told x) (told y) least }
{}
