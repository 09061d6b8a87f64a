//! Laws of the grammar.

ghost use Rattle.std.specs.Prelude.{◌≡◌, List};
ghost use Rattle.m2_tree.specs.declared.token.Token.{Token};
ghost use Rattle.m2_tree.specs.declared.decl.Module.{Module};
ghost use Rattle.m2_tree.specs.declared.expr.Expr.{Expr};
ghost use Rattle.def_grammar.specs.declared.refusal.ParseRefusal.{ParseRefusal};
ghost use Rattle.def_grammar.specs.Factored.{IsFactor, IsPlainFactor};
ghost use Rattle.def_grammar.specs.Refusal.{IsReported, IsTree};

/// A list of tokens has at most one tree.
pub fn one_tree()
    ensures { (ts : List Token) (m n : Module) → IsTree ts m → IsTree ts n → m ≡ n }
{}

/// A list that is refused has no tree.
pub fn tree_or_refusal()
    ensures { (ts : List Token) (m : Module) (r : ParseRefusal) → IsTree ts m → IsReported ts r
        → ⊥ }
{}

/// A list has at most one refusal: one place is the least, and one number is reported of it.
pub fn one_refusal()
    ensures { (ts : List Token) (r q : ParseRefusal) → IsReported ts r → IsReported ts q → r ≡ q }
{}

/// That a set and a designator have their first name in common in the grammar changes no factor and no tree.
pub fn plain_factor()
    ensures plain { (x : Expr) (ts : List Token) → IsFactor x ts → IsPlainFactor x ts }
    ensures back { (x : Expr) (ts : List Token) → IsPlainFactor x ts → IsFactor x ts }
{}
