// Laws over what is made of arguments.
ghost use Rattle.std.specs.Prelude.{◌≡◌, ℕ, ℤ, List, [], ◌∷◌, Some, true, FitsSigned};
ghost use Rattle.std.specs.Int.{int_max, int_min, w64};
ghost use Rattle.source_language.specs.declared.syntax.Expr.{Expr};
ghost use Rattle.source_language.specs.Meaning.{value_of};
ghost use Rattle.source_tokens.specs.declared.tokens.Token.{Token};
ghost use Rattle.source_reader.specs.BuiltIns.{extreme, size_of};
ghost use Rattle.source_reader.specs.Calls.{no_arguments};
ghost use Rattle.source_reader.specs.Layouts.{nothing_taken};
ghost use Rattle.source_reader.specs.Names.{Scope};
ghost use Rattle.source_reader.specs.Packed.{AllFit, AreNarrow, HaveValues, KeepsValues, PacksEach};
ghost use Rattle.source_reader.specs.Packed.{have_room, packed_arguments};
ghost use Rattle.source_reader.specs.Trees.{ExprTree, tree_of};
ghost use Rattle.source_reader.specs.TreeValues.{HaveBoth, size, tree_value};
ghost use Rattle.source_reader.specs.declared.built_ins.Taken.TheVariants as taken;

/// What is packed for parameters that share the numbers of a task is what their function takes out: if each argument has
/// a value that fits the width of its parameter, the two numbers have values, and in each frame that begins with these,
/// what the body gives to each parameter has the value of its argument (`kept`). A call packs its arguments as they are
/// read (`packed`), and the value of a tree is that of its expression (`trees`). Some parameters find room (`some`). It does
/// nothing: its contract is the law.
#[tactic(auto, using(crate::proofs::Packing::widths_keep, crate::proofs::TreeSteps::value_of_tree, crate::proofs::EachArgument::arguments_are_packed))]
pub fn widths_keep_arguments()
    ensures packed { (names : Scope) (widths : List ℕ) (called ts : List Token)
        → PacksEach names widths called ts }
    ensures kept { (widths : List ℕ) (arguments : List ExprTree) (values : List ℤ) (slot slots : ℕ)
        (vars : List ℤ) → AreNarrow widths → have_room nothing_taken widths ≡ true
        → AllFit widths values → HaveValues slot slots vars arguments values
        → KeepsValues widths (packed_arguments nothing_taken no_arguments widths arguments) slot
        slots vars values }
    ensures trees { (e : Expr) (slot slots : ℕ) (vars : List ℤ)
        → tree_value (tree_of e) slot slots vars ≡ value_of e slot slots vars }
    ensures some { have_room nothing_taken (0 ∷ 20 ∷ 43 ∷ []) ≡ true }
{}

/// `min`, `max` and `abs` have the values that their names say, whatever wraps on the way. It does nothing: its contract
/// is the law.
pub fn built_ins_have_values()
    ensures least { (slot slots : ℕ) (vars : List ℤ) (a b : ExprTree) (x y : ℤ)
        → HaveBoth slot slots vars a b x y
        → tree_value (extreme taken.Least a b) slot slots vars ≡ Some (int_min x y) }
    ensures greatest { (slot slots : ℕ) (vars : List ℤ) (a b : ExprTree) (x y : ℤ)
        → HaveBoth slot slots vars a b x y
        → tree_value (extreme taken.Greatest a b) slot slots vars ≡ Some (int_max x y) }
    ensures size { (slot slots : ℕ) (vars : List ℤ) (e : ExprTree) (x : ℤ) → FitsSigned w64 x
        → tree_value e slot slots vars ≡ Some x
        → tree_value (size_of e) slot slots vars ≡ Some (size x) }
{}
