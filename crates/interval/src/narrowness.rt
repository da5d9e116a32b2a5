//! How narrow intervals are, as laws.

ghost use Rattle.std.specs.Prelude.{◌≡◌, ◌<◌};
ghost use Rattle.insn.specs.declared.operator.AluOp.{AluOp};
ghost use Rattle.insn.specs.declared.operator.UnaryOp.{UnaryOp};
ghost use Rattle.insn.specs.declared.width.Width.{Width};
ghost use Rattle.interval.specs.Domains.{ArePrecise};
ghost use Rattle.interval.specs.Intervals.{LiesBetween, interval_ops, operand_width};
ghost use Rattle.interval.specs.Narrowness.{ArePassing, AreResults, AreWords, IsExact, IsUnchanged, IsUpper, OnLeft, Refines, result_modulus};
ghost use Rattle.interval.specs.declared.domain.Bounds.{Bounds};
ghost use Rattle.interval.specs.declared.domain.Test.{Test};

/// States how narrow the results of the operations of intervals are.
pub fn law_intervals_are_narrow()
    // Where nothing wraps and no divisor is 0, both ends of a result are results of members.
    ensures ends { (op : AluOp) (w : Width) (x y : Bounds) → AreWords w x → AreWords w y
        → IsExact op w x y → AreResults op w x y (interval_ops.alu op w x y) }
    // Every upper end is bounded by the width and the operands.
    ensures upper { (op : AluOp) (w : Width) (x y : Bounds) → AreWords w x → AreWords w y
        → IsUpper op w x y (interval_ops.alu op w x y).hi }

    // A copy, an extension of a positive number and a cut to bytes that hold the number give the operand.
    ensures unchanged { (op : UnaryOp) (x : Bounds) → AreWords (operand_width op) x
        → IsUnchanged op x → interval_ops.unary op x ≡ x }
    ensures below { (op : UnaryOp) (x : Bounds) → AreWords (operand_width op) x
        → (interval_ops.unary op x).hi < result_modulus op }

    // What an order or equality leaves has no member that passes with none of the other operand.
    ensures passing { (test : Test) (w : Width) (x y : Bounds) → AreWords w x → AreWords w y
        → Refines test w x y → OnLeft (interval_ops.refine test w x y) (ArePassing test w x y) }
    ensures precise { ArePrecise interval_ops LiesBetween }
{}
