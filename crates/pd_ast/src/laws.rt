//! What holds of the names of calls and operators. Each call here does nothing: its contract is a law,
//! which its check proves.
ghost use Rattle.std.specs.Prelude.{◌≡◌, ◌↔◌, Some};
ghost use Rattle.pm_ops.specs.Names.{Name};
ghost use Rattle.pd_ast.specs.declared.call.Call.{Call};
ghost use Rattle.pd_ast.specs.declared.operator.UnaryOperator.{UnaryOperator};
ghost use Rattle.pd_ast.specs.declared.operator.BinaryOperator.{BinaryOperator};
ghost use Rattle.pd_ast.specs.Calls.{call_name, call_named};
ghost use Rattle.pd_ast.specs.Operators.{unary_name, unary_named, binary_name, binary_named};

/// A name is read as a call exactly where it is that call's name.
pub fn call_is_read_from_its_name()
    ensures { (name : Name) (call : Call) →
        (call_named name ≡ Some call) ↔ (name ≡ call_name call) }
{}

/// A spelling is read as an operator before one operand exactly where it is that operator's.
pub fn unary_operator_is_read_from_its_name()
    ensures { (name : Name) (one : UnaryOperator) →
        (unary_named name ≡ Some one) ↔ (name ≡ unary_name one) }
{}

/// A spelling is read as an operator between two operands exactly where it is that operator's.
pub fn binary_operator_is_read_from_its_name()
    ensures { (name : Name) (one : BinaryOperator) →
        (binary_named name ≡ Some one) ↔ (name ≡ binary_name one) }
{}
