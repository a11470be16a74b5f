use crate::texts::{captured, first_fault, nested, unmarked};
use pm_ops::PatternKind;
use std::test::Fail;

/// Texts without a fault of names.
const ACCEPTED: [&str; 16] = [
    "(simplify (plus:cs @0 (convert? @1)) (if (true) (minus @0 (negate! @1))))",
    "(simplify (plus @0 INTEGER_CST@1) (minus:type @0 (negate @1)))",
    // `null` and lists without entries fit every number
    "(for op (null) no () (simplify (op (no @0 @1 @2)) @0))",
    "(define_operator_list ops null plus) (for op (ops mult) (simplify (op @0 @1) @0))",
    // groups of optional operations
    "(simplify (plus (convert1? @0) (negate2? @1)) @0)",
    "(for op (plus) (simplify (op @0 (negate?@1 (abs @2))) (op @0 @1)))",
    // predicates, and arguments that are no captures for free parameters
    "(match p (negate @0)) (match p (abs @0)) (simplify (plus p@0 @1) @0)",
    "(match (p @0 @1) (plus @0 @1)) (simplify (negate (p@2 (abs @0) @1)) @2)",
    "(match (p @0) @0) (match (q @0) (negate (p @0))) (simplify (abs (q (abs @0))) @0)",
    "(match (p @0) (negate @@0)) (simplify (abs (p (abs @0))) @0)",
    // a name is free again after its `for`, and its uses there are no uses of a predicate
    "(for foo (plus) (simplify (foo @0 @1) @0)) (match foo @0) (match foo (abs @0))",
    // captures by name, however they are written
    "(simplify (plus @@a @1) (minus @a @1))",
    // what C parts know
    "(for op (plus minus) (simplify (op @0 @1) (if (op == PLUS_EXPR) @0)))",
    "(match p @0 (if (types_match (t, @0)) (with { int n = 1; } (if (n == 1)))))",
    "(simplify (plus @0 @1) (with { bool b = true; } (with { bool c = b; } (if (c) @0))))",
    "(if (SIGNED == UNSIGNED) (simplify (plus @0 @1) (if (TREE_CODE (@0) == SSA_NAME) @1)))",
];

/// Texts with a fault of names, behind the mark.
const REFUSED: [(&str, PatternKind); 66] = [
    // names that are taken
    ("(define_operator_list `plus)", PatternKind::DuplicateName),
    (
        "(define_operator_list `integer_zerop)",
        PatternKind::DuplicateName,
    ),
    (
        "(define_operator_list a) (define_operator_list `a)",
        PatternKind::DuplicateName,
    ),
    (
        "(match p @0) (define_operator_list `p)",
        PatternKind::DuplicateName,
    ),
    (
        "(match p @0) (for `p (plus) (match q @0))",
        PatternKind::DuplicateName,
    ),
    (
        "(for a (plus) `a (minus) (match q @0))",
        PatternKind::DuplicateName,
    ),
    (
        "(for a (plus) (for b () `a () (match q @0)))",
        PatternKind::DuplicateName,
    ),
    ("(for a (plus) (match `a @0))", PatternKind::DuplicateName),
    ("(match `SSA_NAME @0)", PatternKind::DuplicateName),
    ("(match (p @0 `@0) @0)", PatternKind::DuplicateName),
    // further cases
    (
        "(match p @0) (match q (negate p)) (match `p (abs @0))",
        PatternKind::LateCase,
    ),
    (
        "(match (p @0) @0) (simplify (abs (p @0)) @0) (match `p @1)",
        PatternKind::LateCase,
    ),
    // heads and entries
    ("(simplify (`sqrt @0) @0)", PatternKind::UnknownOperator),
    ("(simplify (`plus1 @0 @1) @0)", PatternKind::UnknownOperator),
    (
        "(simplify (abs (`plus3? @0)) @0)",
        PatternKind::UnknownOperator,
    ),
    (
        "(match p @0) (simplify (abs (`p @0)) @0)",
        PatternKind::UnknownOperator,
    ),
    (
        "(match (p @0) @0) (simplify (abs @0) (`p @0))",
        PatternKind::UnknownOperator,
    ),
    ("(match p (negate (`p @0)))", PatternKind::UnknownOperator),
    (
        "(define_operator_list a plus `p)",
        PatternKind::UnknownOperator,
    ),
    (
        "(for a (plus) b (`a) (match q @0))",
        PatternKind::UnknownOperator,
    ),
    (
        "(for a (plus) (match q @0)) (simplify (`a @0 @1) @0)",
        PatternKind::UnknownOperator,
    ),
    (
        "(simplify (abs (`convert1 @0)) @0)",
        PatternKind::UnknownOperator,
    ),
    // predicates
    ("(match p (negate `p@0))", PatternKind::UnknownPredicate),
    (
        "(match (p @0) (negate (`p @0)))",
        PatternKind::UnknownPredicate,
    ),
    (
        "(simplify (plus @0 `plus) @0)",
        PatternKind::UnknownPredicate,
    ),
    (
        "(simplify (plus @0 `p) @0) (match p @0)",
        PatternKind::UnknownPredicate,
    ),
    (
        "(match (p @0) (abs @0)) (match (p @0) (plus @0 `p))",
        PatternKind::UnknownPredicate,
    ),
    // numbers of operands
    ("(simplify (`plus @0) @0)", PatternKind::BadArity),
    ("(simplify (plus @0 @1) (`plus @0))", PatternKind::BadArity),
    (
        "(for op (plus `negate) (match q @0))",
        PatternKind::BadArity,
    ),
    (
        "(define_operator_list a negate) (for op (null plus `a) (match q @0))",
        PatternKind::BadArity,
    ),
    (
        "(for op (null plus) (simplify (`op @0) @0))",
        PatternKind::BadArity,
    ),
    (
        "(match (p @0) @0) (simplify (abs `p) @0)",
        PatternKind::BadArity,
    ),
    (
        "(match (p @0) @0) (simplify (abs (`p @0 @1)) @0)",
        PatternKind::BadArity,
    ),
    ("(match (p @0) @0) (match `p @0)", PatternKind::BadArity),
    // flags and marks
    ("(simplify (plus:`cC @0 @1) @0)", PatternKind::BadFlag),
    ("(simplify (plus:`cc @0 @1) @0)", PatternKind::BadFlag),
    ("(simplify (plus:`x @0 @1) @0)", PatternKind::BadFlag),
    ("(simplify (negate:`c @0) @0)", PatternKind::BadFlag),
    (
        "(match (p @0) @0) (simplify (abs (p:`s @0)) @0)",
        PatternKind::BadFlag,
    ),
    (
        "(match (p @0) @0) (simplify (abs (p`? @0)) @0)",
        PatternKind::BadFlag,
    ),
    (
        "(match (convert1 @0) (abs @0)) (simplify (abs (convert1`? @0)) @0)",
        PatternKind::BadFlag,
    ),
    ("(simplify (negate`? @0) @0)", PatternKind::BadFlag),
    ("(match p (negate`? @0))", PatternKind::BadFlag),
    ("(simplify (abs (plus`? @0 @1)) @0)", PatternKind::BadFlag),
    (
        "(match (p @0) @0) (simplify (abs (p (negate`? @0))) @0)",
        PatternKind::BadFlag,
    ),
    ("(simplify (abs (negate`?@1 @0)) @0)", PatternKind::BadFlag),
    (
        "(simplify (abs (negate`?@1 (convert? (abs@0 @2)))) @1)",
        PatternKind::BadFlag,
    ),
    (
        "(match p @0) (simplify (abs (negate`?@1 p)) @1)",
        PatternKind::BadFlag,
    ),
    ("(simplify (plus`@2 @0 @1) @0)", PatternKind::BadFlag),
    (
        "(simplify (plus @0 integer_zerop@1) (plus`! @0 (negate! @1)))",
        PatternKind::BadFlag,
    ),
    // arguments
    (
        "(match (p @0) (negate@0 @1)) (simplify (abs (p `(abs @0))) @0)",
        PatternKind::BadArgument,
    ),
    (
        "(match (p @0) (plus @1 SSA_NAME@0)) (simplify (abs (p `integer_onep)) { @0 })",
        PatternKind::BadArgument,
    ),
    (
        "(match (p @0) (negate@0 @1)) (match (q @0) (abs (p @0))) (match r (abs (q `(abs @0))))",
        PatternKind::BadArgument,
    ),
    (
        "(match (p @0) (negate@0 @1)) (simplify (abs (p `(sqrt @2))) @2)",
        PatternKind::BadArgument,
    ),
    // captures
    ("(simplify (plus @0 @1) `@2)", PatternKind::UnboundCapture),
    (
        "(simplify (plus @0 @1) (if (integer_zerop (`@2)) @0))",
        PatternKind::UnboundCapture,
    ),
    (
        "(simplify (plus @0 @1) (with { tree x = TREE_TYPE (`@01); } @0))",
        PatternKind::UnboundCapture,
    ),
    ("(match (p `@1) @0)", PatternKind::UnboundCapture),
    (
        "(if (integer_zerop (`@0)) (simplify (plus @0 @1) @0))",
        PatternKind::UnboundCapture,
    ),
    // names of C parts
    ("(simplify (plus @0 @1) (if (`x) @0))", PatternKind::CName),
    (
        "(simplify (plus @0 @1) (if (single_use (@0) && wi::`foo (@2)) @0))",
        PatternKind::CName,
    ),
    (
        "(simplify (plus @0 @1) (if (`t == type) @0))",
        PatternKind::CName,
    ),
    (
        "(simplify (plus @0 @1) (switch (if (true) (with { int n = 1; } @0)) (if (`n == 1) @1)))",
        PatternKind::CName,
    ),
    (
        "(simplify (abs @0) (with { int o = 1; } (with { wi::overflow_type o; } (if (`o) @0))))",
        PatternKind::CName,
    ),
    (
        "(for o (plus) (simplify (o @0 @1) (with { wi::overflow_type o; } { `o })))",
        PatternKind::CName,
    ),
];

/// Files that keep the rules have no fault.
#[test]
fn files_are_accepted(rt: HostRuntime) -> Result<(), Fail> {
    for text in ACCEPTED {
        assert_eq!(rt; first_fault(rt.alloc(), text.as_bytes()), None, "{text}");
    }
    Ok(())
}

/// The first place at which a rule is broken is named, with the rule.
#[test]
fn first_rules_that_are_broken(rt: HostRuntime) -> Result<(), Fail> {
    for (text, kind) in REFUSED {
        let (source, at) = unmarked(rt.alloc(), text.as_bytes())?;
        assert_eq!(rt;
            first_fault(rt.alloc(), &source),
            Some((kind, at)),
            "{text}"
        );
    }
    Ok(())
}

/// A pattern has 32 operations and 32 captures at most; the fault is at the form's `(`.
#[test]
fn limits(rt: HostRuntime) -> Result<(), Fail> {
    assert_eq!(rt; first_fault(rt.alloc(), &nested(rt.alloc(), 32)?), None);
    let nodes = first_fault(rt.alloc(), &nested(rt.alloc(), 33)?);
    assert_eq!(rt; nodes, Some((PatternKind::TooManyNodes, 0)));
    assert_eq!(rt; first_fault(rt.alloc(), &captured(rt.alloc(), 15)?), None);
    let captures = first_fault(rt.alloc(), &captured(rt.alloc(), 16)?);
    assert_eq!(rt; captures, Some((PatternKind::TooManyCaptures, 0)));
    Ok(())
}
