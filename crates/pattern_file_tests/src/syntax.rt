use crate::texts::{first_fault, unmarked};
use pm_ops::PatternKind;
use std::test::Fail;

/// Texts of files that are read whole.
const READ: [&str; 12] = [
    "",
    "(simplify (plus @0 @1) @0)",
    "(match p @0)",
    "(match (p @0) (negate @0) (if (true) (with { int n = 1; } (if (n == 1)))))",
    "(for op (plus minus) other () (simplify (op @0 @1) @0) (match q (op @0 @1)))",
    "(if (TYPE_PRECISION (type) > 1) (simplify (plus @0 @1) @0))",
    "(define_operator_list ops plus minus) (define_predicates integer_zerop whatever)",
    "(define_predicates) (define_operator_list none)",
    // words are names elsewhere
    "(for simplify (plus) if (minus) (simplify (simplify (if @0 @1) @1) @0))",
    "(simplify (plus @0 @1) (switch (if (true) @0) (if (true) @1) @0))",
    "(simplify (plus @0 @1) (switch (if (true) (if (false) @0)) (if (true) @1 @0)))",
    "(simplify (plus @0 @1) (with { tree t = type; } { build_zero_cst (t); }))",
];

/// Texts with a token that offends, behind the mark; the end is a mark at the end.
const SYNTAX: [&str; 22] = [
    "`plus",
    "(`plus @0 @1)",
    "(simplify `@0 @1)",
    "(simplify `integer_zerop @1)",
    "(simplify (plus @0 @1)`)",
    "(simplify (plus @0 @1) @0 `@1)",
    "(simplify (plus @0 @1) @0`",
    "(simplify (plus @0 @1) `@@0)",
    "(match `@0 @1)",
    "(match p (if @0) `@0)",
    "(match (p`) @0)",
    "(match (p `@@0) @0)",
    "(match p @0 (`for))",
    "(for `(plus) (simplify (plus @0 @1) @0))",
    "(for op (plus) `)",
    "(for op (plus `@0))",
    "(for op (plus) (`define_predicates))",
    "(if `true (simplify (plus @0 @1) @0))",
    "(if (true) `)",
    "(define_operator_list `)",
    "(define_predicates `@0)",
    "(simplify (plus @0 @1) (if `{ true } @0))",
];

/// The same within a C part.
const C_SYNTAX: [&str; 8] = [
    "(simplify (plus @0 @1) (if (1 +`) @0))",
    "(simplify (plus @0 @1) (if (`) @0))",
    "(simplify (plus @0 @1) { @0 `@1 })",
    "(simplify (plus @0 @1) { @0; `; })",
    "(simplify (plus @0 @1) (with { int n = 1 `} @0))",
    "(simplify (plus @0 @1) (with { `n = 1; } @0))",
    "(if (true `{ @0",
    "(match p @0 (if (true`",
];

/// Files are read whole where they are spelled.
#[test]
fn files_are_read(rt: HostRuntime) -> Result<(), Fail> {
    for text in READ {
        assert_eq!(rt; first_fault(rt.alloc(), text.as_bytes()), None, "{text}");
    }
    Ok(())
}

/// The first token that offends is named, by whether it stands in a C part.
#[test]
fn first_tokens_that_offend(rt: HostRuntime) -> Result<(), Fail> {
    for text in SYNTAX {
        let (source, at) = unmarked(rt.alloc(), text.as_bytes())?;
        assert_eq!(rt;
            first_fault(rt.alloc(), &source),
            Some((PatternKind::Syntax, at)),
            "{text}"
        );
    }
    for text in C_SYNTAX {
        let (source, at) = unmarked(rt.alloc(), text.as_bytes())?;
        assert_eq!(rt;
            first_fault(rt.alloc(), &source),
            Some((PatternKind::CSyntax, at)),
            "{text}"
        );
    }
    Ok(())
}
