use first_patterns::{ReadFault, Row, Side, read};
use pm_ops::Code;
use std::alloc::Global;
use std::process::Abort;
use std::test::Fail;

const fn row(at: usize, code: Code, same: bool, side: Side) -> Row {
    Row {
        at,
        code,
        same,
        result: side,
    }
}

fn reads(rt: &impl Abort, alloc: Global, source: &[u8], rows: &[Row]) -> Result<(), Fail> {
    let found = read(alloc, source)?;
    assert_eq!(rt; found.as_slice(), rows, "at {source:?}");
    Ok(())
}

#[test]
fn accepted(rt: HostRuntime) -> Result<(), Fail> {
    let alloc = rt.alloc();
    reads(&rt, alloc, b"", &[])?;
    reads(&rt, alloc, b" \n\t", &[])?;
    let one = [row(0, Code::Plus, false, Side::Left)];
    reads(&rt, alloc, b"(simplify (plus @0 @1) @0)", &one)?;

    // White space may stand between all tokens, and is needed only before the pattern's captures.
    let close = [
        row(0, Code::Minus, true, Side::Left),
        row(25, Code::Mult, false, Side::Right),
    ];
    let source = b"(simplify(minus @0 @0)@0)(simplify(mult @1 @2)@2)";
    reads(&rt, alloc, source, &close)?;
    let wide = [row(2, Code::BitAnd, false, Side::Left)];
    let source = b"\t\n( simplify\r\n(\x0bbit_and\x0c@7\t@8 ) \n@7\n)\n";
    reads(&rt, alloc, source, &wide)?;

    // Captures are compared as spelled.
    let spelled = [row(0, Code::BitIor, false, Side::Right)];
    reads(&rt, alloc, b"(simplify (bit_ior @0 @00) @00)", &spelled)?;
    let twice = [row(1, Code::BitXor, true, Side::Left)];
    reads(&rt, alloc, b" (simplify (bit_xor @12 @12) @12)", &twice)?;
    Ok(())
}

#[test]
fn refused(rt: HostRuntime) {
    let sources: [&[u8]; 28] = [
        b"(simplify (plus @0 @1) @2)",
        b"(simplify (plus @0 @1) @00)",
        b"(simplify (plus@0 @1) @0)",
        b"(simplify (plus @0@1) @0)",
        b"(simplify (plus @0 @1) @0",
        b"(simplify (plus @0 @1) @0))",
        b"(simplify (plus @0 @1) @0) x",
        b"(simplify (plus @0 @1 @0)",
        b"(simplify (plus @0) @0)",
        b"(simplify (plus @0 @1 @2) @0)",
        b"(simplify (sqrt @0) @0)",
        b"(simplify (sqrt @0 @1) @0)",
        b"(simplify (trunc_div @0 @1) @0)",
        b"(simplify (plus:c @0 @1) @0)",
        b"(simplify (plus1 @0 @1) @0)",
        b"(simplify (PLUS @0 @1) @0)",
        b"(simplifyx (plus @0 @1) @0)",
        b"(match (plus @0 @1) @0)",
        b"(simplify (plus @0a @1) @0)",
        b"(simplify (plus @x @1) @x)",
        b"(simplify (plus @ @1) @1)",
        b"(simplify (plus @@0 @1) @0)",
        b"(simplify (plus @0 @1) { @0; })",
        b"// none\n(simplify (plus @0 @1) @0)",
        b"#if GIMPLE\n(simplify (plus @0 @1) @0)\n#endif",
        b"\x08",
        b"\x0e",
        b"\x00\xff\xa0",
    ];
    for source in sources {
        let found = read(rt.alloc(), source);
        assert!(rt; matches!(found, Err(ReadFault::NotFirst)), "at {source:?}");
    }
}

#[test]
fn at_most_65536_rows(rt: HostRuntime) -> Result<(), Fail> {
    let mut source = Vec::new(rt.alloc());
    for _ in 0..65536 {
        source.extend_from_slice(b"(simplify (plus @0 @1) @0)\n")?;
    }
    let rows = read(rt.alloc(), source.as_slice())?;
    assert_eq!(rt; rows.len(), 65536);
    source.extend_from_slice(b"(simplify (plus @0 @1) @0)\n")?;
    let found = read(rt.alloc(), source.as_slice());
    assert!(rt; matches!(found, Err(ReadFault::NotFirst)));
    Ok(())
}
