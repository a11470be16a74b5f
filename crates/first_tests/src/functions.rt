use first_gimple::{FirstFault, read};
use gim_ast::{End, Rhs};
use pm_ops::Code;
use pm_wide::Operand;
use std::alloc::Global;
use std::test::Fail;

const EXAMPLE: &str = "unsigned int __GIMPLE (ssa)
f (unsigned int x)
{
  unsigned int _2;
  unsigned int _3;

  __BB(2):
  _2 = x_1(D) & x_1(D);
  _3 = _2 & _2;
  return _3;
}
";

/// Texts of the first form.
const ACCEPTED: [&str; 14] = [
    EXAMPLE,
    "unsigned int __GIMPLE(ssa)f(){__BB(2):return 5u;}",
    "unsigned int __GIMPLE (ssa) f (void) { __BB(2): return 4294967295U; }",
    "\tunsigned\n int\r__GIMPLE\x0b(\x0cssa ) f ( ) { __BB ( 0 ) : return 0u ; } \n",
    // a name that is declared and not assigned
    "unsigned int __GIMPLE (ssa) f () { unsigned int _999999999; __BB(999999999): return 1u; }",
    // declared in any order, with numbers on both sides
    "unsigned int __GIMPLE (ssa) f () { unsigned int _9; unsigned int _1; __BB(2): _9 = 1u - 2U; _1 = _9 * 3u; return _1; }",
    "unsigned int __GIMPLE (ssa) f (unsigned int a, unsigned int b) { unsigned int _1; __BB(2): _1=a_2(D)+b_3(D);return _1;}",
    "unsigned int __GIMPLE (ssa) f (unsigned int a) { unsigned int _1; __BB(2): _1 = a_2 ( D ) | a_2(D); return a_2(D); }",
    // identifiers that look like names, and a parameter that looks like one with a base
    "unsigned int __GIMPLE (ssa) _6 (unsigned int x_1) { __BB(2): return x_1_2(D); }",
    "unsigned int __GIMPLE (ssa) f (unsigned int __BB02) { __BB(2): return __BB02_7(D); }",
    // the base reaches to the last underscore
    "unsigned int __GIMPLE (ssa) f (unsigned int x_, unsigned int _u) { __BB(2): return x__3(D); }",
    "unsigned int __GIMPLE (ssa) f (unsigned int u) { unsigned int _2; __BB(2): _2 = u_1(D) ^ 0u; return 7u; }",
    "unsigned int __GIMPLE (ssa) f () { unsigned int _0; __BB(2): _0 = 10u + 20u; return _0; }",
    "unsigned int __GIMPLE (ssa) f (unsigned int voids) { __BB(2): return voids_0(D); }",
];

/// Texts that are not of the first form.
const REFUSED: [&str; 43] = [
    "",
    " \n",
    "f",
    "unsigned int",
    "unsigned int __GIMPLE (ssa) f () { __BB(2): return 5u; ",
    "unsigned int __GIMPLE (ssa) f () { __BB(2): return 5u; } ;",
    "unsigned int __GIMPLE (ssa) f () { __BB(2): return 5u; } unsigned int __GIMPLE (ssa) g () { __BB(2): return 5u; }",
    // another list of options, another type, words that merge, and words that are no such words
    "unsigned int __GIMPLE (ssa, x) f () { __BB(2): return 5u; }",
    "unsigned int __GIMPLE () f () { __BB(2): return 5u; }",
    "int unsigned __GIMPLE (ssa) f () { __BB(2): return 5u; }",
    "unsigned __GIMPLE (ssa) f () { __BB(2): return 5u; }",
    "unsignedint __GIMPLE (ssa) f () { __BB(2): return 5u; }",
    "unsigned int __GIMPLE (ssa) f () { __BB(2): return5u; }",
    "unsigned int __GIMPLE (ssa) int () { __BB(2): return 5u; }",
    "unsigned int __GIMPLE (ssa) f (unsigned int __BB2) { __BB(2): return 5u; }",
    "unsigned int __GIMPLE (ssa) f (unsigned int _2) { __BB(2): return 5u; }",
    "unsigned int __GIMPLE (ssa) f (unsigned int x, unsigned int x) { __BB(2): return 5u; }",
    "unsigned int __GIMPLE (ssa) f (unsigned int x,) { __BB(2): return 5u; }",
    "unsigned int __GIMPLE (ssa) f (void, unsigned int x) { __BB(2): return 5u; }",
    // comments, notes and lines of their own
    "/* a */ unsigned int __GIMPLE (ssa) f () { __BB(2): return 5u; }",
    ";; a\nunsigned int __GIMPLE (ssa) f () { __BB(2): return 5u; }",
    "unsigned int __GIMPLE (ssa) f () { __BB(2,3): return 5u; }",
    // numbers
    "unsigned int __GIMPLE (ssa) f () { __BB(2): return 5; }",
    "unsigned int __GIMPLE (ssa) f () { __BB(2): return 05u; }",
    "unsigned int __GIMPLE (ssa) f () { __BB(2): return 5ul; }",
    "unsigned int __GIMPLE (ssa) f () { __BB(2): return 5 u; }",
    "unsigned int __GIMPLE (ssa) f () { __BB(2): return 4294967296u; }",
    "unsigned int __GIMPLE (ssa) f () { __BB(2): return 18446744073709551621u; }",
    "unsigned int __GIMPLE (ssa) f () { __BB(02): return 5u; }",
    "unsigned int __GIMPLE (ssa) f () { __BB(1000000000): return 5u; }",
    "unsigned int __GIMPLE (ssa) f () { unsigned int _1000000000; __BB(2): return 5u; }",
    // a local with a base, one declared twice, one that is not declared, one assigned twice
    "unsigned int __GIMPLE (ssa) f () { unsigned int x; __BB(2): return 5u; }",
    "unsigned int __GIMPLE (ssa) f () { unsigned int _2; unsigned int _2; __BB(2): return 5u; }",
    "unsigned int __GIMPLE (ssa) f () { __BB(2): _2 = 1u + 1u; return _2; }",
    "unsigned int __GIMPLE (ssa) f () { unsigned int _2; __BB(2): _2 = 1u + 1u; _2 = 1u + 2u; return _2; }",
    // names that are taken before their statement, and one that nothing assigns
    "unsigned int __GIMPLE (ssa) f () { unsigned int _2; unsigned int _3; __BB(2): _3 = _2 + 1u; _2 = 1u + 1u; return _3; }",
    "unsigned int __GIMPLE (ssa) f () { unsigned int _2; __BB(2): _2 = _2 + 1u; return _2; }",
    "unsigned int __GIMPLE (ssa) f () { unsigned int _2; __BB(2): return _2; }",
    // default definitions: of no parameter, two of one, of one version, with the version of a local, and without `(D)`
    "unsigned int __GIMPLE (ssa) f (unsigned int x) { __BB(2): return y_1(D); }",
    "unsigned int __GIMPLE (ssa) f (unsigned int x) { unsigned int _3; __BB(2): _3 = x_1(D) + x_2(D); return _3; }",
    "unsigned int __GIMPLE (ssa) f (unsigned int x, unsigned int y) { unsigned int _3; __BB(2): _3 = x_1(D) + y_1(D); return _3; }",
    "unsigned int __GIMPLE (ssa) f (unsigned int x) { unsigned int _1; __BB(2): return x_1(D); }",
    "unsigned int __GIMPLE (ssa) f (unsigned int x) { __BB(2): return x_1; }",
];

fn is_refused(alloc: Global, text: &str) -> bool {
    matches!(read(alloc, text.as_bytes()), Err(FirstFault::NotFirst))
}

#[test]
fn accepts(rt: HostRuntime) {
    for text in ACCEPTED {
        assert!(rt; read(rt.alloc(), text.as_bytes()).is_ok(), "{text}");
    }
}

#[test]
fn refuses(rt: HostRuntime) {
    for text in REFUSED {
        assert!(rt; is_refused(rt.alloc(), text), "{text}");
    }
}

#[test]
fn refuses_each_front(rt: HostRuntime) {
    let bytes = EXAMPLE.as_bytes();
    let end = bytes.len() - 2;
    for len in 0..=end {
        assert!(rt;
            matches!(read(rt.alloc(), &bytes[..len]), Err(FirstFault::NotFirst)),
            "{len}"
        );
    }
}

#[test]
fn reads_the_example(rt: HostRuntime) -> Result<(), Fail> {
    let function = read(rt.alloc(), EXAMPLE.as_bytes())?;
    assert_eq!(rt; function.name.bytes(), b"f".as_slice());
    assert_eq!(rt; function.params.len(), 1);
    assert_eq!(rt; function.decls.len(), 2);
    assert_eq!(rt; function.names.len(), 3);
    for (at, row) in function.names.as_slice().iter().enumerate() {
        assert_eq!(rt; row.version as usize, at + 1);
        assert_eq!(rt; row.initial, at == 0);
        assert_eq!(rt; row.ty.bits(), 32);
        assert!(rt; row.ty.unsigned());
    }
    assert_eq!(rt; function.blocks.len(), 1);
    for block in function.blocks.as_slice() {
        assert_eq!(rt; block.number, 2);
        assert_eq!(rt; block.stmts.len(), 2);
        for stmt in block.stmts.as_slice() {
            assert!(rt; matches!(stmt.rhs, Rhs::Op(Code::BitAnd, _)));
        }
        assert!(rt; matches!(block.end, End::Return(Operand::Name(3, _))));
    }
    Ok(())
}
