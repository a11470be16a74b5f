use pm_ops::{Code, OutOfMemory, PatternFault, PatternKind, Pred, Text};
use std::alloc::AllocFailed;
use std::collections::HashMap;
use std::test::Fail;

/// Operators of GCC's match.pd.
#[test]
fn names_are_those_of_match_pd(rt: HostRuntime) {
    for (name, code) in [
        ("convert", Code::Convert),
        ("plus", Code::Plus),
        ("trunc_div", Code::TruncDiv),
        ("bit_ior", Code::BitIor),
        ("rshift", Code::Rshift),
        ("cond", Code::Cond),
    ] {
        assert_eq!(rt; Code::from_name(name.as_bytes()), Some(code), "{name}");
        assert_eq!(rt; code.name(), name);
    }
}

/// The tree codes of GCC's tree.def that they stand for. Two of them convert.
#[test]
fn c_names_are_those_of_tree_def(rt: HostRuntime) {
    for (name, code) in [
        ("CONVERT_EXPR", Code::Convert),
        ("TRUNC_MOD_EXPR", Code::TruncMod),
        ("ABSU_EXPR", Code::Absu),
        ("BIT_XOR_EXPR", Code::BitXor),
        ("GE_EXPR", Code::Ge),
    ] {
        assert_eq!(rt; Code::from_c_name(name.as_bytes()), Some(code), "{name}");
        assert_eq!(rt; code.c_name(), name);
    }
    assert_eq!(rt; Code::from_c_name(b"NOP_EXPR"), Some(Code::Convert));
}

#[test]
fn other_names_are_refused(rt: HostRuntime) {
    for name in [
        "",
        "plu",
        "pluss",
        "Plus",
        "PLUS_EXPR",
        "rdiv",
        "integer_zerop",
    ] {
        assert_eq!(rt; Code::from_name(name.as_bytes()), None, "{name}");
    }
    for name in ["", "plus", "NOP", "VIEW_CONVERT_EXPR", "INTEGER_CST"] {
        assert_eq!(rt; Code::from_c_name(name.as_bytes()), None, "{name}");
    }
    for name in ["", "integer_zero", "real_zerop", "integer_cst", "plus"] {
        assert_eq!(rt; Pred::from_name(name.as_bytes()), None, "{name}");
    }
}

#[test]
fn predicates_are_those_of_match_pd(rt: HostRuntime) {
    for (name, pred) in [
        ("integer_zerop", Pred::Zero),
        ("integer_onep", Pred::One),
        ("integer_all_onesp", Pred::AllOnes),
        ("integer_minus_onep", Pred::MinusOne),
        ("integer_pow2p", Pred::Pow2),
        ("integer_truep", Pred::True),
        ("INTEGER_CST", Pred::Cst),
        ("SSA_NAME", Pred::Ssa),
    ] {
        assert_eq!(rt; Pred::from_name(name.as_bytes()), Some(pred), "{name}");
        assert_eq!(rt; pred.name(), name);
    }
}

/// a < b is b > a, and a - b is not b - a.
#[test]
fn operands_are_exchanged(rt: HostRuntime) {
    assert_eq!(rt; Code::Lt.swapped(), Code::Gt);
    assert_eq!(rt; Code::Ne.swapped(), Code::Ne);
    assert!(rt; Code::Ne.is_comparison() && Code::Ne.is_commutative());
    assert!(rt; !Code::Minus.is_commutative() && !Code::Minus.is_comparison());
    assert_eq!(rt;
        Code::Cond.arity() + Code::Minus.arity() + Code::BitNot.arity(),
        6
    );
}

#[test]
fn texts_serve_as_keys(rt: HostRuntime) -> Result<(), Fail> {
    let alloc = rt.alloc();
    let mut uses: HashMap<Text, u32> = HashMap::new(alloc);
    uses.insert(Text::new(alloc, b"x_1")?, 1)?;
    uses.insert(Text::new(alloc, b"x_2")?, 2)?;
    let second = Text::new(alloc, b"x_2")?;
    let copied = second.copy(alloc)?;
    assert_eq!(rt; copied, second);
    assert_eq!(rt; copied.bytes(), b"x_2".as_slice());
    assert_eq!(rt; uses.get(&copied).copied(), Some(2));
    assert_eq!(rt; uses.get(&Text::empty(alloc)).copied(), None);
    Ok(())
}

#[test]
fn faults_tell_their_kind_and_place(rt: HostRuntime) -> Result<(), Fail> {
    let fault = PatternFault {
        kind: PatternKind::BadByte,
        at: 19,
        len: 0,
    };
    assert_eq!(rt; fault.kind.name(), "BadByte");
    assert_eq!(rt;
        fault.to_string(rt.alloc())?.as_str(),
        "no token begins here, at byte 19"
    );
    let memory = PatternFault {
        kind: PatternKind::Memory,
        at: 0,
        len: 0,
    };
    assert_eq!(rt; PatternFault::from(OutOfMemory), memory);
    let unstored: AllocFailed<u8> = AllocFailed { value: 7 };
    assert_eq!(rt; PatternFault::from(unstored), memory);
    Ok(())
}
