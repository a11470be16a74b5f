//! Whole runs over inputs and sinks in memory, with texts worked out by hand.

use match_top::run;
use pm_io::{SureInputs, SureSink};
use std::alloc::{AllocError, Global};
use std::process::Abort;
use std::test::Fail;

fn text(alloc: Global, parts: &[&str]) -> Result<Vec<u8>, AllocError> {
    let mut bytes = Vec::new(alloc);
    for part in parts {
        bytes.extend_from_slice(part.as_bytes())?;
    }
    Ok(bytes)
}

fn files(alloc: Global, patterns: &str, body: &str) -> Result<Vec<(String, Vec<u8>)>, AllocError> {
    let mut all = Vec::new(alloc);
    all.push((String::from_str(alloc, "P")?, text(alloc, &[patterns])?))?;
    all.push((String::from_str(alloc, "G")?, text(alloc, &[HEAD, body])?))?;
    Ok(all)
}

fn words(alloc: Global) -> Result<Vec<String>, AllocError> {
    let mut all = Vec::new(alloc);
    for word in ["simplify", "P", "G"] {
        all.push(String::from_str(alloc, word)?)?;
    }
    Ok(all)
}

const HEAD: &str =
    "unsigned int __GIMPLE (ssa)\nf (unsigned int x)\n{\n  unsigned int _2;\n  unsigned int _3;\n\n  __BB(2):\n";

/// Runs `simplify P G`, and compares the status, the block and the report.
fn compare(
    rt: &(impl Abort + AllocGlobal),
    patterns: &str,
    body: &str,
    wanted: (u8, &str),
    report: &str,
) -> Result<(), Fail> {
    let alloc = rt.alloc();
    let mut inputs = SureInputs::new(files(alloc, patterns, body)?);
    let mut out = SureSink::with_room(alloc, 4096)?;
    let mut lines = SureSink::with_room(alloc, 4096)?;
    let status = run(alloc, &words(alloc)?, &mut inputs, &mut out, &mut lines);
    assert_eq!(rt; status, wanted.0);
    if status == 0 {
        let expected = text(alloc, &[HEAD, wanted.1])?;
        assert_eq!(rt; out.taken(), expected.as_slice());
    } else {
        assert!(rt; out.taken().is_empty());
    }
    assert_eq!(rt; lines.taken(), report.as_bytes());
    Ok(())
}

#[test]
fn rows(rt: HostRuntime) -> Result<(), Fail> {
    compare(
        &rt,
        "(simplify (bit_and @0 @0) @0)\n",
        "  _2 = x_1(D) & x_1(D);\n  _3 = _2 & _2;\n  return _3;\n}\n",
        (0, "  return x_1(D);\n}\n"),
        "f: _2 1:1#1 -\nf: _3 1:1#1 -\n",
    )?;
    compare(
        &rt,
        "(simplify (minus @0 @1) @0)\n(simplify (minus @0 @0) @0)\n",
        "  _2 = x_1(D) - x_1(D);\n  return _2;\n}\n",
        (0, "  return x_1(D);\n}\n"),
        "f: _2 1:1#1 -\n",
    )?;
    compare(
        &rt,
        "(simplify (minus @0 @0) @0)\n(simplify (minus @0 @1) @0)\n",
        "  _2 = x_1(D) - x_1(D);\n  return _2;\n}\n",
        (0, "  return x_1(D);\n}\n"),
        "f: _2 1:1#1 -\n",
    )
}

#[test]
fn folds_swaps_and_refusals(rt: HostRuntime) -> Result<(), Fail> {
    compare(
        &rt,
        "",
        "  _2 = 4294967295u + 2u;\n  _3 = _2 & x_1(D);\n  return _3;\n}\n",
        (0, "  _3 = x_1(D) & 1u;\n  return _3;\n}\n"),
        "f: _2 fold\nf: _3 swap\n",
    )?;
    compare(
        &rt,
        "(simplify (sqrt @0) @0)",
        "  return x_1(D);\n}\n",
        (3, ""),
        "patterns: NotYet\n",
    )?;
    compare(&rt, "", "  return _2;\n}\n", (4, ""), "gimple: NotYet\n")
}
