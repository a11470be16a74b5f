//! The commands of one GIMPLE file, over files in memory, with texts worked out by hand.

use match_top::run;
use pm_io::{SureInputs, SureSink};
use std::alloc::{AllocError, Global};
use std::process::Abort;
use std::test::Fail;

fn words(alloc: Global, given: &[&str]) -> Result<Vec<String>, AllocError> {
    let mut all = Vec::new(alloc);
    for word in given {
        all.push(String::from_str(alloc, word)?)?;
    }
    Ok(all)
}

fn files(alloc: Global, text: &str) -> Result<Vec<(String, Vec<u8>)>, AllocError> {
    let mut bytes = Vec::new(alloc);
    bytes.extend_from_slice(text.as_bytes())?;
    let mut all = Vec::new(alloc);
    all.push((String::from_str(alloc, "G")?, bytes))?;
    Ok(all)
}

/// Runs the program on words over one file, and compares the status, the output and the report.
fn compare(
    rt: &(impl Abort + AllocGlobal),
    given: &[&str],
    text: &str,
    wanted: (u8, &str, &str),
) -> Result<(), Fail> {
    let alloc = rt.alloc();
    let mut inputs = SureInputs::new(files(alloc, text)?);
    let mut out = SureSink::with_room(alloc, 4096)?;
    let mut report = SureSink::with_room(alloc, 4096)?;
    let status = run(
        alloc,
        &words(alloc, given)?,
        &mut inputs,
        &mut out,
        &mut report,
    );
    assert_eq!(rt; status, wanted.0);
    assert_eq!(rt; out.taken(), wanted.1.as_bytes());
    assert_eq!(rt; report.taken(), wanted.2.as_bytes());
    Ok(())
}

/// A join that one path reaches without the assignment.
const UNREADABLE: &str =
    "int __GIMPLE (ssa)\nf (int x)\n{\n  int _2;\n\n  __BB(2):\n  if (x_1(D) < 0)\n    goto __BB3;\n  else\n    goto __BB4;\n\n  __BB(3):\n  _2 = x_1(D) + 1;\n  goto __BB4;\n\n  __BB(4):\n  return _2;\n}\n";

/// Returns its argument.
const SAME: &str = "int __GIMPLE (ssa)\nf (int x)\n{\n\n  __BB(2):\n  return x_1(D);\n}\n";

/// Never returns.
const ENDLESS: &str = "int __GIMPLE (ssa)\nf ()\n{\n\n  __BB(2):\n  goto __BB2;\n}\n";

#[test]
fn files_are_checked(rt: HostRuntime) -> Result<(), Fail> {
    compare(&rt, &["check", "G"], SAME, (0, SAME, ""))?;
    compare(
        &rt,
        &["check", "G"],
        UNREADABLE,
        (4, "", "gimple: NotReadable _2 in f __BB4 item 1\n"),
    )?;
    compare(
        &rt,
        &["check", "G"],
        "int f",
        (4, "", "gimple:1:5: Unsupported f\n"),
    )?;
    compare(&rt, &["check", "q"], SAME, (5, "", "missing: q\n"))
}

#[test]
fn functions_are_run(rt: HostRuntime) -> Result<(), Fail> {
    compare(&rt, &["run", "G", "f", "-7"], SAME, (0, "-7\n", ""))?;
    compare(
        &rt,
        &["run", "G", "f", "2147483648"],
        SAME,
        (11, "", "no run f\n"),
    )?;
    compare(
        &rt,
        &["run", "G", "f", "1", "2"],
        SAME,
        (11, "", "no run f\n"),
    )?;
    compare(&rt, &["run", "G", "g", "1"], SAME, (11, "", "no run g\n"))?;
    compare(
        &rt,
        &["run", "G", "f", "--fuel", "5"],
        ENDLESS,
        (10, "", "out of fuel\n"),
    )?;
    compare(
        &rt,
        &["run", "G", "f", "1"],
        UNREADABLE,
        (4, "", "gimple: NotReadable _2 in f __BB4 item 1\n"),
    )
}

#[test]
fn words_without_a_command(rt: HostRuntime) -> Result<(), Fail> {
    let bad = (2, "", "match_cli: bad command line\n");
    compare(&rt, &["run", "G", "f", "-0"], SAME, bad)?;
    compare(&rt, &["run", "G", "f", "1", "--fuel"], SAME, bad)?;
    compare(&rt, &["run", "G", "f", "--fuel", "100000001"], SAME, bad)?;
    compare(&rt, &["check", "--G"], SAME, bad)?;
    compare(&rt, &["check", "G", "--fuel", "5"], SAME, bad)?;
    compare(
        &rt,
        &["run", "G", "f", "1", "--fuel", "5", "--fuel", "5"],
        SAME,
        bad,
    )?;
    compare(&rt, &["run", "--fuel", "5", "G", "f", "1"], SAME, bad)
}

/// A branch on two constants, a block that nothing reaches then, and a phi of one operand then.
const KNOWN: &str =
    "unsigned int __GIMPLE (ssa)\nf (unsigned int x)\n{\n  unsigned int y;\n\n  __BB(2):\n  if (1 != 0)\n    goto __BB3;\n  else\n    goto __BB4;\n\n  __BB(3):\n  goto __BB5;\n\n  __BB(4):\n  goto __BB5;\n\n  __BB(5):\n  y_2 = __PHI (__BB3: x_1(D), __BB4: 7u);\n  return y_2;\n}\n";

/// The same, tidied.
const TIDY: &str =
    "unsigned int __GIMPLE (ssa)\nf (unsigned int x)\n{\n  unsigned int y;\n\n  __BB(2):\n  goto __BB3;\n\n  __BB(3):\n  goto __BB5;\n\n  __BB(5):\n  return x_1(D);\n}\n";

/// Two equal sums.
const SUMS: &str =
    "int __GIMPLE (ssa)\nf (int a, int b)\n{\n  int s;\n  int _4;\n  int _5;\n\n  __BB(2):\n  s_3 = a_1(D) + b_2(D);\n  _4 = a_1(D) + b_2(D);\n  _5 = s_3 * _4;\n  return _5;\n}\n";

/// The same, numbered.
const ONE_SUM: &str =
    "int __GIMPLE (ssa)\nf (int a, int b)\n{\n  int s;\n  int _4;\n  int _5;\n\n  __BB(2):\n  s_3 = a_1(D) + b_2(D);\n  _5 = s_3 * s_3;\n  return _5;\n}\n";

#[test]
fn functions_are_tidied(rt: HostRuntime) -> Result<(), Fail> {
    compare(
        &rt,
        &["tidy", "G"],
        KNOWN,
        (0, TIDY, "f: branch __BB2\nf: dropped __BB4\nf: phi y_2\n"),
    )?;
    compare(&rt, &["tidy", "G"], TIDY, (0, TIDY, ""))?;
    compare(&rt, &["tidy", "q"], TIDY, (5, "", "missing: q\n"))
}

#[test]
fn values_are_numbered(rt: HostRuntime) -> Result<(), Fail> {
    compare(&rt, &["number", "G"], SUMS, (0, ONE_SUM, "f: _4 = s_3\n"))?;
    compare(&rt, &["number", "G"], ONE_SUM, (0, ONE_SUM, ""))
}
