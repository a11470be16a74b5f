//! Tokens, faults and values of numbers. A row is a source and its answer.

use pd_lexer::{Token, lex, number_value};
use pm_ops::OutOfMemory;
use std::alloc::Global;
use std::process::Abort;
use std::test::Fail;

/// Sources that are one token, and pairs of tokens side by side: each token with its kind and its
/// places, and whether it is a joined capture.
const TOKENS: &str = "\
plus => Ident 0 4;
_a1Z => Ident 0 4;
0 => Number 0 1;
007 => Number 0 3;
12uLlu => Number 0 6;
9223372036854775807 => Number 0 19;
0009223372036854775807ull => Number 0 25;
0x0 => Number 0 3;
0x7fffffffffffffff => Number 0 18;
0x00000000000000AbF19LU => Number 0 23;
@0 => Capture 0 2;
@12 => Capture 0 3;
@cst => Capture 0 4;
@@0 => ValueCapture 0 3;
@@a_1 => ValueCapture 0 5;
\"\" => Text 0 2;
\"a \\ /* // @ # \t\" => Text 0 17;
a/**/b => Ident 0 1;Ident 5 6;
a\r\x0bb => Ident 0 1;Ident 3 4;
0x => Number 0 1;Ident 1 2;
0xg => Number 0 1;Ident 1 3;
0X1 => Number 0 1;Ident 1 3;
00x1 => Number 0 2;Ident 2 4;
12ula => Number 0 4;Ident 4 5;
::: => Punct 0 2;Punct 2 3;
<<= => Punct 0 2;Punct 2 3;
*/ => Punct 0 1;Punct 1 2;
@0a => Capture 0 2;Ident 2 3;
a@0 => Ident 0 1;Capture 1 3 joined;
Z_@@x => Ident 0 2;ValueCapture 2 5 joined;
0x1@b => Number 0 3;Capture 3 5 joined;
?@1 => Punct 0 1;Capture 1 3 joined;
@1@2 => Capture 0 2;Capture 2 4 joined;
)@1 => Punct 0 1;Capture 1 3;
\"\"@1 => Text 0 2;Capture 2 4;
a @1 => Ident 0 1;Capture 2 4;
a/**/@1 => Ident 0 1;Capture 5 7;
a? => Ident 0 1;Punct 1 2;
 => ";

/// Every mark, with a space between two.
const MARKS: &str = "( ) { } , ; : :: ? ! ~ & && | || ^ + - * / % = == != < <= > >= << >>";

/// Sources of several lines: directives, parts that aren't taken, comments across lines.
const LINES: [(&str, &str); 10] = [
    ("a//@\nb", "Ident 0 1;Ident 5 6;"),
    ("a\r\n\x0bb", "Ident 0 1;Ident 4 5;"),
    ("#if GIMPLE\na\n#endif", "Ident 11 12;"),
    (" \t#if\tGIMPLE\n#else\nb\n\t#endif\na", "Ident 29 30;"),
    (
        "#if GENERIC\nb \" @ /* \x01\n#else\na\n#endif\n",
        "Ident 29 30;",
    ),
    ("#if GENERIC\n*/ b\n#endif\na", "Ident 24 25;"),
    (
        "#if GIMPLE\n#if GENERIC\nb\n#else\na\n#endif\n#else\nb\n#endif",
        "Ident 31 32;",
    ),
    (
        "#if GENERIC\n#if GIMPLE\nb\n#else\nb\n#endif\n#else\na\n#endif",
        "Ident 46 47;",
    ),
    ("/*\n#if GENERIC\n#wrong\n*/a", "Ident 24 25;"),
    ("// #endif\na // #else", "Ident 10 11;"),
];

/// The first fault of sources that have one or several: its kind, place and length.
const FAULTS: &str = "\
a $ \x02 => BadByte 2 0
' => BadByte 0 0
\u{e9} => BadByte 0 0
@ => BadByte 0 0
@@ 0 => BadByte 0 0
a @@@0 => BadByte 2 0
a # => BadByte 2 0
/**/#endif => BadByte 4 0
\x0b#endif => BadByte 1 0
/*/ => OpenComment 0 0
9223372036854775808 => LongNumber 0 19
 009223372036854775808ul a => LongNumber 1 23
0x8000000000000000u => LongNumber 0 19
# => Directive 0 0
# if GIMPLE => Directive 0 0
#if  GIMPLE => Directive 0 0
#endif => Directive 0 0
#else => Directive 0 0";

/// The same of several lines.
const FAULTS_OF_LINES: [(&str, &str); 16] = [
    ("a /* b\n*", "OpenComment 2 0"),
    ("a \"b\nc\"", "OpenString 2 0"),
    ("a\n  #define X", "Directive 4 0"),
    ("#if GIMPLE \n#endif", "Directive 0 0"),
    ("#if GIMPLE\r\n#endif", "Directive 0 0"),
    ("#if GENERIC\n#else\n#else\n#endif", "Directive 18 0"),
    ("#if GENERIC\n#include\n#endif", "Directive 12 0"),
    ("#if GIMPLE\n@", "Directive 0 0"),
    (
        "\n #if GENERIC\n#if GIMPLE\n#endif\n#else\n",
        "Directive 2 0",
    ),
    ("#if GIMPLE\n#if GIMPLE\n@\n#endif", "Directive 0 0"),
    ("#if GIMPLE\n@\n#endif\n#if GIMPLE\n", "BadByte 11 0"),
    ("@\n#if GIMPLE\n", "BadByte 0 0"),
    ("#if GIMPLE\n\"\n#endif", "OpenString 11 0"),
    ("#if GIMPLE\n/*\n#endif", "Directive 0 0"),
    ("#if GIMPLE\n#if X\n#endif", "Directive 11 0"),
    ("#if GIMPLE\n#else\n#else\n#endif\n#endif", "Directive 17 0"),
];

/// Numbers and their values.
const VALUES: &str = "\
0 => Some(0)
0012u => Some(12)
0x1fUL => Some(31)
0xAb => Some(171)
9223372036854775807 => Some(9223372036854775807)
9223372036854775808 => None
99999999999999999999999999999999999999999 => None
0xffffffffffffffffffffffffffffffffffffff => None";

/// The words of tokens.
fn listed(alloc: Global, tokens: &[Token]) -> Result<String, OutOfMemory> {
    let mut words = String::new(alloc);
    for token in tokens {
        let joined = if token.joined { " joined" } else { "" };
        let word = format!(in alloc; "{:?} {} {}{joined};", token.kind, token.from, token.to)?;
        words.push_str(&word)?;
    }
    Ok(words)
}

/// The tokens of a source, or its fault.
fn lexed(alloc: Global, source: &str) -> Result<String, OutOfMemory> {
    match lex(alloc, source.as_bytes()) {
        Ok(tokens) => listed(alloc, &tokens),
        Err(fault) => { Ok(format!(in alloc; "{} {} {}", fault.kind.name(), fault.at, fault.len)?) }
    }
}

/// Each source of one line has its tokens or its fault.
fn judge(rt: &impl Abort, alloc: Global, rows: &str) -> Result<(), OutOfMemory> {
    for row in rows.split('\n') {
        let (source, answer) = row.split_once(" => ").unwrap_or((row, "no answer"));
        assert_eq!(rt; lexed(alloc, source)?.as_str(), answer, "{source}");
    }
    Ok(())
}

/// Each source of several lines has its tokens or its fault.
fn judge_lines(rt: &impl Abort, alloc: Global, rows: &[(&str, &str)]) -> Result<(), OutOfMemory> {
    for (source, answer) in rows {
        assert_eq!(rt; lexed(alloc, source)?.as_str(), *answer, "{source}");
    }
    Ok(())
}

#[test]
fn tokens(rt: HostRuntime) -> Result<(), Fail> {
    Ok(judge(&rt, rt.alloc(), TOKENS)?)
}

/// Each mark, alone, is one token.
#[test]
fn marks(rt: HostRuntime) -> Result<(), Fail> {
    for mark in MARKS.split(' ') {
        let answer = format!(in rt.alloc(); "Punct 0 {};", mark.len())?;
        assert_eq!(rt;
            lexed(rt.alloc(), mark)?.as_str(),
            answer.as_str(),
            "{mark}"
        );
    }
    Ok(())
}

#[test]
fn lines(rt: HostRuntime) -> Result<(), Fail> {
    Ok(judge_lines(&rt, rt.alloc(), &LINES)?)
}

#[test]
fn faults(rt: HostRuntime) -> Result<(), Fail> {
    Ok(judge(&rt, rt.alloc(), FAULTS)?)
}

#[test]
fn faults_of_lines(rt: HostRuntime) -> Result<(), Fail> {
    Ok(judge_lines(&rt, rt.alloc(), &FAULTS_OF_LINES)?)
}

#[test]
fn values(rt: HostRuntime) -> Result<(), Fail> {
    for row in VALUES.split('\n') {
        let (text, answer) = row.split_once(" => ").unwrap_or((row, "no answer"));
        let value = format!(in rt.alloc(); "{:?}", number_value(text.as_bytes()))?;
        assert_eq!(rt; value.as_str(), answer, "{text}");
    }
    Ok(())
}
