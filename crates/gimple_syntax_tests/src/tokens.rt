use gim_lexer::lex;
use gim_text::{GimpleFault, GimpleKind, Keyword, Mark, NumberKind, Token, TypeWord};
use pm_places::Span;
use std::test::Fail;

fn place(from: usize, to: usize) -> Span {
    Span { from, to }
}

/// The fault of a place where no token begins.
fn lex_fault(at: usize) -> GimpleFault {
    GimpleFault::at(GimpleKind::Lex, place(at, at))
}

fn mark(mark: Mark, from: usize, to: usize) -> Token {
    Token::Mark(mark, place(from, to))
}

fn word(from: usize, to: usize) -> Token {
    Token::Identifier(place(from, to))
}

fn number(kind: NumberKind, from: usize, to: usize) -> Token {
    Token::Number(kind, place(from, to))
}

/// Sources that are one word.
#[test]
fn words(rt: HostRuntime) -> Result<(), Fail> {
    for (source, token) in [
        ("signed", Token::TypeWord(TypeWord::Signed, place(0, 6))),
        ("unsigned", Token::TypeWord(TypeWord::Unsigned, place(0, 8))),
        ("char", Token::TypeWord(TypeWord::Char, place(0, 4))),
        ("short", Token::TypeWord(TypeWord::Short, place(0, 5))),
        ("int", Token::TypeWord(TypeWord::Int, place(0, 3))),
        ("long", Token::TypeWord(TypeWord::Long, place(0, 4))),
        ("__int128", Token::TypeWord(TypeWord::Int128, place(0, 8))),
        ("_Bool", Token::TypeWord(TypeWord::BoolWord, place(0, 5))),
        ("__GIMPLE", Token::Keyword(Keyword::Gimple, place(0, 8))),
        ("void", Token::Keyword(Keyword::Void, place(0, 4))),
        ("__BB", Token::Keyword(Keyword::Block, place(0, 4))),
        ("__PHI", Token::Keyword(Keyword::Phi, place(0, 5))),
        ("goto", Token::Keyword(Keyword::Goto, place(0, 4))),
        ("if", Token::Keyword(Keyword::If, place(0, 2))),
        ("else", Token::Keyword(Keyword::Else, place(0, 4))),
        ("return", Token::Keyword(Keyword::Return, place(0, 6))),
        ("__MIN", Token::Keyword(Keyword::Min, place(0, 5))),
        ("__MAX", Token::Keyword(Keyword::Max, place(0, 5))),
        ("__ABS", Token::Keyword(Keyword::Abs, place(0, 5))),
        ("__ABSU", Token::Keyword(Keyword::Absu, place(0, 6))),
        ("_Literal", Token::Keyword(Keyword::Literal, place(0, 8))),
        ("D", Token::Keyword(Keyword::Default, place(0, 1))),
        ("ssa", Token::Ssa(place(0, 3))),
        ("__BB0", Token::BlockWord(place(0, 5))),
        ("__BB2", Token::BlockWord(place(0, 5))),
        ("__BB10", Token::BlockWord(place(0, 6))),
        ("__BB02", word(0, 6)),
        ("__BB2u", word(0, 6)),
        ("__BBn", word(0, 5)),
        ("_6", word(0, 2)),
        ("x_1", word(0, 3)),
        ("Int", word(0, 3)),
        ("ints", word(0, 4)),
        ("d", word(0, 1)),
    ] {
        let tokens = lex(rt.alloc(), source.as_bytes())?;
        assert_eq!(rt; tokens.as_slice(), [token].as_slice(), "{source}");
    }
    Ok(())
}

/// Sources that are one number.
#[test]
fn numbers(rt: HostRuntime) -> Result<(), Fail> {
    for (source, kind) in [
        ("0", NumberKind::Plain),
        ("5", NumberKind::Plain),
        (
            "1234567890123456789012345678901234567890",
            NumberKind::Plain,
        ),
        ("0u", NumberKind::Unsigned),
        ("5U", NumberKind::Unsigned),
        ("5l", NumberKind::Long),
        ("5L", NumberKind::Long),
        ("5ll", NumberKind::Long),
        ("5lL", NumberKind::Long),
        ("5ul", NumberKind::UnsignedLong),
        ("5Ul", NumberKind::UnsignedLong),
        ("5lu", NumberKind::UnsignedLong),
        ("5ull", NumberKind::UnsignedLong),
        ("5LLU", NumberKind::UnsignedLong),
        ("007", NumberKind::Wrong),
        ("00", NumberKind::Wrong),
        ("05u", NumberKind::Wrong),
        ("5uu", NumberKind::Wrong),
        ("5lul", NumberKind::Wrong),
        ("5ulu", NumberKind::Wrong),
        ("5lll", NumberKind::Wrong),
        ("5ulll", NumberKind::Wrong),
    ] {
        let tokens = lex(rt.alloc(), source.as_bytes())?;
        let whole = number(kind, 0, source.len());
        assert_eq!(rt; tokens.as_slice(), [whole].as_slice(), "{source}");
    }
    Ok(())
}

/// Sources that are one mark.
#[test]
fn marks(rt: HostRuntime) -> Result<(), Fail> {
    for (source, found) in [
        ("(", Mark::Open),
        (")", Mark::Close),
        ("{", Mark::OpenBrace),
        ("}", Mark::CloseBrace),
        (",", Mark::Comma),
        (";", Mark::Semicolon),
        (":", Mark::Colon),
        ("?", Mark::Question),
        ("=", Mark::Assign),
        ("+", Mark::Plus),
        ("-", Mark::Minus),
        ("*", Mark::Star),
        ("/", Mark::Slash),
        ("%", Mark::Percent),
        ("&", Mark::Ampersand),
        ("|", Mark::Bar),
        ("^", Mark::Caret),
        ("~", Mark::Tilde),
        ("<<", Mark::ShiftLeft),
        (">>", Mark::ShiftRight),
        ("==", Mark::Equal),
        ("!=", Mark::NotEqual),
        ("<", Mark::Less),
        ("<=", Mark::LessEqual),
        (">", Mark::Greater),
        (">=", Mark::GreaterEqual),
    ] {
        let tokens = lex(rt.alloc(), source.as_bytes())?;
        let whole = mark(found, 0, source.len());
        assert_eq!(rt; tokens.as_slice(), [whole].as_slice(), "{source}");
    }
    Ok(())
}

/// Sources without a token.
#[test]
fn separators(rt: HostRuntime) -> Result<(), Fail> {
    for source in [
        "",
        " ",
        "\t\n\x0b\x0c\r ",
        "//",
        "// a /* b",
        "// a\n//b\n",
        "/**/",
        "/***/",
        "/* a * / \n b // */",
        ";;",
        ";; a /* b",
        "\n;;!\n;; @\n\n",
        "/* \n*/\n;; \"",
    ] {
        let tokens = lex(rt.alloc(), source.as_bytes())?;
        assert!(rt; tokens.is_empty(), "{source}");
    }
    Ok(())
}

/// Two tokens that stand side by side.
#[test]
fn pairs(rt: HostRuntime) -> Result<(), Fail> {
    for (source, first, second) in [
        ("0x10", number(NumberKind::Plain, 0, 1), word(1, 4)),
        ("5ux", number(NumberKind::Unsigned, 0, 2), word(2, 3)),
        (
            "5u6",
            number(NumberKind::Unsigned, 0, 2),
            number(NumberKind::Plain, 2, 3),
        ),
        ("a/**/b", word(0, 1), word(5, 6)),
        ("a//b\nc", word(0, 1), word(5, 6)),
        ("a /* * **/ b", word(0, 1), word(11, 12)),
        ("<<=", mark(Mark::ShiftLeft, 0, 2), mark(Mark::Assign, 2, 3)),
        ("===", mark(Mark::Equal, 0, 2), mark(Mark::Assign, 2, 3)),
        ("> =", mark(Mark::Greater, 0, 1), mark(Mark::Assign, 2, 3)),
        (
            " ;;",
            mark(Mark::Semicolon, 1, 2),
            mark(Mark::Semicolon, 2, 3),
        ),
        (
            "/**/;;",
            mark(Mark::Semicolon, 4, 5),
            mark(Mark::Semicolon, 5, 6),
        ),
        (
            "/*\n*/;;",
            mark(Mark::Semicolon, 5, 6),
            mark(Mark::Semicolon, 6, 7),
        ),
        ("a\n;; b /*\nc", word(0, 1), word(10, 11)),
        ("a\n;\n;; b", word(0, 1), mark(Mark::Semicolon, 2, 3)),
        ("\"\"a", Token::Text(place(0, 2)), word(2, 3)),
        (
            "\"/* ;; ! \"5",
            Token::Text(place(0, 10)),
            number(NumberKind::Plain, 10, 11),
        ),
        ("*/", mark(Mark::Star, 0, 1), mark(Mark::Slash, 1, 2)),
    ] {
        let tokens = lex(rt.alloc(), source.as_bytes())?;
        assert_eq!(rt; tokens.as_slice(), [first, second].as_slice(), "{source}");
    }
    Ok(())
}

/// Sources in which no token begins at a place.
#[test]
fn faults(rt: HostRuntime) {
    for (source, at) in [
        ("!", 0),
        ("a ! b @", 2),
        ("@", 0),
        ("x = 5 # 6", 6),
        ("'a'", 0),
        ("a /* b", 2),
        ("/*/", 0),
        ("/* \n;; */ /* *", 10),
        ("a \"b", 2),
        ("\"a\nb\"", 0),
        ("\"a\" \"", 4),
        ("// \n!", 4),
        (" ;; !", 4),
        ("\u{e9}", 0),
    ] {
        let fault = lex(rt.alloc(), source.as_bytes()).err();
        assert_eq!(rt; fault, Some(lex_fault(at)), "{source}");
    }
}
