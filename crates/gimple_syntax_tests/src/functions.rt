//! Files, from their tokens.

use gim_syntax::read_syntax;
use gim_text::{GimpleKind, Keyword, Mark, NumberKind, Token, TypeWord};
use pm_places::Span;
use std::alloc::Global;
use std::test::Fail;

/// The place of one byte.
fn at(place: usize) -> Span {
    Span {
        from: place,
        to: place.saturating_add(1),
    }
}

/// A mark.
fn mark(kind: Mark, place: usize) -> Token {
    Token::Mark(kind, at(place))
}

/// A reserved word.
fn word(keyword: Keyword, place: usize) -> Token {
    Token::Keyword(keyword, at(place))
}

/// The word `int`.
fn int(place: usize) -> Token {
    Token::TypeWord(TypeWord::Int, at(place))
}

/// A name.
fn name(place: usize) -> Token {
    Token::Identifier(at(place))
}

/// A number.
fn number(kind: NumberKind, place: usize) -> Token {
    Token::Number(kind, at(place))
}

/// `int __GIMPLE (ssa) f (` at the places 0 to 6, and these tokens.
fn after_head(alloc: Global, tokens: &[Token]) -> Result<Vec<Token>, Fail> {
    let mut all = Vec::new(alloc);
    all.extend_from_slice(&[
        int(0),
        word(Keyword::Gimple, 1),
        mark(Mark::Open, 2),
        Token::Ssa(at(3)),
        mark(Mark::Close, 4),
        name(5),
        mark(Mark::Open, 6),
    ])?;
    all.extend_from_slice(tokens)?;
    Ok(all)
}

/// The head, `) { __BB (2) :` at the places 7 to 13, and these tokens.
fn in_block(alloc: Global, tokens: &[Token]) -> Result<Vec<Token>, Fail> {
    let mut all = after_head(
        alloc,
        &[
            mark(Mark::Close, 7),
            mark(Mark::OpenBrace, 8),
            word(Keyword::Block, 9),
            mark(Mark::Open, 10),
            number(NumberKind::Plain, 11),
            mark(Mark::Close, 12),
            mark(Mark::Colon, 13),
        ],
    )?;
    all.extend_from_slice(tokens)?;
    Ok(all)
}

/// The kind and the place of the fault of a file of 99 bytes.
fn fault_of(alloc: Global, tokens: &[Token]) -> Option<(GimpleKind, usize)> {
    match read_syntax(alloc, 99, tokens) {
        Ok(_) => None,
        Err(fault) => Some((fault.kind, fault.at)),
    }
}

/// Functions with and without parameters, locals and blocks.
#[test]
fn functions(rt: HostRuntime) -> Result<(), Fail> {
    // int __GIMPLE (ssa) f (int a, int b) { int c; __BB(2): return a; }
    // int __GIMPLE ((x), ssa) g (void) { }
    let tokens = after_head(
        rt.alloc(),
        &[
            int(7),
            name(8),
            mark(Mark::Comma, 9),
            int(10),
            name(11),
            mark(Mark::Close, 12),
            mark(Mark::OpenBrace, 13),
            int(14),
            name(15),
            mark(Mark::Semicolon, 16),
            word(Keyword::Block, 17),
            mark(Mark::Open, 18),
            number(NumberKind::Plain, 19),
            mark(Mark::Close, 20),
            mark(Mark::Colon, 21),
            word(Keyword::Return, 22),
            name(23),
            mark(Mark::Semicolon, 24),
            mark(Mark::CloseBrace, 25),
            int(26),
            word(Keyword::Gimple, 27),
            mark(Mark::Open, 28),
            mark(Mark::Open, 29),
            name(30),
            mark(Mark::Close, 31),
            mark(Mark::Comma, 32),
            Token::Ssa(at(33)),
            mark(Mark::Close, 34),
            name(35),
            mark(Mark::Open, 36),
            word(Keyword::Void, 37),
            mark(Mark::Close, 38),
            mark(Mark::OpenBrace, 39),
            mark(Mark::CloseBrace, 40),
        ],
    )?;
    let read = match read_syntax(rt.alloc(), 99, &tokens) {
        Ok(functions) => match functions.as_slice() {
            [first, second] => first.params.len() == 2
                && first.decls.len() == 1
                && first.blocks.len() == 1
                && first.close == at(25)
                && second.params.is_empty()
                && second.name == at(35),
            _ => false,
        },
        Err(_) => false,
    };
    assert!(rt; read);
    Ok(())
}

/// What is refused in a block, and which name a fault has.
#[test]
fn faults_in_blocks(rt: HostRuntime) -> Result<(), Fail> {
    let alloc = rt.alloc();
    // _2 = foo (x_1
    let call = in_block(
        alloc,
        &[
            name(20),
            mark(Mark::Assign, 21),
            name(22),
            mark(Mark::Open, 23),
            name(24),
        ],
    )?;
    assert!(rt; fault_of(alloc, &call) == Some((GimpleKind::Unsupported, 22)));
    // x_1 (
    let call = in_block(alloc, &[name(20), mark(Mark::Open, 21)])?;
    assert!(rt; fault_of(alloc, &call) == Some((GimpleKind::Unsupported, 20)));
    // return 007
    let zeros = in_block(
        alloc,
        &[word(Keyword::Return, 20), number(NumberKind::Wrong, 21)],
    )?;
    assert!(rt; fault_of(alloc, &zeros) == Some((GimpleKind::Syntax, 21)));
    // _2 = 0x10
    let hexadecimal = in_block(
        alloc,
        &[
            name(20),
            mark(Mark::Assign, 21),
            number(NumberKind::Plain, 22),
            name(23),
        ],
    )?;
    assert!(rt; fault_of(alloc, &hexadecimal) == Some((GimpleKind::Unsupported, 23)));
    // a local after a block
    let local = in_block(alloc, &[int(20)])?;
    assert!(rt; fault_of(alloc, &local) == Some((GimpleKind::Unsupported, 20)));
    // goto __BB02
    let target = in_block(alloc, &[word(Keyword::Goto, 20), name(21)])?;
    assert!(rt; fault_of(alloc, &target) == Some((GimpleKind::Unsupported, 21)));
    // cut after return x
    let cut = in_block(alloc, &[word(Keyword::Return, 20), name(21)])?;
    assert!(rt; fault_of(alloc, &cut) == Some((GimpleKind::Syntax, 99)));
    Ok(())
}

/// What is refused outside blocks.
#[test]
fn faults_outside_blocks(rt: HostRuntime) -> Result<(), Fail> {
    let alloc = rt.alloc();
    // (int x, void
    let void = after_head(
        alloc,
        &[
            int(7),
            name(8),
            mark(Mark::Comma, 9),
            word(Keyword::Void, 10),
        ],
    )?;
    assert!(rt; fault_of(alloc, &void) == Some((GimpleKind::Unsupported, 10)));
    // a number for a parameter: the `(` after a name says nothing outside blocks
    let digits = after_head(alloc, &[number(NumberKind::Plain, 7)])?;
    assert!(rt; fault_of(alloc, &digits) == Some((GimpleKind::Syntax, 7)));
    // __BB (02
    let block = after_head(
        alloc,
        &[
            mark(Mark::Close, 7),
            mark(Mark::OpenBrace, 8),
            word(Keyword::Block, 9),
            mark(Mark::Open, 10),
            number(NumberKind::Wrong, 11),
        ],
    )?;
    assert!(rt; fault_of(alloc, &block) == Some((GimpleKind::Syntax, 11)));
    Ok(())
}

/// A list without `ssa`, and one that is not closed.
#[test]
fn faults_of_options(rt: HostRuntime) -> Result<(), Fail> {
    let alloc = rt.alloc();
    // int __GIMPLE ((ssa))
    let inner = [
        int(0),
        word(Keyword::Gimple, 1),
        mark(Mark::Open, 2),
        mark(Mark::Open, 3),
        Token::Ssa(at(4)),
        mark(Mark::Close, 5),
        mark(Mark::Close, 6),
    ];
    assert!(rt; fault_of(alloc, &inner) == Some((GimpleKind::Unsupported, 1)));
    // int __GIMPLE )
    let none = [int(0), word(Keyword::Gimple, 1), mark(Mark::Close, 2)];
    assert!(rt; fault_of(alloc, &none) == Some((GimpleKind::Syntax, 2)));
    // int __GIMPLE (ssa
    let cut = [
        int(0),
        word(Keyword::Gimple, 1),
        mark(Mark::Open, 2),
        Token::Ssa(at(3)),
    ];
    assert!(rt; fault_of(alloc, &cut) == Some((GimpleKind::Syntax, 99)));
    Ok(())
}
