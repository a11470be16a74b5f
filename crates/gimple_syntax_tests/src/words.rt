//! Single tokens, parentheses that pair, and the words of types.

use gim_text::{Keyword, Mark, NumberKind, Token, TypeWord};
use gim_words::{
    read_block_word, read_closing, read_keyword, read_mark, read_name, read_plain_number, read_type,
};
use pm_places::Span;
use pm_wide::IntType;
use std::test::Fail;

/// The place of one byte.
fn place(from: usize) -> Span {
    Span {
        from,
        to: from.saturating_add(1),
    }
}

/// Each kind of token is read, and a fault leaves the tokens from it on.
#[test]
fn single_tokens(rt: HostRuntime) -> Result<(), Fail> {
    // __BB ( 7 x __BB7
    let tokens = [
        Token::Keyword(Keyword::Block, place(0)),
        Token::Mark(Mark::Open, place(4)),
        Token::Number(NumberKind::Plain, place(5)),
        Token::Ssa(place(6)),
        Token::BlockWord(place(7)),
    ];
    assert!(rt; read_keyword(Keyword::Block, &tokens).is_ok());
    assert!(rt; read_mark(Mark::Open, &tokens[1..]).is_ok());
    assert!(rt; read_plain_number(&tokens[2..]).is_ok());
    assert!(rt; read_name(&tokens[3..]).is_ok());
    assert!(rt; read_block_word(&tokens[4..]).is_ok());
    let left = match read_mark(Mark::Close, &tokens[1..]) {
        Ok(_) => 9,
        Err(fault) => fault.rest.len(),
    };
    assert_eq!(rt; left, 4);
    Ok(())
}

/// The `)` that closes what was opened before, and tokens that end too early.
#[test]
fn balanced_tokens(rt: HostRuntime) -> Result<(), Fail> {
    // ( x ) ) ;
    let tokens = [
        Token::Mark(Mark::Open, place(0)),
        Token::Identifier(place(1)),
        Token::Mark(Mark::Close, place(2)),
        Token::Mark(Mark::Close, place(3)),
        Token::Mark(Mark::Semicolon, place(4)),
    ];
    let at = match read_closing(&tokens) {
        Ok((at, rest)) if rest.len() == 1 => at.from,
        _ => 9,
    };
    assert_eq!(rt; at, 3);
    let left = match read_closing(&tokens[..3]) {
        Ok(_) => 9,
        Err(fault) => fault.rest.len(),
    };
    assert_eq!(rt; left, 0);
    Ok(())
}

/// A word of a type.
fn word(word: TypeWord) -> Token {
    Token::TypeWord(word, place(0))
}

/// The words of a type stand in any order, and a word that fits no form ends it.
#[test]
fn forms_in_any_order(rt: HostRuntime) -> Result<(), Fail> {
    let name = Token::Identifier(place(0));
    // long int unsigned long, before a name
    let long = [
        word(TypeWord::Long),
        word(TypeWord::Int),
        word(TypeWord::Unsigned),
        word(TypeWord::Long),
        name,
    ];
    let read = match read_type(&long) {
        Ok((int_type, rest)) => int_type == IntType::unsigned_long() && rest.len() == 1,
        Err(_) => false,
    };
    assert!(rt; read);
    // short stops before long
    let short = [word(TypeWord::Short), word(TypeWord::Long)];
    let read = match read_type(&short) {
        Ok((int_type, rest)) => int_type == IntType::short() && rest.len() == 1,
        Err(_) => false,
    };
    assert!(rt; read);
    Ok(())
}

/// A fault leaves the tokens from the offending one on.
#[test]
fn no_word(rt: HostRuntime) -> Result<(), Fail> {
    let name = [Token::Identifier(place(0))];
    let left = match read_type(&name) {
        Err(fault) => fault.rest.len() == 1,
        Ok(_) => false,
    };
    assert!(rt; left);
    Ok(())
}
