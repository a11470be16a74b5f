//! Which terms a table decides.
ghost use Rattle.std.specs.Prelude.{◌≡◌, ◌↔◌, IsTrue};
ghost use Rattle.pm_term.specs.TermTrees.{tree_of, trees_of};
ghost use Rattle.bit_tables.specs.TableClass.{is_conversion, keeps_to_bits, IsConstant, AreConstant, HasConstant, IsBitwise, AreBitwise, IsBuilt, AreBuilt};

use pm_ops::Code;
use pm_term::Term;

/// Whether a term is made of bitwise terms by sums, differences, negatives and products with a
/// constant.
#[cycle(built)]
pub(crate) fn is_built(term: &Term, width: u8) -> bool
    ensures { IsTrue result ↔ IsBuilt width (tree_of term.now) }
{
    match term {
        Term::Name(_, ty) => ty.bits() == width,
        Term::Const(word) => word.ty().bits() == width,
        Term::Node(code, ty, args) => match code {
            Code::Plus | Code::Minus | Code::Negate | Code::Convert => ty.bits() == width
                && are_built(args.as_slice(), width),
            Code::Mult => ty.bits() == width
                && are_built(args.as_slice(), width)
                && has_constant(args.as_slice(), width),
            _ => keeps_to_bits(*code) && ty.bits() == width && are_bitwise(args.as_slice(), width),
        },
    }
}

/// Whether all of these terms are so made.
#[cycle(built)]
fn are_built(terms: &[Term], width: u8) -> bool
    ensures { IsTrue result ↔ AreBuilt width (trees_of terms.now) }
{
    for term in terms {
        if !is_built(term, width) {
            return false;
        }
    }
    true
}

/// Whether a term is made of names and constants by operations on bits.
#[cycle(bitwise)]
fn is_bitwise(term: &Term, width: u8) -> bool
    ensures { IsTrue result ↔ IsBitwise width (tree_of term.now) }
{
    match term {
        Term::Name(_, ty) => ty.bits() == width,
        Term::Const(word) => word.ty().bits() == width,
        Term::Node(code, ty, args) => keeps_to_bits(*code)
            && ty.bits() == width
            && are_bitwise(args.as_slice(), width),
    }
}

/// Whether all of these terms are so made.
#[cycle(bitwise)]
fn are_bitwise(terms: &[Term], width: u8) -> bool
    ensures { IsTrue result ↔ AreBitwise width (trees_of terms.now) }
{
    for term in terms {
        if !is_bitwise(term, width) {
            return false;
        }
    }
    true
}

/// Whether one of these terms is a constant, or conversions of one.
fn has_constant(terms: &[Term], width: u8) -> bool
    ensures { IsTrue result ↔ HasConstant width (trees_of terms.now) }
{
    for term in terms {
        if is_constant(term, width) {
            return true;
        }
    }
    false
}

/// Whether a term is a constant, or conversions of one.
#[cycle(constant)]
fn is_constant(term: &Term, width: u8) -> bool
    ensures { IsTrue result ↔ IsConstant width (tree_of term.now) }
{
    match term {
        Term::Name(..) => false,
        Term::Const(word) => word.ty().bits() == width,
        Term::Node(code, ty, args) => is_conversion(*code)
            && ty.bits() == width
            && are_constant(args.as_slice(), width),
    }
}

/// Whether all of these terms are so.
#[cycle(constant)]
fn are_constant(terms: &[Term], width: u8) -> bool
    ensures { IsTrue result ↔ AreConstant width (trees_of terms.now) }
{
    for term in terms {
        if !is_constant(term, width) {
            return false;
        }
    }
    true
}

/// Whether an operation of this code is a conversion.
fn is_conversion(code: Code) -> bool
    ensures { result ≡ is_conversion code }
{
    matches!(code, Code::Convert)
}

/// Whether an operation of this code acts on the bits of words.
fn keeps_to_bits(code: Code) -> bool
    ensures { result ≡ keeps_to_bits code }
{
    match code {
        Code::BitAnd | Code::BitIor | Code::BitXor | Code::BitNot | Code::Convert => true,
        _ => false,
    }
}
