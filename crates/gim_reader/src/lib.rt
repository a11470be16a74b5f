//! GIMPLE files, as GCC's front end reads functions under `__GIMPLE (ssa)`: from bytes to
//! functions, or to the first fault.
//!
//! docs/GIMPLE.md has the text that is read, and its faults.
#![tactic(auto)]

pub mod laws;

ghost use Rattle.std.specs.Prelude.{◌≡◌, ◌⊎◌, ◌+◌, ◌≤◌, List, IfOk, IfErr};
ghost use Rattle.std.specs.Prelude.{OnOk, MatchResult, None, length};
ghost use Rattle.std.specs.List.{AllByRecursion, AllZip};
ghost use Rattle.gim_ast.specs.declared.function.Function.{Function};
ghost use Rattle.gim_ast.specs.WellFormed.{IsWellFormed};
ghost use Rattle.gim_text.specs.declared.fault.GimpleKind.TheVariants.{Memory};
ghost use Rattle.gim_text.specs.Faults.{Judges};
ghost use Rattle.gim_making.specs.Standing.{StandsFor};
ghost use Rattle.gim_reader.specs.Files.{IsFile, IsRefusal, FromTokens};
ghost use Rattle.gim_reader.specs.Files.{IsTokensRefusal, rules_fault, size_fault};

use gim_ast::Function;
use gim_lexer::lex;
use gim_limits::check_limits;
use gim_making::make;
use gim_names::check_names;
use gim_shape::check_shape;
use gim_syntax::read_syntax;
use gim_text::{FunctionText, Token};
pub use gim_text::{GimpleFault, GimpleKind};
use gim_typing::check_types;
use std::alloc::Global;

/// The greatest length of a file.
pub const FILE_LIMIT: usize = 16_777_216;

/// The functions that a file stands for, or its first fault.
pub fn read(alloc: Global, source: &[u8]) -> Result<Vec<Function>, GimpleFault>
    // What is read is what the bytes stand for.
    ensures found { IfOk result (λ fs. IsFile source.now fs.items) }
    // What the bytes stand for is read, unless memory runs out.
    ensures only { (fs : List Function) → IsFile source.now fs →
        MatchResult result (λ gs. gs.items ≡ fs) (λ fault. fault.kind ≡ Memory) }
    // A refusal is for the first fault, or for want of memory.
    ensures refused { IfErr result (IsRefusal source.now) }
    // The fault stands in the source, unless memory runs out.
    ensures within { IfErr result (λ fault. (fault.kind ≡ Memory) ⊎
        (fault.at + fault.len ≤ length source.now)) }
    // Each function is well formed.
    ensures well_formed { IfOk result (λ fs. AllByRecursion IsWellFormed fs.items) }
{
    if source.len() > FILE_LIMIT {
        return Err(too_large());
    }
    let tokens = lex(alloc, source)?;
    from_tokens(alloc, source, tokens.as_slice())
}

/// The functions that the tokens of a source spell.
fn from_tokens(alloc: Global, source: &[u8], tokens: &[Token]) -> Result<Vec<Function>, GimpleFault>
    ensures found { IfOk result (λ fs. FromTokens source.now tokens.now fs.items) }
    ensures only { (fs : List Function) → FromTokens source.now tokens.now fs →
        MatchResult result (λ gs. gs.items ≡ fs) (λ fault. fault.kind ≡ Memory) }
    ensures refused { IfErr result (IsTokensRefusal source.now tokens.now) }
{
    let trees = read_syntax(alloc, source.len(), tokens)?;
    functions(alloc, source, trees.as_slice())
}

/// The fault of a file with too many bytes.
fn too_large() -> GimpleFault
    ensures { result ≡ size_fault }
{
    GimpleFault {
        kind: GimpleKind::TooLarge,
        at: 0,
        len: 0,
    }
}

/// The functions of trees that keep the rules.
fn functions(
    alloc: Global,
    source: &[u8],
    trees: &[FunctionText],
) -> Result<Vec<Function>, GimpleFault>
    ensures judged { Judges (rules_fault source.now trees.now) result }
    ensures stand { IfOk result (λ fs. AllZip (StandsFor source.now) trees.now fs.items) }
{
    judge(alloc, source, trees)?;
    let functions = make(alloc, source, trees)?;
    Ok(functions.into_vec())
}

/// Judges trees by the rules on names, shape, types and limits.
#[tactic(auto, unfolding(crate::specs::Files::rules_fault))]
fn judge(alloc: Global, source: &[u8], trees: &[FunctionText]) -> Result<(), GimpleFault>
    ensures { Judges (rules_fault source.now trees.now) result }
{
    check_names(alloc, source, trees)?;
    check_shape(alloc, source, trees)?;
    check_types(alloc, source, trees)?;
    check_limits(alloc, source, trees)
}
