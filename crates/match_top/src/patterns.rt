//! Pattern files of the first form.
ghost use Rattle.std.specs.Prelude.{◌≡◌, ◌<◌, ◌^◌, length, IfOk};
ghost use Rattle.first_patterns.specs.FirstForm.{SpellsFile};
ghost use Rattle.match_top.specs.Given.{Judges, Staged};
ghost use Rattle.match_top.specs.declared.needs.Kind.TheVariants.{Patterns};

use crate::answer::Stop;
use crate::given::read;
use crate::needs::Kind;
use crate::refusals::faulty;
use first_patterns::{ReadFault, Row};
use pm_io::Inputs;
use pm_items::Items;
use std::alloc::Global;

/// A pattern file: its bytes, and the rows that they spell.
#[derive(Drop)]
pub struct PatternFile {
    pub source: Items<u8>,
    pub rows: Items<Row>,
}

/// The pattern file of this name.
pub fn read_patterns<I: Inputs>(
    alloc: Global,
    inputs: &mut I,
    name: &str,
) -> Result<PatternFile, Stop>
    ensures staged { Staged (record { kind = Patterns; name = name.now }) (I.state inputs.old) (I.state inputs.new) result }
    ensures spelled { IfOk result (λ file. SpellsFile file.rows file.source) }
    ensures short { IfOk result (λ file. length file.source < 2 ^ 31) }
{
    match read(alloc, inputs, Kind::Patterns, name) {
        Ok(source) => judged(alloc, source),
        Err(stop) => Err(stop),
    }
}

/// What these bytes spell.
fn judged(alloc: Global, source: Items<u8>) -> Result<PatternFile, Stop>
    ensures judges { Judges Patterns source result }
    ensures source { IfOk result (λ file. file.source ≡ source) }
    ensures spelled { IfOk result (λ file. SpellsFile file.rows file.source) }
{
    match first_patterns::read(alloc, source.as_slice()) {
        Ok(rows) => Ok(PatternFile { source, rows }),
        Err(ReadFault::NotFirst) => Err(faulty(alloc, Kind::Patterns, None, "NotYet", None)),
        Err(ReadFault::Memory) => Err(Stop::Memory),
    }
}
