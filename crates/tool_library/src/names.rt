//! Names that are told apart.
ghost use Rattle.std.specs.Prelude.{◌≡◌, ℕ, ◌+◌, ◌<◌, ◌≤◌, List, length, map, bytes_eq, IfSome, OnOk};
ghost use Rattle.std.specs.List.{list_any};
ghost use Rattle.toml_fields.specs.Results.{first_below};
ghost use Rattle.tool_library.specs.Names.{is_repeat, AreDistinct};
ghost use Rattle.tool_library.specs.Tools.{punch_data, die_data, names_of_punches, names_of_dies};
ghost use Rattle.tool_library.specs.ToolsFile.{refuse_repeat};

use crate::fault::ToolFault;
use crate::tools::{Die, Punch};
use brake_base::Name;

/// A tool that has a name.
trait Named {
    ghost name_of: { Self → List ℕ };

    fn name(&self) -> &Name
        ensures { result.now.bytes ≡ Self.name_of self.now };
}

impl Named for Punch {
    ghost name_of = { λ p. p.name.bytes };

    fn name(&self) -> &Name {
        &self.name
    }
}

impl Named for Die {
    ghost name_of = { λ d. d.name.bytes };

    fn name(&self) -> &Name {
        &self.name
    }
}

/// Whether some tool has the name.
fn has_name<T: Named>(tools: &[T], name: &Name) -> bool
    ensures { result ≡ list_any (λ tool. bytes_eq (T.name_of tool) name.now.bytes) tools.now }
{
    tools.iter().any(|tool| tool.name() == name)
}

/// Whether an earlier tool has the name of the one at the index.
fn is_repeat<T: Named>(tools: &[T], i: usize) -> bool
    requires { i < length tools.now }
    ensures { result ≡ is_repeat (map T.name_of tools.now) i }
{
    has_name(&tools[..i], tools[i].name())
}

/// The first tool that has the name of an earlier one.
fn first_repeat<T: Named>(tools: &[T]) -> Option<usize>
    ensures value { result ≡ first_below (is_repeat (map T.name_of tools.now)) (length tools.now) }
    ensures within { IfSome result (λ i. i < length tools.now) }
{
    (0..tools.len()).find(|i| is_repeat(tools, *i))
}

/// A refusal of the first tool that has the name of an earlier one, where the tables of its kind
/// are numbered from `first` on.
#[tactic(auto, using(crate::proofs::Repeats::AreDistinct_from_none, crate::proofs::Sizes::reading))]
fn refuse_repeat<T: Named>(first: u16, tools: &[T]) -> Result<(), ToolFault>
    requires { first + length tools.now ≤ 1000 }
    ensures value { result ≡ refuse_repeat first (map T.name_of tools.now) }
    ensures distinct { OnOk result (AreDistinct (map T.name_of tools.now)) }
{
    match first_repeat(tools) {
        Some(i) => Err(ToolFault::SameName {
            table: first + i as u16,
        }),
        None => Ok(()),
    }
}

/// A refusal of the first punch that has the name of an earlier one.
pub fn refuse_repeated_punch(first: u16, punches: &[Punch]) -> Result<(), ToolFault>
    requires { first + length punches.now ≤ 1000 }
    ensures value { result ≡ refuse_repeat first (names_of_punches (map punch_data punches.now)) }
    ensures distinct { OnOk result (AreDistinct (names_of_punches (map punch_data punches.now))) }
{
    refuse_repeat(first, punches)
}

/// A refusal of the first die that has the name of an earlier one.
pub fn refuse_repeated_die(first: u16, dies: &[Die]) -> Result<(), ToolFault>
    requires { first + length dies.now ≤ 1000 }
    ensures value { result ≡ refuse_repeat first (names_of_dies (map die_data dies.now)) }
    ensures distinct { OnOk result (AreDistinct (names_of_dies (map die_data dies.now))) }
{
    refuse_repeat(first, dies)
}
