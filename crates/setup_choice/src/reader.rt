//! Reads a setups file.
ghost use Rattle.std.specs.Prelude.{◌≡◌, ◌<◌, ◌≤◌, length, map, IfOk, IfSome, bytes_eq};
ghost use Rattle.std.specs.List.{list_any};
ghost use Rattle.toml.specs.View.{view, table_view};
ghost use Rattle.toml_fields.specs.Results.{Gives, GivesOr, first_below};
ghost use Rattle.tool_library.specs.Names.{is_repeat};
ghost use Rattle.setup_choice.specs.Setups.{one_setup_data, setups_data, names_of_setups, IsSetups};
ghost use Rattle.setup_choice.specs.SetupsFile.{one_setup_of, one_setup_in, setups_from, setups_of_members, setups_of};

use crate::bounds::MOST_SETUPS;
use crate::fault::SetupFault;
use crate::setups::{OneSetup, Setups};
use crate::stages::{bad_field, some_tables_at, stage_wants_of};
use arrayvec::ArrayVec;
use brake_base::Name;
use machine_file::bounds::MOST_STAGES;
use std::alloc::Global;
use toml::{Table, Value};
use toml_fields::{DocumentFault, has_unknown_key, name_at, read_document};

/// The setup in the table of this number.
#[tactic(auto, using(toml_fields::proofs::Sizes::sizes), unfolding(crate::specs::SetupsFile::one_setup_of))]
fn one_setup_of(number: u8, table: &Table) -> Result<OneSetup, SetupFault>
    requires { number ≤ 200 }
    ensures { Gives one_setup_data result (one_setup_of number (table_view table.now)) }
{
    let name = name_at(table, "name").ok_or(bad_field(number, 2))?;
    let items = some_tables_at(table, "stage").ok_or(bad_field(number, 3))?;
    if has_unknown_key(table, &["name", "stage"]) {
        return Err(SetupFault::UnknownKey { table: number });
    }
    if items.len() > MOST_STAGES {
        return Err(SetupFault::TooMany { table: number });
    }
    let stages = stage_wants_of(number, items)?;
    Ok(OneSetup { name, stages })
}

/// The setup of an item of `setup`, whose table has this number.
#[tactic(auto, unfolding(crate::specs::SetupsFile::one_setup_in))]
fn one_setup_in(number: u8, item: &Value) -> Result<OneSetup, SetupFault>
    requires { number ≤ 200 }
    ensures { Gives one_setup_data result (one_setup_in number (view item.now)) }
{
    match item.as_table() {
        Some(table) => one_setup_of(number, table),
        None => Err(bad_field(0, 1)),
    }
}

/// The setups of the items of `setup`, of which there are at most `MOST_SETUPS`.
fn setups_of_items(items: &[Value]) -> Result<ArrayVec<OneSetup, MOST_SETUPS>, SetupFault>
    requires { length items.now ≤ MOST_SETUPS }
    ensures { Gives (λ setups. map one_setup_data setups.items) result
        (setups_from 1 (map view items.now)) }
{
    let mut setups = ArrayVec::new();
    let mut number = 1;
    for item in items {
        let one = one_setup_in(number, item)?;
        number += 1 + one.stages.len() as u8;
        setups.push(one);
    }
    Ok(setups)
}

/// Whether some setup has the name.
fn has_name(setups: &[OneSetup], name: &Name) -> bool
    ensures { result ≡ list_any (λ one. bytes_eq one.name.bytes name.now.bytes) setups.now }
{
    setups.iter().any(|one| one.name == *name)
}

/// Whether an earlier setup has the name of the one at the index.
fn is_repeat(setups: &[OneSetup], i: usize) -> bool
    requires { i < length setups.now }
    ensures { result ≡ is_repeat (names_of_setups (map one_setup_data setups.now)) i }
{
    has_name(&setups[..i], &setups[i].name)
}

/// The first setup that has the name of an earlier one.
fn first_repeat(setups: &[OneSetup]) -> Option<usize>
    ensures value { result ≡ first_below
        (is_repeat (names_of_setups (map one_setup_data setups.now))) (length setups.now) }
    ensures within { IfSome result (λ i. i < length setups.now) }
{
    (0..setups.len()).find(|i| is_repeat(setups, *i))
}

/// The setups of the top table.
#[tactic(auto, using(toml_fields::proofs::Sizes::sizes), unfolding(crate::specs::SetupsFile::setups_of_members))]
fn setups_of_members(table: &Table) -> Result<Setups, SetupFault>
    ensures { Gives setups_data result (setups_of_members (table_view table.now)) }
{
    let items = some_tables_at(table, "setup").ok_or(bad_field(0, 1))?;
    if has_unknown_key(table, &["setup"]) {
        return Err(SetupFault::UnknownKey { table: 0 });
    }
    if items.len() > MOST_SETUPS {
        return Err(SetupFault::TooMany { table: 0 });
    }
    let list = setups_of_items(items)?;
    if let Some(setup) = first_repeat(list.as_slice()) {
        return Err(SetupFault::SameName { setup: setup as u8 });
    }
    Ok(Setups { list })
}

/// The setups of a file, or its first refusal: the document, then table by table the keys in order,
/// an unknown key, a list too long, and last the first setup that has the name of an earlier one.
/// Want of memory may be answered where the document is read.
pub fn read_setups(alloc: Global, text: &[u8]) -> Result<Setups, SetupFault>
    ensures value { GivesOr SetupFault.NoMemory setups_data result (setups_of text.now) }
    ensures fit { IfOk result (λ setups. IsSetups (setups_data setups)) }
{
    match read_document(alloc, text) {
        Ok(table) => setups_of_members(&table),
        Err(DocumentFault::NotToml) => Err(SetupFault::NotToml),
        Err(DocumentFault::NoMemory) => Err(SetupFault::NoMemory),
    }
}
