//! The checks of types' definitions.
ghost use Rattle.std.specs.Prelude.{◌≡◌, ◌+◌, ◌<◌, ◌≤◌, ◌^◌, ◌++◌, Some, OnOk, IfOk, length, map, string_bytes};
ghost use Rattle.ioa_trees.specs.Views.{view_type, view_type_definition, view_type_body};
ghost use Rattle.ioa_trees.specs.Kinds as kinds;
ghost use Rattle.ioa_trees.specs.Scopes as scopes;
ghost use Rattle.ioa_trees.specs.Sizes.{definition_size, listed_size, name_size, type_size};
ghost use Rattle.ioa_trees.specs.TypeRules.{kind_of, type_faults};
ghost use Rattle.ioa_trees.specs.SourceRules as rule;
ghost use Rattle.ioa_typing.specs.NameViews.{names_tree};
ghost use Rattle.ioa_typing.specs.Noted.{AreNoted};
ghost use Rattle.ioa_check.specs.ListParts as part;

use ioa_entries::between::between;
use ioa_trees::tree::{TypeBody, TypeDefinition, TypeTree};
use ioa_typing::{FaultKind, Kind, Meaning, Names, Progress, check_type};
use std::alloc::{AllocError, Global};

// Checks the members of an enumeration, and declares each of them; the first one has this number among all members.
fn check_members(
    names: &mut Names,
    first: u16,
    members: &[String],
    progress: &mut Progress,
) -> Result<(), AllocError>
    requires room { progress.old.at + listed_size name_size (map string_bytes members.now)
        < 2 ^ 32 }
    requires few { first + length members.now < 2 ^ 16 }
    ensures at { OnOk result (progress.new.at ≡ progress.old.at
        + listed_size name_size (map string_bytes members.now)) }
    ensures names { OnOk result (names_tree names.new
        ≡ rule.with_members (names_tree names.old) first (length members.now) first
        (map string_bytes members.now)) }
    ensures faults { OnOk result (AreNoted progress.old progress.new
        (rule.members_faults (names_tree names.old) first (length members.now) first progress.old.at
        (map string_bytes members.now))) }
{
    let count = members.len() as u16;
    let mut member = first;
    let mut is_first = true;
    for name in members {
        progress.at += between(is_first);
        is_first = false;
        let at = progress.at;
        let is_new = names.declare(name, Meaning::Member(member, first, count))?;
        progress.note_if(!is_new, at, FaultKind::DoubleName);
        progress.at += 1;
        member += 1;
    }
    Ok(())
}

// The words before the members.
fn enumeration_words(members: &[String]) -> u32
    ensures { result ≡ part.enumeration_words (map string_bytes members.now) }
{
    match members.first() {
        None => 1,
        Some(_) => 2,
    }
}

// Checks an enumeration from its first word on, and declares its name and its members.
fn check_enumeration(
    names: &mut Names,
    name: &String,
    first: u16,
    members: &[String],
    progress: &mut Progress,
) -> Result<(), AllocError>
    requires room { progress.old.at
        + (part.enumeration_words (map string_bytes members.now)
        + listed_size name_size (map string_bytes members.now)) < 2 ^ 32 }
    requires few { first + length members.now < 2 ^ 16 }
    ensures at { OnOk result (progress.new.at ≡ progress.old.at
        + (part.enumeration_words (map string_bytes members.now)
        + listed_size name_size (map string_bytes members.now))) }
    ensures names { OnOk result (names_tree names.new
        ≡ rule.with_members
        (scopes.declare (string_bytes name.now)
        (scopes.OfType (Some (kinds.Enum first (length members.now)))) (names_tree names.old)) first
        (length members.now) first (map string_bytes members.now)) }
    ensures faults { OnOk result (AreNoted progress.old progress.new
        (rule.members_faults
        (scopes.declare (string_bytes name.now)
        (scopes.OfType (Some (kinds.Enum first (length members.now)))) (names_tree names.old)) first
        (length members.now) first
        (progress.old.at + part.enumeration_words (map string_bytes members.now))
        (map string_bytes members.now))) }
{
    progress.at += enumeration_words(members);
    let count = members.len() as u16;
    names.declare(name, Meaning::Type(Some(Kind::Enumeration(first, count))))?;
    check_members(names, first, members, progress)
}

// Checks a type that gets a name, and declares the name.
fn check_alias(
    alloc: Global,
    names: &mut Names,
    name: &String,
    tree: &TypeTree,
    progress: &mut Progress,
) -> Result<(), AllocError>
    requires room { progress.old.at + type_size (view_type tree.now) < 2 ^ 32 }
    ensures at { OnOk result (progress.new.at ≡ progress.old.at + type_size (view_type tree.now)) }
    ensures names { OnOk result (names_tree names.new
        ≡ scopes.declare (string_bytes name.now)
        (scopes.OfType (kind_of (names_tree names.old) (view_type tree.now)))
        (names_tree names.old)) }
    ensures faults { OnOk result (AreNoted progress.old progress.new
        (type_faults (names_tree names.old) progress.old.at (view_type tree.now))) }
{
    let kind = check_type(alloc, names, tree, progress)?;
    names.declare(name, Meaning::Type(kind))?;
    Ok(())
}

// Checks a definition, and declares what it defines; so many members came before it.
fn check_definition(
    alloc: Global,
    names: &mut Names,
    first: u16,
    definition: &TypeDefinition,
    progress: &mut Progress,
) -> Result<(), AllocError>
    requires room { progress.old.at + definition_size (view_type_definition definition.now)
        < 2 ^ 32 }
    requires few { first + length (rule.members_in (view_type_body definition.now.body)) < 2 ^ 16 }
    ensures at { OnOk result (progress.new.at ≡ progress.old.at
        + definition_size (view_type_definition definition.now)) }
    ensures names { OnOk result (names_tree names.new
        ≡ rule.with_definition (names_tree names.old) first (view_type_definition definition.now)) }
    ensures faults { OnOk result (AreNoted progress.old progress.new
        (rule.definition_faults (names_tree names.old) first progress.old.at
        (view_type_definition definition.now))) }
{
    progress.at += 1;
    let at = progress.at;
    progress.note_if(
        names.get(definition.name.as_str()).is_some(),
        at,
        FaultKind::DoubleName,
    );
    progress.at += 2;
    let name = &definition.name;
    match &definition.body {
        TypeBody::Same(tree) => {
            check_alias(alloc, names, name, tree, progress)?;
        }
        TypeBody::Enumeration(members) => {
            check_enumeration(names, name, first, members.as_slice(), progress)?;
        }
    }
    Ok(())
}

// The members that a definition defines, after those before it.
fn push_members(members: &mut Vec<String>, body: &TypeBody) -> Result<(), AllocError>
    ensures { OnOk result (map string_bytes members.new.items ≡ map string_bytes members.old.items
        ++ rule.members_in (view_type_body body.now)) }
{
    match body {
        TypeBody::Same(_) => Ok(()),
        TypeBody::Enumeration(names) => {
            push_names(members, names.as_slice())?;
            Ok(())
        }
    }
}

fn push_names(members: &mut Vec<String>, names: &[String]) -> Result<(), AllocError>
    ensures { OnOk result (map string_bytes members.new.items ≡ map string_bytes members.old.items
        ++ map string_bytes names.now) }
{
    for name in names {
        members.push(name.clone()?)?;
    }
    Ok(())
}

/// Checks definitions, declares what they define, and gives all members.
pub(crate) fn check_definitions(
    alloc: Global,
    names: &mut Names,
    definitions: &[TypeDefinition],
    progress: &mut Progress,
) -> Result<Vec<String>, AllocError>
    requires room { progress.old.at
        + rule.definitions_size (map view_type_definition definitions.now) ≤ 65536 }
    ensures at { OnOk result (progress.new.at ≡ progress.old.at
        + rule.definitions_size (map view_type_definition definitions.now)) }
    ensures names { OnOk result (names_tree names.new
        ≡ rule.with_definitions (names_tree names.old) 0
        (map view_type_definition definitions.now)) }
    ensures faults { OnOk result (AreNoted progress.old progress.new
        (rule.definitions_faults (names_tree names.old) 0 progress.old.at
        (map view_type_definition definitions.now))) }
    ensures members { IfOk result (λ ms. map string_bytes ms.items
        ≡ rule.all_members (map view_type_definition definitions.now)) }
{
    let mut members = Vec::new(alloc);
    let mut first = 0;
    for definition in definitions {
        check_definition(alloc, names, first, definition, progress)?;
        push_members(&mut members, &definition.body)?;
        first = members.len() as u16;
    }
    Ok(members)
}
