//! What defines come to, and the define that a value names.
ghost use Rattle.std.specs.Prelude.{◌≡◌, ◌==◌, ◌&&◌, length, IfOk, IfSome};
ghost use Rattle.std.specs.Option.{option_copied, option_map, option_map_or};
ghost use Rattle.sed_classes.specs.Declarations.{class_at};
ghost use Rattle.sed_classes.specs.FoundMembers.{owned_of};
ghost use Rattle.sed_classes.specs.Members as members;
ghost use Rattle.sed_classes.specs.Values as values;
ghost use Rattle.sed_rules.specs.Plains.{as_constant};
ghost use Rattle.sed_rules.specs.Reading.{left_over, plain_value, read_back};

use crate::constants::read_value;
use crate::literals::{negated, plain_literal};
use crate::plain::Plain;
use sed_classes::{Based, Classes, Found, SourceType, is_define};
use sed_units::{Init, InitValue, Member, MemberForm};
use sed_value::Memory;
use std::alloc::Global;

/// The initial value of a member.
pub fn value_of(member: &Member) -> Option<&Init>
    ensures { option_copied result ≡ members.form_value member.now.form }
{
    match &member.form {
        MemberForm::Field(Some(init)) => Some(init),
        MemberForm::Field(None) => None,
        MemberForm::Method(_, _) => None,
    }
}

/// The define that a name stands for in a class.
pub fn define_named<'a>(
    alloc: Global,
    based: &'a Based<'_>,
    class: usize,
    name: &[u8],
) -> Result<Option<Found<'a>>, Memory>
    ensures { IfOk result (λ o. option_map owned_of o ≡ values.define_named based.now class name.now) }
{
    let lineage = based.lineage(alloc, class)?;
    match based.classes().nearest_among(name, lineage.as_slice()) {
        Some(found) => {
            if is_define(found.member) {
                Ok(Some(found))
            } else {
                Ok(None)
            }
        }
        None => Ok(None),
    }
}

/// The define that an initial value in a class names.
pub fn next_define<'a>(
    alloc: Global,
    based: &'a Based<'_>,
    class: usize,
    value: Option<&Init>,
) -> Result<Option<Found<'a>>, Memory>
    ensures { IfOk result (λ o. option_map owned_of o
        ≡ values.next_define based.now class (option_copied value.entry)) }
{
    match value {
        Some(init) => match &init.value {
            InitValue::Name(id) => define_named(alloc, based, class, id.bytes.as_slice()),
            InitValue::Literal(_) => Ok(None),
            InitValue::Minus(_) => Ok(None),
        },
        None => Ok(None),
    }
}

/// What an initial value comes to that names no define.
pub fn plain_value(value: Option<&Init>) -> Plain
    ensures { as_constant result ≡ plain_value (option_copied value.entry) }
{
    match value {
        Some(init) => match &init.value {
            InitValue::Literal(literal) => plain_literal(literal),
            InitValue::Minus(literal) => negated(plain_literal(literal)),
            InitValue::Name(_) => Plain::Nothing,
        },
        None => Plain::Unknown,
    }
}

// What the value of the last one reads as, through defines of these types.
fn read_back(kinds: &[SourceType], last: Plain) -> Plain
    ensures { as_constant result ≡ read_back kinds.now (as_constant last) }
{
    let mut value = last;
    let mut left = kinds.len();
    'backwards: while left > 0 {
        left -= 1;
        value = read_value(kinds[left], value);
    }
    value
}

// How many members the class at a place itself declares.
fn member_len(classes: &Classes<'_>, class: usize) -> usize
    ensures { result ≡ option_map_or (λ d. length d.class.members) (class_at classes.now class) 0 }
{
    match classes.entry_at(class) {
        Some(entry) => entry.class.members.len(),
        None => 0,
    }
}

/// How many members there are in all: none where there are too many to count.
pub fn member_count(classes: &Classes<'_>) -> Option<usize>
    ensures { IfSome result (λ n. n ≡ values.member_count classes.now) }
{
    let mut count: usize = 0;
    for class in 0..classes.len() {
        count = count.checked_add(member_len(classes, class))?;
    }
    Some(count)
}

// What is left where no more defines are followed: a define that is not read is unknown.
fn left_over(next: Option<Found<'_>>, last: Plain) -> Plain
    ensures { as_constant result ≡ left_over (option_map owned_of next.entry) (as_constant last) }
{
    match next {
        Some(_) => Plain::Unknown,
        None => last,
    }
}

/// What an initial value in a class comes to.
///
/// Want of memory is the only refusal.
pub fn constant_of(
    alloc: Global,
    based: &Based<'_>,
    class: usize,
    init: &Init,
) -> Result<Plain, Memory>
    ensures { IfOk result (λ p. as_constant p ≡ values.constant_of based.now class init.now) }
{
    let Some(mut left) = member_count(based.classes()) else {
        return Err(Memory);
    };
    let mut kinds = Vec::new(alloc);
    let mut last = plain_value(Some(init));
    let mut next = next_define(alloc, based, class, Some(init))?;
    'follow: while left > 0 {
        let Some(at) = next else {
            return Ok(read_back(kinds.as_slice(), last));
        };
        kinds.push(based.classes().type_of(at.kit, &at.member.kind))?;
        let value = value_of(at.member);
        last = plain_value(value);
        next = next_define(alloc, based, at.class, value)?;
        left -= 1;
    }
    Ok(read_back(kinds.as_slice(), left_over(next, last)))
}

fn is_member(found: &Found<'_>, class: usize, at: usize) -> bool
    ensures { result ≡ ((found.now.class == class) && (found.now.member.now.at == at)) }
{
    found.class == class && found.member.at == at
}

/// Whether the value of a member of a class leads, from define to define, back to the member.
///
/// Want of memory is the only refusal.
pub fn leads_back(
    alloc: Global,
    based: &Based<'_>,
    class: usize,
    member: &Member,
) -> Result<bool, Memory>
    ensures { IfOk result (λ b. b ≡ values.define_leads_back based.now class member.now) }
{
    let Some(mut left) = member_count(based.classes()) else {
        return Err(Memory);
    };
    let mut next = next_define(alloc, based, class, value_of(member))?;
    'follow: while left > 0 {
        let Some(at) = next else {
            return Ok(false);
        };
        if is_member(&at, class, member.at) {
            return Ok(true);
        }
        next = next_define(alloc, based, at.class, value_of(at.member))?;
        left -= 1;
    }
    Ok(false)
}
