//! Rules on the types of members and parameters, and on modifiers that go together.
ghost use Rattle.std.specs.Prelude.{◌≡◌, ◌≤◌};
ghost use Rattle.sed_faults.specs.Faults.{least};
ghost use Rattle.sed_classes.specs.FieldRules as rules;

use sed_classes::{
    Classes, SourceType, has_word, is_field_type, is_inline, is_method, is_property, is_static,
    is_storable, is_unknown, is_void, overrides, says_abstract, says_virtual,
};
use sed_faults::{Fault, broken_if};
use sed_units::{Member, ModifierWord, Param};

// ---- 10: types of members and parameters, and modifiers that go together

fn is_no_field(kind: SourceType, member: &Member) -> bool
    ensures { result ≡ rules.is_no_field kind member.now }
{
    !is_method(member)
        && !is_property(member)
        && !is_unknown(kind)
        && !is_field_type(is_inline(member), kind)
}

fn is_no_result(kind: SourceType, member: &Member) -> bool
    ensures { result ≡ rules.is_no_result kind member.now }
{
    is_method(member) && !is_unknown(kind) && !is_void(kind) && !is_storable(kind)
}

fn says(member: &Member, word: ModifierWord) -> usize
    ensures count { result ≡ rules.said_once word member.now }
    ensures most { result ≤ 1 }
{
    if has_word(member.modifiers.as_slice(), word) {
        1
    } else {
        0
    }
}

// How many of the words a member says that exclude one another.
fn exclusive_count(member: &Member) -> usize
    ensures { result ≡ rules.exclusive_count member.now }
{
    says(member, ModifierWord::Property)
        + says(member, ModifierWord::Action)
        + says(member, ModifierWord::Define)
        + says(member, ModifierWord::Static)
        + says(member, ModifierWord::Inline)
}

fn is_static_inline(member: &Member) -> bool
    ensures { result ≡ rules.is_static_inline member.now }
{
    is_static(member) && is_inline(member) && exclusive_count(member) == 2
}

fn has_no_method_words(member: &Member) -> bool
    ensures { result ≡ rules.has_no_method_words member.now }
{
    has_word(member.modifiers.as_slice(), ModifierWord::Property)
        || has_word(member.modifiers.as_slice(), ModifierWord::Define)
        || is_inline(member)
        || is_static(member) && (says_virtual(member) || says_abstract(member) || overrides(member))
}

fn have_words_apart(member: &Member) -> bool
    ensures { result ≡ rules.have_words_apart member.now }
{
    exclusive_count(member) > 1 && !is_static_inline(member)
        || is_method(member) && has_no_method_words(member)
}

/// Where a member's type is none for it, or its modifiers don't go together.
pub fn member_not_fit(classes: &Classes<'_>, kit: usize, member: &Member) -> Option<Fault>
    ensures { result ≡ least (rules.member_not_fit classes.now kit member.now) }
{
    let kind = classes.type_of(kit, &member.kind);
    let wrong = is_no_field(kind, member) || is_no_result(kind, member) || have_words_apart(member);
    broken_if(wrong, 10, member.at)
}

fn is_not_storable(kind: SourceType) -> bool
    ensures { result ≡ rules.is_not_storable kind }
{
    !is_unknown(kind) && !is_storable(kind)
}

/// Where a parameter's type is none for it.
pub fn param_not_fit(classes: &Classes<'_>, kit: usize, param: &Param) -> Option<Fault>
    ensures { result ≡ least (rules.param_not_fit classes.now kit param.now) }
{
    broken_if(
        is_not_storable(classes.type_of(kit, &param.kind)),
        10,
        param.at,
    )
}
