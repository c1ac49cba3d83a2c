//! What the members of a class are, by their words and forms.
ghost use Rattle.std.specs.Prelude.{◌≡◌, is_some};
ghost use Rattle.sed_classes.specs.Members as members;
ghost use Rattle.sed_classes.specs.Objects as objects;

use sed_units::{Class, Facet, Member, MemberForm, Modifier, ModifierWord, Param};

fn word_number(word: ModifierWord) -> u8
    ensures { result ≡ members.word_number word }
{
    match word {
        ModifierWord::Public => 0,
        ModifierWord::Private => 1,
        ModifierWord::Protected => 2,
        ModifierWord::Internal => 3,
        ModifierWord::Abstract => 4,
        ModifierWord::Final => 5,
        ModifierWord::Static => 6,
        ModifierWord::Virtual => 7,
        ModifierWord::Override => 8,
        ModifierWord::Inline => 9,
        ModifierWord::Define => 10,
        ModifierWord::Property => 11,
        ModifierWord::Action => 12,
    }
}

/// Whether a word is among the modifiers.
pub fn has_word(modifiers: &[Modifier], word: ModifierWord) -> bool
    ensures { result ≡ members.has_word word modifiers.now }
{
    modifiers
        .iter()
        .any(|modifier| word_number(modifier.word) == word_number(word))
}

/// Whether a class says `abstract`.
pub fn is_abstract_class(class: &Class) -> bool
    ensures { result ≡ members.is_abstract_class class.now }
{
    has_word(class.modifiers.as_slice(), ModifierWord::Abstract)
}

fn says(member: &Member, word: ModifierWord) -> bool
    ensures { result ≡ members.has_word word member.now.modifiers }
{
    has_word(member.modifiers.as_slice(), word)
}

/// Whether a member is a method.
pub fn is_method(member: &Member) -> bool
    ensures { result ≡ members.is_method member.now }
{
    match &member.form {
        MemberForm::Method(_, _) => true,
        MemberForm::Field(_) => false,
    }
}

/// The parameters of a method; a field has none.
pub fn params_of(member: &Member) -> &[Param]
    ensures { result.now ≡ members.form_params member.now.form }
{
    match &member.form {
        MemberForm::Method(params, _) => params.as_slice(),
        MemberForm::Field(_) => &[],
    }
}

/// Whether a member has a body.
pub fn has_body(member: &Member) -> bool
    ensures { result ≡ is_some (members.form_body member.now.form) }
{
    match &member.form {
        MemberForm::Method(_, body) => body.is_some(),
        MemberForm::Field(_) => false,
    }
}

/// Whether a member is a property: a field that says `property`.
pub fn is_property(member: &Member) -> bool
    ensures { result ≡ members.is_property member.now }
{
    !is_method(member) && says(member, ModifierWord::Property)
}

/// Whether a member is marked as an action; only a method may be.
pub fn is_action(member: &Member) -> bool
    ensures { result ≡ members.is_action member.now }
{
    says(member, ModifierWord::Action)
}

/// Whether a member is a define: a named constant of its class, and no field.
pub fn is_define(member: &Member) -> bool
    ensures { result ≡ members.is_define member.now }
{
    !is_method(member) && says(member, ModifierWord::Define)
}

/// Whether a member says `static`.
pub fn is_static(member: &Member) -> bool
    ensures { result ≡ members.is_static member.now }
{
    says(member, ModifierWord::Static)
}

/// Whether a member is an inline object: it stands in its holder and is never null.
pub fn is_inline(member: &Member) -> bool
    ensures { result ≡ objects.is_inline member.now }
{
    says(member, ModifierWord::Inline)
}

/// Whether a member says `virtual`.
pub fn says_virtual(member: &Member) -> bool
    ensures { result ≡ members.has_word ModifierWord.Virtual member.now.modifiers }
{
    says(member, ModifierWord::Virtual)
}

/// Whether a member says `abstract`.
pub fn says_abstract(member: &Member) -> bool
    ensures { result ≡ members.has_word ModifierWord.Abstract member.now.modifiers }
{
    says(member, ModifierWord::Abstract)
}

/// Whether a member says `override`.
pub fn overrides(member: &Member) -> bool
    ensures { result ≡ members.overrides member.now }
{
    says(member, ModifierWord::Override)
}

/// Whether a member is what each object of its class has a place for.
pub fn is_instance_field(member: &Member) -> bool
    ensures { result ≡ members.is_instance_field member.now }
{
    !is_method(member) && !is_define(member) && !is_static(member)
}

/// Whether a member is a static field: there is one for all objects, in the static block.
pub fn is_static_field(member: &Member) -> bool
    ensures { result ≡ members.is_static_field member.now }
{
    !is_method(member) && !is_define(member) && is_static(member)
}

/// Whether a member is a method that may be overridden, by its own words.
pub fn is_open(member: &Member) -> bool
    ensures { result ≡ members.is_open member.now }
{
    is_method(member) && (says_virtual(member) || says_abstract(member) || is_action(member))
}

/// Whether a member has this name.
pub fn has_name(member: &Member, name: &[u8]) -> bool
    ensures { result ≡ members.has_name name.now member.now }
{
    member.name.bytes.as_slice() == name
}

/// Whether `@config` is among the facets.
pub fn is_config(facets: &[Facet]) -> bool
    ensures { result ≡ members.is_config facets.now }
{
    facets.iter().any(|facet| facet.name.bytes.as_slice() == b"config".as_slice())
}
