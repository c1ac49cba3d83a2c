//! The types of kit `sys`, as a source would declare them.
ghost use Rattle.std.specs.Prelude.{◌≡◌, ◌++◌, [], ◌∷◌, IfOk, codes};
ghost use Rattle.std.specs.Option.{option_map_or};
ghost use Rattle.sed_classes.specs.SysSource as sys;

use sed_units::{
    Base, Class, Facet, Ident, Member, MemberForm, Modifier, ModifierWord, Param, TypeName, TypeRef,
};
use sed_value::{Items, Memory, Prim};
use std::alloc::Global;

/// The five types, by their numbers.
pub fn sys_classes(alloc: Global) -> Result<Vec<Class>, Memory>
    ensures { IfOk result (λ v. v.items ≡ sys.sys_classes) }
{
    let mut all = Vec::new(alloc);
    push_object(alloc, &mut all)?;
    push_virtual(alloc, &mut all)?;
    push_component(alloc, &mut all)?;
    push_app(alloc, &mut all)?;
    push_folder(alloc, &mut all)?;
    Ok(all)
}

fn push_object(alloc: Global, all: &mut Vec<Class>) -> Result<(), Memory>
    ensures { IfOk result (λ _. all.new.items ≡ all.old.items
        ++ sys.a_class (ModifierWord.Abstract ∷ []) (codes "Obj") None []
        ∷ []) }
{
    push_class(
        alloc,
        all,
        Some(ModifierWord::Abstract),
        b"Obj",
        None,
        Vec::new(alloc),
    )
}

fn push_virtual(alloc: Global, all: &mut Vec<Class>) -> Result<(), Memory>
    ensures { IfOk result (λ _. all.new.items ≡ all.old.items
        ++ sys.a_class (ModifierWord.Abstract ∷ []) (codes "Virtual") (Some (codes "Obj")) []
        ∷ []) }
{
    let base = base_named(alloc, b"Obj")?;
    push_class(
        alloc,
        all,
        Some(ModifierWord::Abstract),
        b"Virtual",
        base,
        Vec::new(alloc),
    )
}

fn push_component(alloc: Global, all: &mut Vec<Class>) -> Result<(), Memory>
    ensures { IfOk result (λ _. all.new.items ≡ all.old.items
        ++ sys.a_class (ModifierWord.Abstract ∷ []) (codes "Component") (Some (codes "Virtual")) sys.component_members
        ∷ []) }
{
    let base = base_named(alloc, b"Virtual")?;
    let members = component_members(alloc)?;
    push_class(
        alloc,
        all,
        Some(ModifierWord::Abstract),
        b"Component",
        base,
        members,
    )
}

fn push_app(alloc: Global, all: &mut Vec<Class>) -> Result<(), Memory>
    ensures { IfOk result (λ _. all.new.items ≡ all.old.items
        ++ sys.a_class [] (codes "App") (Some (codes "Component"))
        (sys.empty_method ModifierWord.Action (codes "save") [] ∷ [])
        ∷ []) }
{
    let base = base_named(alloc, b"Component")?;
    let members = app_members(alloc)?;
    push_class(alloc, all, None, b"App", base, members)
}

fn push_folder(alloc: Global, all: &mut Vec<Class>) -> Result<(), Memory>
    ensures { IfOk result (λ _. all.new.items ≡ all.old.items
        ++ sys.a_class [] (codes "Folder") (Some (codes "Component")) []
        ∷ []) }
{
    let base = base_named(alloc, b"Component")?;
    push_class(alloc, all, None, b"Folder", base, Vec::new(alloc))
}

// A class of these parts, with this word if any, at no place, behind the others.
fn push_class(
    alloc: Global,
    all: &mut Vec<Class>,
    word: Option<ModifierWord>,
    name: &[u8],
    base: Option<TypeName>,
    members: Vec<Member>,
) -> Result<(), Memory>
    ensures { IfOk result (λ _. all.new.items ≡ all.old.items
        ++ (record {
          at = 0;
          facets = [];
          modifiers = option_map_or (λ w. sys.words (w ∷ [])) word [];
          name = sys.named name.now;
          base = base;
          members = members.items;
        }) ∷ []) }
{
    let modifiers = class_words(alloc, word)?;
    let name = named(alloc, name)?;
    all.push(Class {
        at: 0,
        facets: Items::new(Vec::new(alloc)),
        modifiers,
        name,
        base,
        members: Items::new(members),
    })?;
    Ok(())
}

// The words of a class: this one, or none.
fn class_words(alloc: Global, word: Option<ModifierWord>) -> Result<Items<Modifier>, Memory>
    ensures { IfOk result (λ all. all ≡ option_map_or (λ w. sys.words (w ∷ [])) word []) }
{
    match word {
        Some(word) => words(alloc, word),
        None => Ok(Items::new(Vec::new(alloc))),
    }
}

// The property of every component, what a root call runs, and the callbacks.
fn component_members(alloc: Global) -> Result<Vec<Member>, Memory>
    ensures { IfOk result (λ v. v.items ≡ sys.component_members) }
{
    let mut all = Vec::new(alloc);
    push_meta(alloc, &mut all)?;
    push_method(
        alloc,
        &mut all,
        ModifierWord::Virtual,
        b"execute",
        Vec::new(alloc),
    )?;
    push_method(
        alloc,
        &mut all,
        ModifierWord::Virtual,
        b"start",
        Vec::new(alloc),
    )?;
    push_method(
        alloc,
        &mut all,
        ModifierWord::Virtual,
        b"stop",
        Vec::new(alloc),
    )?;
    let params = slot_params(alloc)?;
    push_method(alloc, &mut all, ModifierWord::Virtual, b"changed", params)?;
    Ok(all)
}

// The action that saves the application.
fn app_members(alloc: Global) -> Result<Vec<Member>, Memory>
    ensures { IfOk result (λ v. v.items ≡ sys.empty_method ModifierWord.Action (codes "save") [] ∷ []) }
{
    let mut all = Vec::new(alloc);
    push_method(
        alloc,
        &mut all,
        ModifierWord::Action,
        b"save",
        Vec::new(alloc),
    )?;
    Ok(all)
}

// `@config property int meta`
fn push_meta(alloc: Global, all: &mut Vec<Member>) -> Result<(), Memory>
    ensures { IfOk result (λ _. all.new.items ≡ all.old.items ++ sys.meta ∷ []) }
{
    let facets = config(alloc)?;
    let modifiers = words(alloc, ModifierWord::Property)?;
    let name = named(alloc, b"meta")?;
    all.push(Member {
        at: 0,
        facets: Items::new(facets),
        modifiers,
        kind: of_base(Base::Primitive(Prim::Int)),
        name,
        form: MemberForm::Field(None),
    })?;
    Ok(())
}

// `@config`
fn config(alloc: Global) -> Result<Vec<Facet>, Memory>
    ensures { IfOk result (λ v. v.items ≡ sys.meta.facets) }
{
    let name = named(alloc, b"config")?;
    let mut all = Vec::new(alloc);
    all.push(Facet {
        at: 0,
        name,
        value: None,
    })?;
    Ok(all)
}

// `virtual void NAME(..) {}`, and the like, behind the others.
fn push_method(
    alloc: Global,
    all: &mut Vec<Member>,
    word: ModifierWord,
    name: &[u8],
    params: Vec<Param>,
) -> Result<(), Memory>
    ensures { IfOk result (λ _. all.new.items ≡ all.old.items ++ sys.empty_method word name.now params.items ∷ []) }
{
    let modifiers = words(alloc, word)?;
    let name = named(alloc, name)?;
    all.push(Member {
        at: 0,
        facets: Items::new(Vec::new(alloc)),
        modifiers,
        kind: of_base(Base::Void),
        name,
        form: MemberForm::Method(Items::new(params), Some(Items::new(Vec::new(alloc)))),
    })?;
    Ok(())
}

// `int slot`
fn slot_params(alloc: Global) -> Result<Vec<Param>, Memory>
    ensures { IfOk result (λ v. v.items ≡ sys.slot_param ∷ []) }
{
    let name = named(alloc, b"slot")?;
    let mut all = Vec::new(alloc);
    all.push(Param {
        at: 0,
        kind: of_base(Base::Primitive(Prim::Int)),
        name,
    })?;
    Ok(all)
}

fn base_named(alloc: Global, name: &[u8]) -> Result<Option<TypeName>, Memory>
    ensures { IfOk result (λ t. t ≡ Some (record { at = 0; kit = None; id = sys.named name.now })) }
{
    let id = named(alloc, name)?;
    Ok(Some(TypeName {
        at: 0,
        kit: None,
        id,
    }))
}

fn named(alloc: Global, name: &[u8]) -> Result<Ident, Memory>
    ensures { IfOk result (λ id. id ≡ sys.named name.now) }
{
    let bytes = Vec::from_slice(alloc, name)?;
    Ok(Ident {
        at: 0,
        bytes: Items::new(bytes),
    })
}

fn words(alloc: Global, word: ModifierWord) -> Result<Items<Modifier>, Memory>
    ensures { IfOk result (λ all. all ≡ sys.words (word ∷ [])) }
{
    let mut all = Vec::new(alloc);
    all.push(Modifier { at: 0, word })?;
    Ok(Items::new(all))
}

fn of_base(base: Base) -> TypeRef
    ensures { result ≡ sys.of_base base }
{
    TypeRef {
        at: 0,
        base,
        size: None,
    }
}
