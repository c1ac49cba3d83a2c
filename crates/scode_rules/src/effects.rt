//! The effect of each instruction.
ghost use Rattle.std.specs.Prelude.{◌≡◌, true};
ghost use Rattle.scode_code.specs.Wants as wants;
ghost use Rattle.scode_rules.specs.Words as words;

use crate::cells::local_at;
use crate::kinds::{BOOL, INT, LONG, NULL, STATICS, STR, object};
use scode_code::{Effect, Need, Puts, Takes};
use scode_image::{Image, ImageKind};
use scode_ops::Op;
use scode_tables::{method_at, table_method};

fn nothing() -> Effect
    ensures { result ≡ wants.nothing }
{
    Effect {
        takes: Takes::Nothing,
        puts: Puts::Nothing,
    }
}

fn constant(kind: ImageKind) -> Effect
    ensures { result ≡ wants.constant kind }
{
    Effect {
        takes: Takes::Nothing,
        puts: Puts::One(kind),
    }
}

fn takes_any() -> Effect
    ensures { result ≡ wants.takes_any }
{
    Effect {
        takes: Takes::One(Need::Anything),
        puts: Puts::Nothing,
    }
}

fn twice() -> Effect
    ensures { result ≡ wants.twice }
{
    Effect {
        takes: Takes::One(Need::Anything),
        puts: Puts::Twice,
    }
}

fn of_two(kind: ImageKind, gives: ImageKind) -> Effect
    ensures { result ≡ wants.of_two kind gives }
{
    Effect {
        takes: Takes::Two(Need::Goes(kind), Need::Goes(kind)),
        puts: Puts::One(gives),
    }
}

fn long_shift() -> Effect
    ensures { result ≡ wants.long_shift }
{
    Effect {
        takes: Takes::Two(Need::Goes(INT), Need::Goes(LONG)),
        puts: Puts::One(LONG),
    }
}

fn of_references() -> Effect
    ensures { result ≡ wants.of_references }
{
    Effect {
        takes: Takes::Two(Need::Reference, Need::Reference),
        puts: Puts::One(BOOL),
    }
}

fn converts(kind: ImageKind, gives: ImageKind) -> Effect
    ensures { result ≡ wants.converts kind gives }
{
    Effect {
        takes: Takes::One(Need::Goes(kind)),
        puts: Puts::One(gives),
    }
}

fn takes_one(kind: ImageKind) -> Effect
    ensures { result ≡ wants.takes_one kind }
{
    Effect {
        takes: Takes::One(Need::Goes(kind)),
        puts: Puts::Nothing,
    }
}

fn gets(kind: ImageKind) -> Effect
    ensures { result ≡ wants.gets kind }
{
    Effect {
        takes: Takes::One(Need::AnyObject),
        puts: Puts::One(kind),
    }
}

fn stores(kind: ImageKind) -> Effect
    ensures { result ≡ wants.stores kind }
{
    Effect {
        takes: Takes::Two(Need::Goes(kind), Need::AnyObject),
        puts: Puts::Nothing,
    }
}

fn gets_at(kind: ImageKind) -> Effect
    ensures { result ≡ wants.gets_at kind }
{
    Effect {
        takes: Takes::Two(Need::Goes(INT), Need::AnyObject),
        puts: Puts::One(kind),
    }
}

fn stores_at(kind: ImageKind) -> Effect
    ensures { result ≡ wants.stores_at kind }
{
    Effect {
        takes: Takes::Three(Need::Goes(kind), Need::Goes(INT), Need::AnyObject),
        puts: Puts::Nothing,
    }
}

fn str_get() -> Effect
    ensures { result ≡ wants.str_get }
{
    Effect {
        takes: Takes::Two(Need::Goes(INT), Need::Goes(STR)),
        puts: Puts::One(INT),
    }
}

fn str_set() -> Effect
    ensures { result ≡ wants.str_set }
{
    Effect {
        takes: Takes::Three(Need::Goes(INT), Need::Goes(INT), Need::Goes(STR)),
        puts: Puts::Nothing,
    }
}

fn str_copy() -> Effect
    ensures { result ≡ wants.str_copy }
{
    Effect {
        takes: Takes::Two(Need::Goes(STR), Need::Goes(STR)),
        puts: Puts::Nothing,
    }
}

fn load(locals: &[ImageKind], number: u8) -> Effect
    ensures { result ≡ wants.loads locals.now number }
{
    match local_at(locals, number) {
        Some(kind) => constant(kind),
        None => nothing(),
    }
}

// The arguments of a method, above a receiver of a class, if it has one.
fn arguments(method: u16, class: u16) -> Effect
    ensures { result ≡ wants.arguments method class }
{
    Effect {
        takes: Takes::Arguments { method, class },
        puts: Puts::Answer { method },
    }
}

fn call(image: &Image, method: u16) -> Effect
    ensures { result ≡ wants.calls image.now method }
{
    match method_at(image, method) {
        Some(found) => arguments(method, found.class),
        None => nothing(),
    }
}

fn virtual_call(image: &Image, class: u16, place: u8) -> Effect
    ensures { result ≡ wants.virtual_calls image.now class place }
{
    match table_method(image, class, place) {
        Some(method) => arguments(method, class),
        None => nothing(),
    }
}

fn table_effect(image: &Image, locals: &[ImageKind], op: Op) -> Effect
    ensures { result ≡ wants.wants_of image.now locals.now op }
{
    match op {
        Op::Int(_) => constant(INT),
        Op::Long(_) => constant(LONG),
        Op::Bool(_) => constant(BOOL),
        Op::Null => constant(NULL),
        Op::Text(_) => constant(STR),
        Op::Statics => constant(STATICS),
        Op::Load(number) => load(locals, number),
        Op::Store(_) | Op::Pop | Op::ReturnValue => takes_any(),
        Op::Dup => twice(),
        Op::IntAdd
        | Op::IntSub
        | Op::IntMul
        | Op::IntDiv
        | Op::IntRem
        | Op::IntAnd
        | Op::IntOr
        | Op::IntXor
        | Op::IntShl
        | Op::IntShr => of_two(INT, INT),
        Op::IntNeg | Op::IntNot | Op::IntToByte | Op::IntToShort => converts(INT, INT),
        Op::LongAdd
        | Op::LongSub
        | Op::LongMul
        | Op::LongDiv
        | Op::LongRem
        | Op::LongAnd
        | Op::LongOr
        | Op::LongXor => of_two(LONG, LONG),
        Op::LongShl | Op::LongShr => long_shift(),
        Op::LongNeg | Op::LongNot => converts(LONG, LONG),
        Op::IntEq | Op::IntNe | Op::IntLt | Op::IntLe | Op::IntGt | Op::IntGe => of_two(INT, BOOL),
        Op::LongEq | Op::LongNe | Op::LongLt | Op::LongLe | Op::LongGt | Op::LongGe => of_two(
            LONG, BOOL,
        ),
        Op::BoolEq | Op::BoolNe => of_two(BOOL, BOOL),
        Op::RefEq | Op::RefNe => of_references(),
        Op::IntToLong => converts(INT, LONG),
        Op::LongToInt => converts(LONG, INT),
        Op::Not => converts(BOOL, BOOL),
        Op::Jump(_) | Op::Turn | Op::Return => nothing(),
        Op::JumpFalse(_) | Op::JumpTrue(_) => takes_one(BOOL),
        Op::GetBool(_) => gets(BOOL),
        Op::GetByte(_) | Op::GetShort(_) | Op::GetInt(_) | Op::BufSize(_) => gets(INT),
        Op::GetLong(_) => gets(LONG),
        Op::PutBool(_) => stores(BOOL),
        Op::PutByte(_) | Op::PutShort(_) | Op::PutInt(_) => stores(INT),
        Op::PutLong(_) => stores(LONG),
        Op::Inner { class, .. } => gets(object(class)),
        Op::Str { .. } => gets(STR),
        Op::BufGet { .. } => gets_at(INT),
        Op::ArrayGetBool { .. } => gets_at(BOOL),
        Op::ArrayGetByte { .. } | Op::ArrayGetShort { .. } | Op::ArrayGetInt { .. } => gets_at(INT),
        Op::ArrayGetLong { .. } => gets_at(LONG),
        Op::ArrayPutBool { .. } => stores_at(BOOL),
        Op::ArrayPutByte { .. } | Op::ArrayPutShort { .. } | Op::ArrayPutInt { .. } => stores_at(
            INT,
        ),
        Op::ArrayPutLong { .. } => stores_at(LONG),
        Op::Call(method) => call(image, method),
        Op::VirtualCall { class, place } => virtual_call(image, class, place),
        Op::Ticks => constant(LONG),
        Op::StrLen => converts(STR, INT),
        Op::StrGet => str_get(),
        Op::StrSet => str_set(),
        Op::StrEq => of_two(STR, BOOL),
        Op::StrCopy => str_copy(),
    }
}

/// What an instruction takes off the stack and puts on it, where these are the locals.
pub(crate) fn effect_of(image: &Image, locals: &[ImageKind], op: Op) -> Effect
    ensures wants { result ≡ wants.wants_of image.now locals.now op }
    ensures ordinary { words.is_ordinary result ≡ true }
{
    table_effect(image, locals, op)
}
