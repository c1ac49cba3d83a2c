//! The tables of rows themselves, and of values.
use rows::{Case, CaseFault, Row, Written};
use sed_lexer::TokenKind;
use sed_units::OfToken;
use sed_value::{
    Bytes, KitName, LONGEST_BUFFER, Name, Prim, Refusal, SlotBuf, SlotType, Value, Word, add_int,
    add_long, div_int, div_long, int_to_byte, int_to_long, int_to_short, long_to_int, mul_int,
    mul_long, read_decimal, rem_int, rem_long, shl_int, shl_long, shr_int, shr_long, sub_int,
    sub_long,
};

/// A line, and the fields of the row that it is.
pub fn fields(case: &mut Case) {
    let line = case.input();
    match Row::read(case.alloc(), &line) {
        Ok(row) => {
            for input in &row.inputs {
                put_field(case, input, b"> ");
            }
            put_field(case, &row.wanted, b">");
        }
        Err(fault) => case.say(&fault),
    }
}

/// Puts the bytes of a field between `<` and an end.
pub fn put_field(case: &mut Case, field: &[u8], end: &[u8]) {
    case.put(b"<");
    case.put(field);
    case.put(end);
}

/// Bytes, and how a field writes them.
pub fn printed(case: &mut Case) {
    let bytes = case.input();
    case.say(&Written(&bytes));
}

/// An operation and two numbers, and its result.
pub fn arithmetic(case: &mut Case) {
    let operation = case.text();
    let a = case.number();
    let b = case.number();
    match operation.as_str() {
        "long +" => case.say(&add_long(a, b)),
        "long -" => case.say(&sub_long(a, b)),
        "long *" => case.say(&mul_long(a, b)),
        "long /" => case.show(&div_long(a, b)),
        "long %" => case.show(&rem_long(a, b)),
        "long <<" => case.say(&shl_long(a, long_to_int(b))),
        "long >>" => case.say(&shr_long(a, long_to_int(b))),
        operation => say_ints(case, operation, long_to_int(a), long_to_int(b)),
    }
}

fn say_ints(case: &mut Case, operation: &str, a: i32, b: i32) {
    match operation {
        "int +" => case.say(&add_int(a, b)),
        "int -" => case.say(&sub_int(a, b)),
        "int *" => case.say(&mul_int(a, b)),
        "int /" => case.show(&div_int(a, b)),
        "int %" => case.show(&rem_int(a, b)),
        "int <<" => case.say(&shl_int(a, b)),
        "int >>" => case.say(&shr_int(a, b)),
        _ => case.fail(CaseFault::BadInput),
    }
}

/// A type and a number, and what the number comes to in that type: an int from a long, any other from an int.
pub fn conversions(case: &mut Case) {
    let kind = case.text();
    let number = case.number();
    match kind.as_str() {
        "int" => case.say(&long_to_int(number)),
        "byte" => case.say(&int_to_byte(long_to_int(number))),
        "short" => case.say(&int_to_short(long_to_int(number))),
        "long" => case.say(&int_to_long(long_to_int(number))),
        _ => case.fail(CaseFault::BadInput),
    }
}

/// A text, as a word, as a component's name and as a kit's name.
pub fn names(case: &mut Case) {
    let text = case.input();
    case.show(&Word::read(&text));
    case.put(b" ");
    case.show(&Name::read(&text));
    case.put(b" ");
    case.show(&KitName::read(&text));
}

/// A text and the most that it may denote, and the number that it denotes in decimal.
pub fn decimals(case: &mut Case) {
    let text = case.input();
    let most = case.number();
    case.show(&read_decimal(&text, most));
}

// The value that the next two inputs write: its kind, and its number or its bytes.
fn value(case: &mut Case) -> Value {
    let kind = case.text();
    let text = case.text();
    match kind.as_str() {
        "bool" => Value::Bool(case.parsed(&text)),
        "byte" => Value::Byte(case.parsed(&text)),
        "short" => Value::Short(case.parsed(&text)),
        "int" => Value::Int(case.parsed(&text)),
        "long" => Value::Long(case.parsed(&text)),
        "buf" if text.len() <= LONGEST_BUFFER => Value::Buf(Bytes::new(text.as_bytes())),
        _ => Value::Nothing,
    }
}

fn prim(case: &mut Case, text: &str) -> Prim {
    match Prim::of(TokenKind::Key, text.as_bytes()) {
        Some(prim) => prim,
        None => {
            case.fail(CaseFault::BadInput);
            Prim::Bool
        }
    }
}

// The type of a slot that the next input writes: `int`, or `buf 3`.
fn slot_type(case: &mut Case) -> SlotType {
    let text = case.text();
    match text.split_once(" ") {
        Some((_, most)) => SlotType::Buf(case.parsed(most)),
        None => SlotType::Prim(prim(case, &text)),
    }
}

/// A value and a type, and what a slot of the type keeps of the value.
pub fn stored(case: &mut Case) {
    let value = value(case);
    let slot = slot_type(case);
    case.show(&value.stored(slot));
}

/// A value and a type, and whether it is of the type.
pub fn types(case: &mut Case) {
    let value = value(case);
    let slot = slot_type(case);
    case.say(&value.is_of_type(slot));
}

/// A primitive type, and how many bytes it takes.
pub fn widths(case: &mut Case) {
    let text = case.text();
    let prim = prim(case, &text);
    case.say(&prim.width());
}

/// A value, and what a holder holds before and after the value is put there.
pub fn held(case: &mut Case) {
    let value = value(case);
    let mut holder = SlotBuf::new();
    case.show(holder.value());
    case.put(b" ");
    holder.put(value);
    case.show(holder.value());
}

macro_rules! refusal_of {
    ($name:expr, $($refusal:ident)*) => {
        match $name {
            $(stringify!($refusal) => Some(Refusal::$refusal),)*
            _ => None,
        }
    };
}

fn refusal_named(name: &str) -> Option<Refusal> {
    refusal_of!(
        name, Malformed UnknownCommand NoComponent NoType AbstractType BadName NameTaken TooManyChildren TooDeep
        ComponentLimit DataFull NoSlot WrongKindOfSlot BadValue BufferTooLong LinkTypesDiffer TargetLinked
        LinksAtComponent LinkLimit NoLink NotTheChildren AppItself Faulted SaveDevice StoreFull OutOfMemory
    )
}

/// A refusal by its name in the code, and its number and text.
pub fn refusals(case: &mut Case) {
    let name = case.text();
    match refusal_named(&name) {
        Some(refusal) => {
            case.say(&refusal.number());
            case.put(b" ");
            case.say(&refusal.text());
        }
        None => case.fail(CaseFault::BadInput),
    }
}
