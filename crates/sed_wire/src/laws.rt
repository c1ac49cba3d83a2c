//! Laws of spellings and of writing.
ghost use Rattle.std.specs.Prelude.{◌<◌, ◌^◌, ℕ, ℤ, IsTrue, List, [], ◌++◌, FitsSigned};
ghost use Rattle.std.specs.Int.{Width};
ghost use Rattle.sed_value.specs.declared.slot_type.SlotType.{SlotType};
ghost use Rattle.sed_value.specs.declared.value.Value.{Value};
ghost use Rattle.sed_value.specs.Value.{is_of_type};
ghost use Rattle.sed_wire.specs.Number.{SpellsNumber, SpellsSigned};
ghost use Rattle.sed_wire.specs.Reading.{HasOneSpelling, IsReadOneWay};
ghost use Rattle.sed_wire.specs.Spelling.{Spells, SpellsValue, can_be_held, has_spelling};
ghost use Rattle.sed_wire.specs.Text.{SpellsText, is_text};
ghost use Rattle.sed_wire.specs.Writing.{Appends};
ghost use Rattle.sed_wire.specs.declared.writer.Writer.{Writer};

/// At each width a number has at most one spelling, each number below 256 to the width has one, and bytes begin with
/// the spelling of at most one number.
pub fn numbers_are_read_one_way()
    ensures one { (width : ℕ) → HasOneSpelling (SpellsNumber width) }
    ensures some { (width number : ℕ) → number < 256 ^ width → (bytes : List ℕ) × SpellsNumber width number bytes }
    ensures read { (width : ℕ) → IsReadOneWay (SpellsNumber width) }
{}

/// The same of signed numbers, for each that fits its width.
pub fn signed_numbers_are_read_one_way()
    ensures one { (width : Width) → HasOneSpelling (SpellsSigned width) }
    ensures some { (width : Width) (number : ℤ) → FitsSigned width number
        → (bytes : List ℕ) × SpellsSigned width number bytes }
    ensures read { (width : Width) → IsReadOneWay (SpellsSigned width) }
{}

/// A text has one spelling, and bytes begin with the spelling of at most one text.
pub fn texts_are_read_one_way()
    ensures one { HasOneSpelling SpellsText }
    ensures some { (text : List ℕ) → IsTrue (is_text text) → (bytes : List ℕ) × SpellsText text bytes }
    ensures read { IsReadOneWay SpellsText }
{}

/// A value has at most one spelling, whatever the type. Each value of a type has one, and bytes begin with the spelling
/// of at most one value of the type: no spelling is a proper front of another, so what was written is read again,
/// whatever follows. Each value of a type can be written.
pub fn values_are_read_one_way()
    ensures one { HasOneSpelling SpellsValue }
    ensures some { (slot : SlotType) (value : Value) → IsTrue (can_be_held slot) → IsTrue (is_of_type slot value)
        → (bytes : List ℕ) × Spells slot value bytes }
    ensures read { (slot : SlotType) → IsReadOneWay (Spells slot) }
    ensures written { (slot : SlotType) (value : Value) → IsTrue (is_of_type slot value) → IsTrue (has_spelling value) }
{}

/// What two calls append stands one behind the other, and what appends no byte leaves the writer as it was.
pub fn appends_add_up()
    ensures two { (a b c : Writer) (first second : List ℕ) → Appends a b first → Appends b c second
        → Appends a c (first ++ second) }
    ensures none { (writer : Writer) → Appends writer writer [] }
{}
