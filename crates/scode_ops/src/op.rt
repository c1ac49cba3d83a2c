//! Instructions.

/// An instruction, with its operands as fields. Beside each stand its number, its name in the table of instructions,
/// and what it is about.
#[derive(Clone, Copy, Debug, PartialEq, Eq)]
pub enum Op {
    // Constants, locals and the stack.
    /// `01` int: an int
    Int(i32),
    /// `02` long: a long
    Long(i64),
    /// `03` bool: a bool, at most 2
    Bool(u8),
    /// `04` null: null
    Null,
    /// `05` text: the Str of the text of this number
    Text(u16),
    /// `06` statics: a reference to the static block
    Statics,
    /// `07` load: the local of this number
    Load(u8),
    /// `08` store: puts the top into the local of this number
    Store(u8),
    /// `09` dup: the top twice
    Dup,
    /// `0a` pop: takes the top off
    Pop,

    // Ints.
    /// `10` iadd
    IntAdd,
    /// `11` isub
    IntSub,
    /// `12` imul
    IntMul,
    /// `13` idiv
    IntDiv,
    /// `14` irem
    IntRem,
    /// `15` iand
    IntAnd,
    /// `16` ior
    IntOr,
    /// `17` ixor
    IntXor,
    /// `18` ishl
    IntShl,
    /// `19` ishr
    IntShr,
    /// `1a` ineg
    IntNeg,
    /// `1b` inot
    IntNot,

    // Longs.
    /// `20` ladd
    LongAdd,
    /// `21` lsub
    LongSub,
    /// `22` lmul
    LongMul,
    /// `23` ldiv
    LongDiv,
    /// `24` lrem
    LongRem,
    /// `25` land
    LongAnd,
    /// `26` lor
    LongOr,
    /// `27` lxor
    LongXor,
    /// `28` lshl
    LongShl,
    /// `29` lshr
    LongShr,
    /// `2a` lneg
    LongNeg,
    /// `2b` lnot
    LongNot,

    // Comparisons.
    /// `30` ieq
    IntEq,
    /// `31` ine
    IntNe,
    /// `32` ilt
    IntLt,
    /// `33` ile
    IntLe,
    /// `34` igt
    IntGt,
    /// `35` ige
    IntGe,
    /// `36` leq
    LongEq,
    /// `37` lne
    LongNe,
    /// `38` llt
    LongLt,
    /// `39` lle
    LongLe,
    /// `3a` lgt
    LongGt,
    /// `3b` lge
    LongGe,
    /// `3c` beq
    BoolEq,
    /// `3d` bne
    BoolNe,
    /// `3e` req
    RefEq,
    /// `3f` rne
    RefNe,

    // Conversions.
    /// `40` i2l
    IntToLong,
    /// `41` l2i
    LongToInt,
    /// `42` not
    Not,
    /// `43` i2b
    IntToByte,
    /// `44` i2s
    IntToShort,

    // Jumps, to places of the method.
    /// `48` jump: to this place of the method
    Jump(u16),
    /// `49` jfalse: to this place where the top is 0
    JumpFalse(u16),
    /// `4a` jtrue: to this place where the top is not 0
    JumpTrue(u16),
    /// `4b` turn: takes a turn
    Turn,

    // Fields, at offsets in an object.
    /// `50` getbool: the field at this offset
    GetBool(u16),
    /// `51` get1: the field at this offset
    GetByte(u16),
    /// `52` get2: the field at this offset
    GetShort(u16),
    /// `53` get4: the field at this offset
    GetInt(u16),
    /// `54` get8: the field at this offset
    GetLong(u16),
    /// `55` putbool: into the field at this offset
    PutBool(u16),
    /// `56` put1: into the field at this offset
    PutByte(u16),
    /// `57` put2: into the field at this offset
    PutShort(u16),
    /// `58` put4: into the field at this offset
    PutInt(u16),
    /// `59` put8: into the field at this offset
    PutLong(u16),
    /// `5a` inner: the object of this class at this offset
    Inner { offset: u16, class: u16 },
    /// `5b` str: the Str of this size at this offset
    Str { offset: u16, size: u16 },
    /// `5c` bufsize: the length of the Buf at this offset
    BufSize(u16),
    /// `5d` bufget: a byte of the Buf of this capacity at this offset
    BufGet { offset: u16, capacity: u16 },

    // Arrays, at offsets.
    /// `60` agetbool: an element of the array of this count at this offset
    ArrayGetBool { offset: u16, count: u16 },
    /// `61` aget1: an element of the array of this count at this offset
    ArrayGetByte { offset: u16, count: u16 },
    /// `62` aget2: an element of the array of this count at this offset
    ArrayGetShort { offset: u16, count: u16 },
    /// `63` aget4: an element of the array of this count at this offset
    ArrayGetInt { offset: u16, count: u16 },
    /// `64` aget8: an element of the array of this count at this offset
    ArrayGetLong { offset: u16, count: u16 },
    /// `65` aputbool: into an element of the array of this count at this offset
    ArrayPutBool { offset: u16, count: u16 },
    /// `66` aput1: into an element of the array of this count at this offset
    ArrayPutByte { offset: u16, count: u16 },
    /// `67` aput2: into an element of the array of this count at this offset
    ArrayPutShort { offset: u16, count: u16 },
    /// `68` aput4: into an element of the array of this count at this offset
    ArrayPutInt { offset: u16, count: u16 },
    /// `69` aput8: into an element of the array of this count at this offset
    ArrayPutLong { offset: u16, count: u16 },

    // Calls and Strs.
    /// `70` call: the method of this number
    Call(u16),
    /// `71` vcall: the method at this place of the table of the object's class, which is this one or below it
    VirtualCall { class: u16, place: u8 },
    /// `72` ret: ends the frame
    Return,
    /// `73` retv: ends the frame with the top as result
    ReturnValue,
    /// `74` ticks: the moment
    Ticks,
    /// `75` strlen
    StrLen,
    /// `76` strget
    StrGet,
    /// `77` strset
    StrSet,
    /// `78` streq
    StrEq,
    /// `79` strcopy
    StrCopy,
}
