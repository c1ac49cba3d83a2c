//! How bytes and names are shown by `{:?}`.
ghost use Rattle.std.specs.Prelude.{◌≡◌, IsTrue};
ghost use Rattle.std.specs.List.{list_all};
ghost use Rattle.std.specs.Fmt.{WritesOnOk};
ghost use Rattle.sed_value.specs.Characters.{is_word_byte};
ghost use Rattle.sed_value.specs.Shown.{shown_byte, shown, quoted};

use std::fmt;

// Shows the bytes in double quotes, with an escape for each that doesn't print.
pub(crate) fn show<W: fmt::Write>(bytes: &[u8], f: &mut fmt::Formatter<W>) -> fmt::Result
    ensures { WritesOnOk W.write_str_gives f.old result (quoted (shown bytes.now)) f.new }
{
    f.write_char('"')?;
    show_bytes(bytes, f)?;
    f.write_char('"')
}

// Shows letters, digits and `_` in double quotes, as they stand.
pub(crate) fn show_name<W: fmt::Write>(name: &[u8], f: &mut fmt::Formatter<W>) -> fmt::Result
    requires { IsTrue (list_all is_word_byte name.now) }
    ensures { WritesOnOk W.write_str_gives f.old result (quoted name.now) f.new }
{
    show(name, f)
}

fn show_bytes<W: fmt::Write>(bytes: &[u8], f: &mut fmt::Formatter<W>) -> fmt::Result
    ensures { WritesOnOk W.write_str_gives f.old result (shown bytes.now) f.new }
{
    for byte in bytes {
        show_byte(*byte, f)?;
    }
    Ok(())
}

fn show_byte<W: fmt::Write>(byte: u8, f: &mut fmt::Formatter<W>) -> fmt::Result
    ensures { WritesOnOk W.write_str_gives f.old result (shown_byte byte) f.new }
{
    let mut escape = byte.escape_ascii();
    'escape: while let Some(character) = escape.next() {
        f.write_char(char::from(character))?;
    }
    Ok(())
}
