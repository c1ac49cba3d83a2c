//! The numbers of the classes of a kit.
ghost use Rattle.std.specs.Prelude.{◌≡◌, ◌==◌, filter, length};
ghost use Rattle.scode_code.specs.TableRules as rules;
ghost use Rattle.scode_tables.specs.Words as words;

use scode_image::{Image, ImageClass};

/// How many classes a kit has.
pub fn count_in_kit(classes: &[ImageClass], kit: usize) -> usize
    ensures { result ≡ length (words.numbers_among classes.now kit) }
{
    classes
        .iter()
        .filter(|class| usize::from(class.kit) == kit)
        .map(|class| class.number)
        .count()
}

// How many classes of a kit have a number.
fn count_numbered(classes: &[ImageClass], kit: usize, number: usize) -> usize
    ensures { result ≡ length (filter (λ n. n == number) (words.numbers_among classes.now kit)) }
{
    classes
        .iter()
        .filter(|class| usize::from(class.kit) == kit)
        .map(|class| class.number)
        .filter(|n| usize::from(*n) == number)
        .count()
}

fn each_once(classes: &[ImageClass], kit: usize) -> bool
    ensures { result ≡ rules.each_once (words.numbers_among classes.now kit) }
{
    (0..count_in_kit(classes, kit)).all(|number| count_numbered(classes, kit, number) == 1)
}

/// Whether the classes of each kit have the numbers from 0 on, each once.
pub fn types_are_numbered(image: &Image) -> bool
    ensures { result ≡ rules.types_are_numbered image.now }
{
    (0..image.kits.len()).all(|kit| each_once(image.classes.as_slice(), kit))
}
