//! Laws of the tables of virtual methods, for provers.
ghost use Rattle.std.specs.Prelude.{◌≡◌, ℕ, false, All, IsSomeAnd, IsTrue, List, Some, is_some, map, slice_get};
ghost use Rattle.std.specs.Option.{option_map_or};
ghost use Rattle.sed_typed.specs.Classes.{base_of, find, method_name, nearest};
ghost use Rattle.sed_typed.specs.SysTypes.{component_type};
ghost use Rattle.sed_typed.specs.Typed.{Typed};
ghost use Rattle.sed_typed.specs.TypedSchema.{is_below, is_below_sys};
ghost use Rattle.sed_typed.specs.Virtual.{virtual_names};
ghost use Rattle.sed_typed.specs.declared.program.Program.{Program as AnyProgram};
ghost use Rattle.sed_layout.specs.MethodTables.{HasSystemMethods, KeepsPlaces, MayStand, place_of, table_of};

/// A table leaves no virtual method of its class out: at each place stands the nearest method of the name there, which
/// has this name.
pub fn tables_have_each_virtual_method()
    ensures nearest { (program : AnyProgram) → Typed program → (class : ℕ)
        → map Some (table_of program class) ≡ map (find program class) (virtual_names program class) }
    ensures names { (program : AnyProgram) → Typed program → (class : ℕ)
        → map (method_name program) (table_of program class) ≡ virtual_names program class }
{}

/// The place of a name in the table of a class holds the nearest method of that name at or above the class.
pub fn places_hold_the_nearest_method()
    ensures { (program : AnyProgram) → Typed program → (class place : ℕ) (name : List ℕ)
        → place_of program class name ≡ Some place
        → IsSomeAnd (slice_get (table_of program class) place) (λ number. find program class name ≡ Some number) }
{}

/// Each method in the table of a class is virtual, so it has a receiver, and is declared by the class or one above it.
pub fn tables_hold_virtual_methods()
    ensures { (program : AnyProgram) → Typed program → (class : ℕ)
        → All (λ number. IsSomeAnd (slice_get program.methods number) (MayStand program class))
        (table_of program class) }
{}

/// A name has a place in the table of a class exactly where the nearest method of that name is virtual.
pub fn virtual_methods_have_places()
    ensures { (program : AnyProgram) → Typed program → (class : ℕ) (name : List ℕ)
        → is_some (place_of program class name)
        ≡ option_map_or (λ m. m.is_virtual) (nearest program class name) false }
{}

/// The table of a class begins with the names of that of its base and of each class above, so an override stands at the
/// place of what it overrides, and what a class begins stands behind.
pub fn names_keep_their_places()
    ensures base { (program : AnyProgram) → Typed program → (class base : ℕ)
        → base_of program.schema.classes class ≡ Some base → KeepsPlaces program base class }
    ensures above { (program : AnyProgram) → Typed program → (above class : ℕ)
        → IsTrue (is_below program.schema.classes above class) → KeepsPlaces program above class }
{}

/// Of `Component` and each class below it, `execute`, `start`, `stop` and `changed` have the places 0 to 3.
pub fn system_methods_have_the_first_places()
    ensures { (program : AnyProgram) → Typed program → (class : ℕ)
        → IsTrue (is_below_sys program.schema.classes component_type class) → HasSystemMethods program class }
{}
