//! Laws of classes and their virtual methods, for provers.
ghost use Rattle.std.specs.Prelude.{◌≡◌, ◌≤◌, ◌++◌, ◌∷◌, ℕ, false, IsTrue, IsSomeAnd, List, Some, count_by, slice_get};
ghost use Rattle.std.specs.Option.{option_map_or};
ghost use Rattle.std.specs.Str.{bytes_eq};
ghost use Rattle.sed_typed.specs.Classes.{base_of, find, lineage, nearest};
ghost use Rattle.sed_typed.specs.Schemas.{type_at};
ghost use Rattle.sed_typed.specs.SysMembers.{component_names};
ghost use Rattle.sed_typed.specs.SysTypes.{component_type};
ghost use Rattle.sed_typed.specs.Typed.{Typed};
ghost use Rattle.sed_typed.specs.TypedSchema.{Begins, Overrides, is_below, is_below_sys};
ghost use Rattle.sed_typed.specs.Virtual.{AreCounted, has_virtual_name, new_virtual_names, virtual_names};
ghost use Rattle.sed_typed.specs.declared.program.Method.{Method as AnyMethod};
ghost use Rattle.sed_typed.specs.declared.program.Program.{Program as AnyProgram};

/// In a typed program the classes at and above a class are the class itself and then those at and above its base.
pub fn lineages_go_by_bases()
    ensures { (program : AnyProgram) → Typed program → (class base : ℕ)
        → base_of program.schema.classes class ≡ Some base
        → lineage program.schema.classes class ≡ class ∷ lineage program.schema.classes base }
{}

/// A class has as many virtual methods as are begun by itself and the classes above it.
pub fn virtual_names_are_counted()
    ensures { AreCounted }
{}

/// In a typed program the virtual methods of a class are those of its base and then those that it begins.
pub fn virtual_names_go_by_bases()
    ensures { (program : AnyProgram) → Typed program → (class base : ℕ)
        → base_of program.schema.classes class ≡ Some base
        → virtual_names program class ≡ virtual_names program base ++ new_virtual_names program class }
{}

/// In a typed program the virtual methods of `Component` are `execute`, `start`, `stop` and `changed`, in this order,
/// and those of each class below it begin with these.
pub fn components_begin_with_system_methods()
    ensures begins { (program : AnyProgram) → Typed program → (class : ℕ)
        → IsTrue (is_below_sys program.schema.classes component_type class)
        → Begins component_names (virtual_names program class) }
    ensures component { (program : AnyProgram) → Typed program → (class : ℕ)
        → type_at program.schema.classes 0 component_type ≡ Some class
        → virtual_names program class ≡ component_names }
{}

/// In a typed program a name is among those of the virtual methods of a class exactly where the nearest method of this
/// name at or above the class is virtual, and it stands there once.
pub fn virtual_names_are_found()
    ensures found { (program : AnyProgram) → Typed program → (class : ℕ) (name : List ℕ)
        → has_virtual_name program class name ≡ option_map_or (λ m. m.is_virtual) (nearest program class name) false }
    ensures once { (program : AnyProgram) → Typed program → (class : ℕ) (name : List ℕ)
        → count_by (λ n. bytes_eq n name) (virtual_names program class) ≤ 1 }
{}

/// In a typed program the virtual methods of a class stand at the same places among those of each class below it.
pub fn virtual_names_keep_their_places()
    ensures { (program : AnyProgram) → Typed program → (above class : ℕ)
        → IsTrue (is_below program.schema.classes above class)
        → Begins (virtual_names program above) (virtual_names program class) }
{}

/// In a typed program, where a class has a virtual method of a name, each class at or below it has one too, which is
/// virtual and not static and has the same parameters and result: that method, or one that overrides it.
pub fn virtual_methods_are_overridden()
    ensures { (program : AnyProgram) → Typed program → (above class : ℕ) (name : List ℕ)
        → IsTrue (is_below program.schema.classes above class) → IsTrue (has_virtual_name program above name)
        → IsSomeAnd (nearest program above name) (λ x. IsSomeAnd (nearest program class name) (λ m. Overrides m x)) }
{}

/// In a typed program a method that is not virtual, static or not, is the nearest of its name in each class at or below
/// one where it is so.
pub fn plain_methods_are_found_below()
    ensures { (program : AnyProgram) → Typed program → (above class n : ℕ) (name : List ℕ) (m : AnyMethod)
        → IsTrue (is_below program.schema.classes above class) → find program above name ≡ Some n
        → slice_get program.methods n ≡ Some m → m.is_virtual ≡ false
        → find program class name ≡ Some n }
{}
