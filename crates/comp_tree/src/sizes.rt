//! How many bytes of data components have.
ghost use Rattle.std.specs.Prelude.{◌≡◌, nat_eq, nat_lt, map as map_list};
ghost use Rattle.std.specs.List.{IsDistinct};
ghost use Rattle.comp_tree.specs.Application.{data_size_of};
ghost use Rattle.comp_tree.specs.Loads.{loaded};

use crate::loaded::Loaded;
use sed_engine::Engine;
use sed_typed::TypeNo;

/// How many bytes of data a component of a class has: 0 where there is no such class.
pub fn data_size<E: Engine>(engine: &E, kind: TypeNo) -> usize
    ensures { result ≡ (E.meaning engine.now).data_size kind.0 }
{
    match engine.schema().class(kind) {
        Some(class) => class.size as usize,
        None => 0,
    }
}

/// Whether the data of the components of entries passes the engine's limit.
pub fn passes_limit<E: Engine>(engine: &E, entries: &[Loaded]) -> bool
    requires { IsDistinct nat_eq (map_list (λ (l : Loaded). l.id.0) entries.now) }
    ensures { result ≡ nat_lt (E.limit engine.now)
        (data_size_of (E.meaning engine.now) (loaded (E.meaning engine.now) entries.now)) }
{
    let mut left = engine.data_limit();
    for entry in entries {
        let size = data_size(engine, entry.kind);
        if size > left {
            return true;
        }
        left -= size;
    }
    false
}
