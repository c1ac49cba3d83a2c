//! Objects that come and go.
ghost use Rattle.std.specs.Prelude.{◌≡◌, ◌↔◌, ◌<◌, ◌+◌, None, IfOk, IsSome, IsTrue, OnErr};
ghost use Rattle.std.specs.FinMap as finite;
ghost use Rattle.sed_engine.specs.Code.{data_of, is_creatable, new_object};
ghost use Rattle.scode_code.specs.Faults.{IsVerified};
ghost use Rattle.scode_code.specs.Image.{meaning_of};
ghost use Rattle.scode_engine.specs.Loaded.{IsLoaded, live_of, statics_of};

use scode_image::Image;
use scode_mem::Pool;
use scode_sound::verified_images_are_whole;
use scode_state::blocks_fit_on;
use sed_engine::{AddRefusal, Place, what_is_kept_fits};
use sed_typed::TypeNo;
use sed_value::Memory;
use std::alloc::Global;

/// The pool of a verified image without objects, and with the statics as they begin. Its objects may have so many bytes
/// together. No other call on it takes memory.
pub fn new_objects(alloc: Global, image: &Image, limit: u32) -> Result<Pool, Memory>
    requires { IsVerified image.now }
    ensures loaded { IfOk result (IsLoaded image.now) }
    ensures empty { IfOk result (λ pool. live_of image.now pool ≡ finite.empty) }
    ensures statics { IfOk result (λ pool. statics_of image.now pool ≡ (meaning_of image.now).initial_statics) }
    ensures limit { IfOk result (λ pool. pool.limit ≡ limit) }
{
    blocks_fit_on();
    verified_images_are_whole();
    Pool::new(alloc, image, limit)
}

/// Makes an object of a class of which components are made, at a place that was not live. `DataFull` comes exactly
/// where the data sizes of the live objects and the new one pass the limit, and changes nothing. No memory is wanted.
pub fn add_object(image: &Image, pool: &mut Pool, t: TypeNo) -> Result<Place, AddRefusal>
    requires loaded { IsLoaded image.now pool.old }
    requires creatable { IsTrue (is_creatable (meaning_of image.now) t.0) }
    requires few { finite.len (live_of image.now pool.old) < 4096 }
    ensures loaded { IsLoaded image.now pool.new }
    ensures fresh { IfOk result (λ p. finite.get (live_of image.now pool.old) p.0 ≡ None) }
    ensures added { IfOk result (λ p. live_of image.now pool.new
        ≡ finite.insert (live_of image.now pool.old) p.0 (new_object (meaning_of image.now) t.0)) }
    ensures refused { OnErr result (live_of image.now pool.new ≡ live_of image.now pool.old) }
    ensures full { (result ≡ Err AddRefusal.DataFull) ↔ (pool.old.limit
        < data_of (meaning_of image.now) (live_of image.now pool.old) + (meaning_of image.now).data_size t.0) }
    ensures memory { result ≡ Err AddRefusal.Memory → ⊥ }
    ensures statics { statics_of image.now pool.new ≡ statics_of image.now pool.old }
    ensures limit { pool.new.limit ≡ pool.old.limit }
{
    blocks_fit_on();
    verified_images_are_whole();
    what_is_kept_fits();
    pool.add(t)
}

/// Ends an object. The others and the statics stay.
pub fn remove_object(image: &Image, pool: &mut Pool, p: Place)
    requires loaded { IsLoaded image.now pool.old }
    requires live { IsSome (finite.get (live_of image.now pool.old) p.0) }
    ensures loaded { IsLoaded image.now pool.new }
    ensures removed { live_of image.now pool.new ≡ finite.remove (live_of image.now pool.old) p.0 }
    ensures statics { statics_of image.now pool.new ≡ statics_of image.now pool.old }
    ensures limit { pool.new.limit ≡ pool.old.limit }
{
    blocks_fit_on();
    pool.remove(p);
}
