//! Laws of blocks. Each is the contract of a function that does nothing.
ghost use Rattle.std.specs.Prelude.{◌≡◌, ◌≢◌, ◌⊎◌, ◌+◌, ◌<◌, ◌≤◌, ◌^◌, ℕ, None, Some, IsSomeAnd, IfSome};
ghost use Rattle.std.specs.FinMap as finite;
ghost use Rattle.std.specs.Option.{option_map};
ghost use Rattle.sed_engine.specs.declared.call.Place.{Place};
ghost use Rattle.sed_wire.specs.Number.{number_of};
ghost use Rattle.scode_mem.specs.declared.block.Block.{Block as AnyBlock};
ghost use Rattle.scode_mem.specs.declared.block.Block.TheVariants.{Live};
ghost use Rattle.scode_mem.specs.Blocks.{HasBytes, Held, bytes_at, bytes_of, first_bytes, live_bytes};
ghost use Rattle.scode_mem.specs.Blocks.{with_new, with_number, without};

/// What is written is read.
pub fn what_is_written_is_read()
    ensures { (h : Held) (b : AnyBlock) (at width number : ℕ) → HasBytes h b at width → number < 256 ^ width →
        IsSomeAnd (bytes_of (with_number h b at width number) b)
        (λ bytes. number_of (bytes_at bytes at width) ≡ number) }
{}

/// What is written at one place is read at no other: neither in another block, nor in another range of bytes. Each
/// block has the bytes that it had to read, and its class, and the live blocks have as many bytes together.
pub fn all_else_stays()
    ensures ranges { (h : Held) (b : AnyBlock) (at width number from size : ℕ) →
        HasBytes h b at width → HasBytes h b from size → (from + size ≤ at) ⊎ (at + width ≤ from) →
        IfSome (bytes_of h b) (λ old. IsSomeAnd (bytes_of (with_number h b at width number) b)
        (λ new. bytes_at new from size ≡ bytes_at old from size)) }
    ensures blocks { (h : Held) (b other : AnyBlock) (at width number : ℕ) → other ≢ b →
        bytes_of (with_number h b at width number) other ≡ bytes_of h other }
    ensures there { (h : Held) (b other : AnyBlock) (at width number from size : ℕ) →
        HasBytes h b at width → HasBytes h other from size →
        HasBytes (with_number h b at width number) other from size }
    ensures classes { (h : Held) (b : AnyBlock) (at width number place : ℕ) →
        option_map (λ k. k.class) (finite.get (with_number h b at width number).live place) ≡
        option_map (λ k. k.class) (finite.get h.live place) }
    ensures sizes { (h : Held) (b : AnyBlock) (at width number : ℕ) → HasBytes h b at width →
        live_bytes (with_number h b at width number).live ≡ live_bytes h.live }
{}

/// A new block has the first bytes of its class, and all other blocks keep theirs.
pub fn new_blocks_leave_the_others()
    ensures new { (h : Held) (p : Place) (class : ℕ) →
        bytes_of (with_new h p.0 class) (Live p) ≡ Some (first_bytes h class) }
    ensures others { (h : Held) (p : Place) (class : ℕ) (other : AnyBlock) → other ≢ Live p →
        bytes_of (with_new h p.0 class) other ≡ bytes_of h other }
{}

/// A block that was removed has no bytes, and all other blocks keep theirs.
pub fn removed_blocks_leave_the_others()
    ensures gone { (h : Held) (p : Place) → bytes_of (without h p.0) (Live p) ≡ None }
    ensures others { (h : Held) (p : Place) (other : AnyBlock) → other ≢ Live p →
        bytes_of (without h p.0) other ≡ bytes_of h other }
{}
