//! Laws of lists of links in the order of their targets.
ghost use Rattle.std.specs.Prelude.{◌≡◌, ◌≤◌, ◌↔◌, ◌||◌, ◌==◌, ℕ, List, ◌∷◌, Some, true, false, length, slice_get};
ghost use Rattle.std.specs.List.{All, Contains, list_any};
ghost use Rattle.std.specs.List.Sorted.{IsPermutation};
ghost use Rattle.sub_table.specs.Link.{Link};
ghost use Rattle.sub_table.specs.Links.{AreInOrder, has_target, is_same_link, links_at, with_link, without_link};
ghost use Rattle.sub_table.specs.Links.{without_links_at};

/// Two lists in the order of the targets that have the same links are one list.
pub fn lists_in_order_are_one()
    ensures { (ks ls : List Link) → AreInOrder ks → AreInOrder ls
        → ((l : Link) → Contains ks l ↔ Contains ls l) → ks ≡ ls }
{}

/// A list in order stays so when a link with a new target goes in, and when links go out.
pub fn changes_keep_the_order()
    ensures more { (l : Link) (links : List Link) → AreInOrder links
        → list_any (has_target l.to l.to_slot) links ≡ false → AreInOrder (with_link l links) }
    ensures less { (l : Link) (links : List Link) → AreInOrder links → AreInOrder (without_link l links) }
    ensures less_at { (ids : List ℕ) (links : List Link) → AreInOrder links → AreInOrder (without_links_at ids links) }
{}

/// A link that goes in is there beside the others, and counts among those at its two ends.
pub fn a_new_link_joins_the_others()
    ensures all { (l : Link) (links : List Link) → IsPermutation (l ∷ links) (with_link l links) }
    ensures count { (l : Link) (links : List Link) (id : ℕ)
        → length (links_at id (with_link l links)) ≡ length (links_at id (l ∷ links)) }
{}

/// What was taken out is gone, and no component has more links than before.
pub fn links_taken_out_are_gone()
    ensures one { (l : Link) (links : List Link) → list_any (is_same_link l) (without_link l links) ≡ false }
    ensures at { (ids : List ℕ) (links : List Link)
        → All (λ l. (list_any (λ id. l.from == id) ids ≡ false) × (list_any (λ id. l.to == id) ids ≡ false))
        (without_links_at ids links) }
    ensures fewer { (l : Link) (links : List Link) (id : ℕ)
        → length (links_at id (without_link l links)) ≤ length (links_at id links) }
    ensures fewer_at { (ids : List ℕ) (links : List Link) (id : ℕ)
        → length (links_at id (without_links_at ids links)) ≤ length (links_at id links) }
{}

/// Into a slot leads one link at most.
pub fn targets_are_unlike()
    ensures { (k l : Link) (links : List Link) → AreInOrder links → Contains links k → Contains links l
        → has_target l.to l.to_slot k ≡ true → k ≡ l }
{}

/// Among the links at a component each stands once, also one that leads from it into itself.
pub fn each_link_is_at_its_ends_once()
    ensures there { (l : Link) (links : List Link) (id : ℕ) → Contains links l
        → ((l.from == id) || (l.to == id)) ≡ true → Contains (links_at id links) l }
    ensures once { (l : Link) (links : List Link) (id m n : ℕ) → AreInOrder links
        → slice_get (links_at id links) m ≡ Some l → slice_get (links_at id links) n ≡ Some l → m ≡ n }
{}
