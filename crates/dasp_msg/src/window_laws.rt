//! Laws of numbers, of lists of indexes and of acks.
ghost use Rattle.std.specs.Prelude.{◌≡◌, ℕ, ◌<◌, ◌^◌, true, false, List, Some, length};
ghost use Rattle.dasp_msg.specs.Numbers.{StandsForIndex, index_of};
ghost use Rattle.dasp_msg.specs.Posted.{StandsForCount, count_of, open_part};
ghost use Rattle.dasp_msg.specs.TakenIndexes.{is_taken, first_gap, IsTakenList};
ghost use Rattle.dasp_msg.specs.TakenIndexes.{after_take, delivered, EachOnce};

use crate::outgoing::Message;

/// A number stands for at most one index, and `index_of` is that one.
pub fn numbers_stand_for_indexes()
    ensures found { (gap number index : ℕ) → number < 2 ^ 16
        → index_of gap number ≡ Some index → StandsForIndex gap number index }
    ensures only { (gap number index : ℕ) → StandsForIndex gap number index → index_of gap number ≡ Some index }
    ensures one { (gap number index other : ℕ)
        → StandsForIndex gap number index → StandsForIndex gap number other → index ≡ other }
{}

/// An ack stands for at most one count, and `count_of` is that one, where fewer than 65,536 messages are open.
pub fn acks_stand_for_counts()
    ensures found { (posted : List Message) (ack count : ℕ)
        → count_of posted ack ≡ Some count → StandsForCount posted ack count }
    ensures only { (posted : List Message) (ack count : ℕ) → length (open_part posted) < 2 ^ 16
        → StandsForCount posted ack count → count_of posted ack ≡ Some count }
    ensures one { (posted : List Message) (ack count other : ℕ) → length (open_part posted) < 2 ^ 16
        → StandsForCount posted ack count → StandsForCount posted ack other → count ≡ other }
{}

/// All indexes below the first gap were taken, and it was not.
pub fn first_gap_is_the_least()
    ensures below { (taken : List ℕ) (index : ℕ) → IsTakenList taken
        → index < first_gap taken → is_taken taken index ≡ true }
    ensures gap { (taken : List ℕ) → IsTakenList taken → is_taken taken (first_gap taken) ≡ false }
{}

/// What a receiver can have taken stays ascending, with each index once and less than 31 above the first gap, whatever
/// numbers come.
pub fn taken_lists_stay_so()
    ensures { (taken : List ℕ) (number : ℕ) → IsTakenList taken → IsTakenList (after_take taken number) }
{}

/// An index that was taken stays taken.
pub fn what_was_taken_stays()
    ensures { (taken : List ℕ) (number index : ℕ)
        → is_taken taken index ≡ true → is_taken (after_take taken number) index ≡ true }
{}

/// Whatever numbers come, no index is delivered that was taken before, and none is delivered twice.
pub fn each_index_is_new_once()
    ensures once { (taken numbers : List ℕ) → EachOnce (delivered taken numbers) }
    ensures fresh { (taken numbers : List ℕ) (index : ℕ)
        → is_taken taken index ≡ true → is_taken (delivered taken numbers) index ≡ false }
{}
