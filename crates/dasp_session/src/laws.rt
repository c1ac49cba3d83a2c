//! Laws of sessions.
ghost use Rattle.std.specs.Prelude.{◌≡◌, ◌≢◌, ◌+◌, ◌%◌, ◌<◌, ◌≤◌, None, Option, List, length, ℕ, ℤ};
ghost use Rattle.sed_outside.specs.declared.addr.Addr.{Addr as Address};
ghost use Rattle.dasp_msg.specs.declared.kind.MsgKind.{MsgKind};
ghost use Rattle.dasp_msg.specs.Shown.{Message};
ghost use Rattle.dasp_session.specs.declared.user.User.{User as Client};
ghost use Rattle.dasp_session.specs.Looking.{found_from, is_session_of};
ghost use Rattle.dasp_session.specs.Session.{State};
ghost use Rattle.dasp_session.specs.Receive.{advanced, id_of, keep_of, new_state, post_of, received, stays, tick_of};
ghost use Rattle.dasp_session.specs.Speaking.{AllCanSpeak, Speaks};

/// Bytes that are no message change nothing, and get no answer.
pub fn what_is_malformed_changes_nothing()
    ensures { (state : State) (from : Address) → received state from None ≡ stays state }
{}

/// A message that is no hello and whose id or address is that of no live session changes nothing, and gets no answer.
pub fn strangers_change_nothing()
    ensures { (state : State) (from : Address) (message : Message) → message.kind ≢ MsgKind.Hello
        → found_from (is_session_of message.to from) 0 state.sessions ≡ None
        → received state from (Some message) ≡ stays state }
{}

/// Ids are equal exactly where their places are, and the numbers of their sessions modulo 4,095: so of sessions that
/// were made with fewer than 4,095 others between them, all ids differ. None is 65,535, to which a hello is sent.
pub fn ids_differ()
    ensures place { (made other place beside : ℕ) → place < 16 → beside < 16
        → id_of made place ≡ id_of other beside → place ≡ beside }
    ensures number { (made other place beside : ℕ) → place < 16 → beside < 16
        → made < other + 4095 → other < made + 4095 → id_of made place ≡ id_of other beside → made ≡ other }
    ensures modulo { (made other place beside : ℕ) → place < 16 → beside < 16
        → id_of made place ≡ id_of other beside → made % 4095 ≡ other % 4095 }
    ensures again { (made other place : ℕ) → made % 4095 ≡ other % 4095 → id_of made place ≡ id_of other place }
    ensures never { (made place : ℕ) → place < 16 → id_of made place < 65535 }
{}

/// Each letter that a step of the sessions emits may be sent in one datagram, where the nonces of the sessions have at
/// most ten bytes and what was posted at most 498. That holds at the beginning, and each step keeps it.
pub fn letters_can_go()
    ensures beginning { (users : List Client) (secret : List ℕ) (moment : ℤ)
        → AllCanSpeak (new_state users secret moment) }
    ensures received { (state : State) (from : Address) (message : Option Message)
        → AllCanSpeak state → Speaks (received state from message) }
    ensures advanced { (state : State) (moment : ℤ) → AllCanSpeak state → AllCanSpeak (advanced state moment) }
    ensures ticked { (state : State) (place : ℕ) → AllCanSpeak state → Speaks (tick_of state place) }
    ensures posted { (state : State) (place : ℕ) (bytes : List ℕ) → length bytes ≤ 498
        → AllCanSpeak state → Speaks (post_of state place bytes) }
    ensures kept { (state : State) (place : ℕ) → AllCanSpeak state → Speaks (keep_of state place) }
{}
