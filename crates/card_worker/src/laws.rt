//! Laws of hands, groups and boards, as the contracts of functions that do nothing.

ghost use Rattle.std.specs.Prelude.{◌≡◌, ◌+◌, ℕ, false, List, [], ◌∷◌, ◌++◌, None, Some, length, set, slice_get};
ghost use Rattle.turn_lock.specs.Seats.{TurnValue, SeatValue, AreSeats, new_seat};
ghost use Rattle.slot_histories.specs.declared.events.Event.{Event};
ghost use Rattle.slot_histories.specs.Events.{Setup};
ghost use Rattle.slot_histories.specs.Columns.{column_of, row_told, served_told};
ghost use Rattle.slot_histories.specs.Legal.{IsAccepted, IsLegal};
ghost use Rattle.slot_board.specs.Columns.{IsBoard};
ghost use Rattle.card_core.specs.Plans.{Plan, IsGoodPlan};
ghost use Rattle.card_core.specs.Posts.{post_at};
ghost use Rattle.card_core.specs.Cards.{IsAfter, served_in};
ghost use Rattle.card_worker.specs.declared.hands.Hand.{Hand};
ghost use Rattle.card_worker.specs.declared.hands.Member.{Member};
ghost use Rattle.card_worker.specs.declared.hands.Group.{Group};
ghost use Rattle.card_worker.specs.Agreeing.{IsDriven};
ghost use Rattle.card_worker.specs.Trying.{IsMember};
ghost use Rattle.card_worker.specs.Driving.{AfterPasses};
ghost use Rattle.card_worker.specs.Disbanding.{AreFrom, member_count};
ghost use Rattle.card_worker.specs.Groups.{AreGroups};

/// Where all that a card of a good plan has posted at a board are the posts of its plan, and it has taken
/// as many slots, the board accepts the next post of the plan.
pub fn posts_are_accepted()
    ensures { (plan : Plan) (s : Setup) (events : List Event) → IsGoodPlan plan → IsLegal s events → plan.ports ≡ s.ports
        → IsDriven plan (column_of s plan.card events) → length (column_of s plan.card events).posts ≡ length (column_of s plan.card events).takings
        → IsAccepted s.ports plan.card (row_told (column_of s plan.card events)) (served_told (column_of s plan.card events))
        (post_at plan (served_in (column_of s plan.card events).takings) (length (column_of s plan.card events).takings)) }
{}

/// A new card and the new seat of its port are a member of the board.
pub fn new_members_agree()
    ensures { (board : TurnValue Event) (hand : Hand) → IsBoard board → hand.kept ≡ None → IsAfter hand.card [] false → hand.card.sends.plan.ports ≡ board.seats
        → IsMember board (record { hand = hand; seat = new_seat board hand.card.sends.plan.card }) }
{}

/// A group that gets the member of the next card is one of the board's groups as before.
pub fn groups_grow()
    ensures { (board : TurnValue Event) (cards : ℕ) (groups : List Group) (place : ℕ) (group new : Group) (member : Member) → AreGroups board cards groups
        → slice_get groups place ≡ Some group → new.members.items ≡ group.members.items ++ member ∷ [] → IsMember board member → member.seat.number ≡ cards
        → AreGroups board (cards + 1) (set groups place new) }
{}

/// Groups that were driven have the members of the same cards as before.
pub fn driven_groups_stay()
    ensures { (board : TurnValue Event) (cards patience : ℕ) (olds news : List Group) → AreGroups board cards olds → length news ≡ length olds
        → ((place : ℕ) (old new : Group) → slice_get olds place ≡ Some old → slice_get news place ≡ Some new → (made : ℕ)
        × AfterPasses board old.members.items new.members.items patience made)
        → AreGroups board cards news }
{}

/// The seats and hands that a board's groups are disbanded into are all of the board's, and agree.
pub fn disbanded_groups_agree()
    ensures seats { (board : TurnValue Event) (groups : List Group) (seats : List (SeatValue Event)) (hands : List Hand) → AreGroups board board.seats groups
        → AreFrom groups seats hands (member_count groups)
        → AreSeats board seats × (length hands ≡ length seats) }
    ensures members { (board : TurnValue Event) (groups : List Group) (seats : List (SeatValue Event)) (hands : List Hand)
        → AreGroups board board.seats groups → AreFrom groups seats hands (member_count groups)
        → (i : ℕ) (hand : Hand) (seat : SeatValue Event) → slice_get hands i ≡ Some hand → slice_get seats i ≡ Some seat
        → IsMember board (record { hand = hand; seat = seat }) }
{}
