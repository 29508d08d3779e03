//! What the calls of a bag do to its counts. Each function does nothing: its contract is the law.
ghost use Rattle.std.specs.Prelude.{◌≡◌, ℕ, ◌+◌, Bool, true, false, List, None, Some};
ghost use Rattle.std.specs.Ordering.{is_gt};
ghost use Rattle.std.specs.Bool.{Decides};
ghost use Rattle.event_keys.specs.declared.message.Message.{Message as MessageValue};
ghost use Rattle.event_keys.specs.declared.message.Signed.{Signed as SignedValue};
ghost use Rattle.event_keys.specs.declared.key.Bound.{Bound as BoundValue};
ghost use Rattle.event_keys.specs.declared.key.Bound.TheVariants.{At};
ghost use Rattle.event_keys.specs.Orders.{bound_order};
ghost use Rattle.antimessage.specs.Order.{IsInOrder};
ghost use Rattle.antimessage.specs.Counts.{Each, IsSorted, signed_cmp, plus, minus, count};
ghost use Rattle.raw_events.specs.Around.{first_where, without_where};
ghost use Rattle.antimessage.specs.Bags.{insert, insert_all, is_one, has_pair, met, least_of, is_below, without_below};

use crate::bag::Bag;

/// Sorted lists with the same counts are the same.
pub fn counts_law()
    ensures { (xs ys : List SignedValue) → IsSorted xs → IsSorted ys
        → ((x : SignedValue) → count x xs ≡ count x ys) → xs ≡ ys }
{}

/// `==` tells whether two bags have the same messages, each as often.
pub fn equal_law(a: &Bag, b: &Bag)
    ensures { Decides (⟦<Bag as PartialEq>⟧.eq a.now b.now) (a.now ≡ b.now) }
{}

/// A bag is in order, and the numbers of its keys fit their types.
pub fn order_law(bag: &Bag)
    ensures { IsInOrder bag.now }
{
    let _items = bag.iter();
}

/// To post adds one to one count, and leaves all others.
pub fn post_law()
    ensures more { (s : SignedValue) (bag : List SignedValue)
        → count s (insert s bag) ≡ count s bag + 1 }
    ensures others { (x s : SignedValue) (bag : List SignedValue) → (x ≡ s → ⊥)
        → count x (insert s bag) ≡ count x bag }
{}

/// What is taken passes the test, is one less, and is the least that passes; all other counts stay. Where nothing is taken
/// nothing passes.
pub fn take_law()
    ensures passes { (test : SignedValue → Bool) (s : SignedValue) (bag : List SignedValue)
        → first_where test bag ≡ Some s → test s ≡ true }
    ensures least { (test : SignedValue → Bool) (s : SignedValue) (bag : List SignedValue)
        → IsSorted bag → first_where test bag ≡ Some s
        → Each (λ y. test y ≡ true → is_gt (signed_cmp s y) ≡ false) bag }
    ensures less { (test : SignedValue → Bool) (s : SignedValue) (bag : List SignedValue)
        → first_where test bag ≡ Some s → count s bag ≡ count s (without_where test bag) + 1 }
    ensures others { (test : SignedValue → Bool) (x s : SignedValue) (bag : List SignedValue)
        → first_where test bag ≡ Some s → (x ≡ s → ⊥)
        → count x (without_where test bag) ≡ count x bag }
    ensures none { (test : SignedValue → Bool) (bag : List SignedValue)
        → first_where test bag ≡ None → Each (λ y. test y ≡ false) bag }
    ensures kept { (test : SignedValue → Bool) (bag : List SignedValue)
        → first_where test bag ≡ None → without_where test bag ≡ bag }
{}

/// What is taken as equal is the same; where nothing is taken its count is 0.
pub fn take_equal_law()
    ensures same { (x s : SignedValue) (bag : List SignedValue)
        → first_where (is_one x) bag ≡ Some s → s ≡ x }
    ensures none { (x : SignedValue) (bag : List SignedValue) → first_where (is_one x) bag ≡ None
        → count x bag ≡ 0 }
{}

/// To append adds the two counts of each signed message, and what is in order stays so.
pub fn append_law()
    ensures counts { (x : SignedValue) (more bag : List SignedValue)
        → count x (insert_all more bag) ≡ count x more + count x bag }
    ensures sorted { (more bag : List SignedValue) → IsSorted bag → IsSorted (insert_all more bag) }
{}

/// To drop below a bound leaves the count of each message at or above the bound, and none of one below it.
pub fn drop_below_law()
    ensures kept { (bound : BoundValue) (x : SignedValue) (bag : List SignedValue)
        → is_below bound x ≡ false → count x (without_below bound bag) ≡ count x bag }
    ensures dropped { (bound : BoundValue) (x : SignedValue) (bag : List SignedValue)
        → is_below bound x ≡ true → count x (without_below bound bag) ≡ 0 }
{}

/// To meet takes one off both counts of a message, and leaves all others; without a pair the bag stays.
pub fn meet_law()
    ensures pluses { (m : MessageValue) (bag : List SignedValue) → has_pair m bag ≡ true
        → count (plus m) bag ≡ count (plus m) (met m bag) + 1 }
    ensures minuses { (m : MessageValue) (bag : List SignedValue) → has_pair m bag ≡ true
        → count (minus m) bag ≡ count (minus m) (met m bag) + 1 }
    ensures others { (x : SignedValue) (m : MessageValue) (bag : List SignedValue)
        → (x ≡ plus m → ⊥) → (x ≡ minus m → ⊥) → count x (met m bag) ≡ count x bag }
    ensures kept { (m : MessageValue) (bag : List SignedValue) → has_pair m bag ≡ false
        → met m bag ≡ bag }
{}

/// The least key is not above the key of any message.
pub fn least_law()
    ensures { (bag : List SignedValue) → IsSorted bag
        → Each (λ s. is_gt (bound_order (least_of bag) (At s.message.key)) ≡ false) bag }
{}
