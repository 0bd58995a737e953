//! Laws of the numbering of classes.

ghost use Rattle.std.specs.Prelude.{◌≡◌, ℕ, ◌<◌, Bool, nat_lt, List, length, slice_index};
ghost use Rattle.std.specs.Ordering.{nat_cmp};
ghost use Rattle.link_classes.specs.Classes.{AreClasses};
ghost use Rattle.link_classes.specs.Linked.{Linked};
ghost use Rattle.link_classes.specs.Numbering.{IsNumber, IsCount};

/// Classes have one numbering: linked things have one number, and things of one number are linked.
pub fn one_numbering()
    ensures number { (is_thing : ℕ → Bool) (link : ℕ → ℕ → Bool) (a b m n : ℕ) → IsNumber nat_cmp is_thing link a m → IsNumber nat_cmp is_thing link b n
        → Linked link a b → m ≡ n }
    ensures linked { (is_thing : ℕ → Bool) (link : ℕ → ℕ → Bool) (a b n : ℕ) → IsNumber nat_cmp is_thing link a n → IsNumber nat_cmp is_thing link b n
        → Linked link a b }
    ensures count { (is_thing : ℕ → Bool) (link : ℕ → ℕ → Bool) (m n : ℕ) → IsCount nat_cmp is_thing link m → IsCount nat_cmp is_thing link n → m ≡ n }
{}

/// The two tables of `classes_of` say what the words say: each number below the size has the number of its class, two
/// of them have one number exactly where they are linked, and there are as many classes as least members.
pub fn tables_number_classes()
    ensures number { (size : ℕ) (touch : ℕ → ℕ → Bool) (label least : List ℕ) (a : ℕ) → AreClasses size touch label least → a < size
        → IsNumber nat_cmp (λ x. nat_lt x size) touch a (slice_index label a) }
    ensures same { (size : ℕ) (touch : ℕ → ℕ → Bool) (label least : List ℕ) (a b : ℕ) → AreClasses size touch label least → Linked touch a b
        → slice_index label a ≡ slice_index label b }
    ensures linked { (size : ℕ) (touch : ℕ → ℕ → Bool) (label least : List ℕ) (a b : ℕ) → AreClasses size touch label least → a < size → b < size
        → slice_index label a ≡ slice_index label b → Linked touch a b }
    ensures count { (size : ℕ) (touch : ℕ → ℕ → Bool) (label least : List ℕ) → AreClasses size touch label least
        → IsCount nat_cmp (λ x. nat_lt x size) touch (length least) }
{}
