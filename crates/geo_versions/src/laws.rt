//! What a set of operations means: laws for the crates above.
//!
//! A set is a list whose order and repetition do not matter. Each law is a function that does nothing: its clause is the law.
ghost use Rattle.std.specs.Prelude.{◌≡◌, ◌++◌, ◌∷◌, List, ℕ, max};
ghost use Rattle.geo_records.specs.Normal.{IsNormal};
ghost use Rattle.geo_records.specs.Operations.{Operation, SameOperations, state_of, state_joined, floor_of, record_of, flush_of, body_of, expiry_of, floor_joined, record_joined, above_both, latest};

/// What two sets mean together is the join of what each means, and their latest time is the later of the two.
pub fn union_is_join()
    ensures state { (ks ls : List Operation) → state_of (ks ++ ls) ≡ state_joined (state_of ks) (state_of ls) }
    ensures latest { (ks ls : List Operation) → latest (ks ++ ls) ≡ max (latest ks) (latest ls) }
{}

/// Equal sets mean the same, and have the same latest time.
pub fn equal_sets_mean_the_same()
    ensures state { (ks ls : List Operation) → SameOperations ks ls → state_of ks ≡ state_of ls }
    ensures latest { (ks ls : List Operation) → SameOperations ks ls → latest ks ≡ latest ls }
{}

/// One operation more is one floor or one record joined.
pub fn one_operation_joins()
    ensures floor { (op : Operation) (ops : List Operation) → floor_of (op ∷ ops) ≡ floor_joined (floor_of ops) (flush_of op) }
    ensures records { (op : Operation) (ops : List Operation) (q : List ℕ)
        → record_of (op ∷ ops) q ≡ above_both (floor_of (op ∷ ops)) (record_joined (record_of ops q) (body_of q op, expiry_of q op)) }
{}

/// Of what a set means no register is below or at the floor.
pub fn meaning_is_above_its_floor()
    ensures { (ops : List Operation) → IsNormal (state_of ops) }
{}
