//! Laws that the speed of the search rests on.

ghost use Rattle.std.specs.Prelude.{◌≡◌, ℕ, ◌+◌, ◌*◌, ◌<◌, List, [], ◌++◌, length, take, Some, slice_get};
ghost use Rattle.yr_rows.specs.Walk.{AreOutputs};
ghost use Rattle.yr_rows.specs.Nodes.{link_of, own_of};
ghost use Rattle.yr_image.specs.Reading.{image_in};
ghost use Rattle.yr_machine.specs.Wellformed.{IsWellformed};
ghost use Rattle.yr_machine.specs.Hits.{AreHits, hit_count};
ghost use Rattle.yr_search.specs.Uppers.{own, upper, LeadsFrom0};
ghost use Rattle.yr_search.specs.Walked.{Stands, IsUpperAfter, AreFronts, total};
ghost use Rattle.yr_search.specs.Skips.{IsPassed};

/// A search that stands at node 0 before a pair of bytes that is not live passes over the first of them: after it there
/// is no hit but those of node 0, and the search stands at node 0 again.
pub fn pairs_that_are_not_live_are_passed()
    ensures { (bytes file : List ℕ) (p b c : ℕ) → IsWellformed bytes → Stands (image_in bytes) file p 0
        → slice_get file p ≡ Some b → slice_get file (p + 1) ≡ Some c → IsPassed (image_in bytes) b c
        → Stands (image_in bytes) file (p + 1) 0 × IsUpperAfter (image_in bytes) (take (p + 1) file) [] }
{}

/// The outputs of node 0 are hits after every front, and can be counted apart from the others.
pub fn hits_of_node_0_are_apart()
    ensures outputs { (bytes text : List ℕ) (n : ℕ) → IsWellformed bytes → LeadsFrom0 (image_in bytes) text n
        → n < length (image_in bytes).nodes
        → AreOutputs (link_of (image_in bytes).nodes) (own_of (image_in bytes).nodes (image_in bytes).outputs) n
        (upper (image_in bytes) n ++ own (image_in bytes) 0) }
    ensures count { (bytes file : List ℕ) (fronts : List (List ℕ)) → IsWellformed bytes
        → AreFronts (image_in bytes) file (length file) fronts
        → (hits : List (List ℕ)) × AreHits (image_in bytes) file hits
        × (hit_count hits ≡ (length file + 1) * length (own (image_in bytes) 0) + total fronts) }
{}
