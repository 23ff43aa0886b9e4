//! Laws of the definitions that the contracts cite: each function is there for its contract, which is the law.
ghost use Rattle.std.specs.Prelude.{◌≡◌, ◌≢◌, ℕ, ◌+◌, ◌<◌, ◌≤◌, ◌++◌, [], ◌∷◌, List, flat_map, length, slice_index, slice_set};
ghost use Rattle.vdcp_frame.specs.Message.{Content, framed, AreOctets, Fits, Spells, spelling};
ghost use Rattle.vdcp_frame.specs.Reading.{SpellsAll, End, clean, fault, burst_limit, Reads};
ghost use Rattle.vdcp_frame.specs.Burst.{messages_of, end_of};
ghost use Rattle.vdcp_frame.specs.Progress.{Progress, reading};
ghost use Rattle.vdcp_frame.specs.Reader.{Answer, ended_of, Follows, FollowsNext, IsEnd, ReadsAs};
ghost use Rattle.vdcp_frame.specs.Pieces.{Call, FeedsAll, with_message, messages_given, end_given};
ghost use Rattle.vdcp_frame.specs.declared.got.Ended.{Ended};
ghost use Rattle.vdcp_frame.specs.declared.message.Fault.TheVariants.{BadSum};

pub fn no_spelling_begins_another()
    ensures { (m n : Content) (a b more : List ℕ) → Spells m a → Spells n b → b ≡ a ++ more →
        (m ≡ n) × (more ≡ []) }
{}

pub fn one_spelling()
    ensures spelt { (m : Content) → Fits m → Spells m (spelling m) }
    ensures only { (m : Content) (bytes : List ℕ) → Spells m bytes → Fits m × (bytes ≡ spelling m) }
{}

pub fn what_is_spelt_is_bytes()
    ensures message { (m : Content) (bytes : List ℕ) → Spells m bytes → AreOctets bytes }
    ensures size { (m : Content) (bytes : List ℕ) → Spells m bytes → (0 < length bytes) × (length bytes ≤ 258) }
    ensures messages { (ms : List Content) (bytes : List ℕ) → SpellsAll ms bytes → AreOctets bytes }
{}

pub fn one_reading()
    ensures some { (burst : List ℕ) → AreOctets burst → Reads burst (messages_of burst) (end_of burst) }
    ensures only { (burst : List ℕ) (ms ns : List Content) (e f : End) →
        Reads burst ms e → Reads burst ns f → (ms ≡ ns) × (e ≡ f) }
    ensures computed { (burst : List ℕ) (ms : List Content) (end : End) → AreOctets burst →
        Reads burst ms end → (ms ≡ messages_of burst) × (end ≡ end_of burst) }
{}

/// If exactly one byte of a framed message from CMD-1 to the checksum is changed, the burst reads as a bad sum at the
/// checksum's place, whatever whole messages come before and whatever follows.
pub fn one_changed_byte()
    ensures { (kind unit code : ℕ) (rest frame : List ℕ) (i byte : ℕ) (ms : List Content) (before more : List ℕ) →
        Spells (framed kind unit code rest) frame →
        2 ≤ i → i < length frame → byte < 256 → byte ≢ slice_index frame i →
        SpellsAll ms before → length before + length frame ≤ burst_limit →
        Reads ((before ++ slice_set frame i byte) ++ more) ms (fault BadSum (length before + length frame)) }
{}

/// Messages that were written into a burst's first 4,096 bytes are the first that are read, whatever follows them.
pub fn written_is_read()
    ensures first { (ms ns : List Content) (bytes more : List ℕ) (end : End) →
        SpellsAll ms bytes → length bytes ≤ burst_limit → Reads (bytes ++ more) ns end →
        (others : List Content) × (ns ≡ ms ++ others) }
    ensures alone { (ms : List Content) (bytes : List ℕ) →
        SpellsAll ms bytes → length bytes ≤ burst_limit → Reads bytes ms clean }
    ensures computed { (ms : List Content) (bytes : List ℕ) →
        SpellsAll ms bytes → length bytes ≤ burst_limit → (messages_of bytes ≡ ms) × (end_of bytes ≡ clean) }
{}

pub fn a_spelling_is_its_message()
    ensures alone { (m : Content) (ms : List Content) (end : End) → Fits m →
        Reads (spelling m) ms end → (ms ≡ m ∷ []) × (end ≡ clean) }
    ensures first { (m : Content) (more : List ℕ) (ms : List Content) (end : End) → Fits m →
        Reads (spelling m ++ more) ms end → (others : List Content) × (ms ≡ m ∷ others) }
    ensures messages { (m : Content) → Fits m → messages_of (spelling m) ≡ m ∷ [] }
    ensures end { (m : Content) → Fits m → end_of (spelling m) ≡ clean }
    ensures before { (m : Content) (more : List ℕ) → Fits m → AreOctets more →
        (others : List Content) × (messages_of (spelling m ++ more) ≡ m ∷ others) }
{}

#[tactic(auto, using(crate::proofs::ReaderLemmas::follows_none, crate::proofs::FollowLemmas::next_followed))]
pub fn what_is_fed_is_followed()
    ensures start { Follows [] [] (reading 0 []) }
    ensures next { (burst : List ℕ) (ms : List Content) (answer : Answer) (new : Progress) →
        FollowsNext burst ms answer new → Follows burst (ms ++ with_message answer []) new }
{}

/// If the burst ends here, its messages are those given so far, and its end is what a silence tells.
pub fn what_is_followed_is_read()
    ensures read { (burst : List ℕ) (ms : List Content) (p : Progress) →
        Follows burst ms p → ReadsAs burst ms (ended_of p) }
    ensures first { (burst more : List ℕ) (ms ns : List Content) (p : Progress) (end : End) →
        Follows burst ms p → Reads (burst ++ more) ns end → (others : List Content) × (ns ≡ ms ++ others) }
    ensures messages { (burst : List ℕ) (ms : List Content) (p : Progress) → AreOctets burst →
        Follows burst ms p → ms ≡ messages_of burst }
    ensures end { (burst : List ℕ) (ms : List Content) (p : Progress) → AreOctets burst →
        Follows burst ms p → IsEnd (ended_of p) (end_of burst) }
    ensures further { (burst more : List ℕ) (ms : List Content) (p : Progress) → AreOctets (burst ++ more) →
        Follows burst ms p → (others : List Content) × (messages_of (burst ++ more) ≡ ms ++ others) }
{}

#[tactic(auto, using(crate::proofs::FollowLemmas::told_messages, crate::proofs::FollowLemmas::told_end))]
pub fn what_a_silence_tells_is_computed()
    ensures messages { (burst : List ℕ) (ms : List Content) (ended : Ended) → AreOctets burst →
        ReadsAs burst ms ended → ms ≡ messages_of burst }
    ensures end { (burst : List ℕ) (ms : List Content) (ended : Ended) → AreOctets burst →
        ReadsAs burst ms ended → IsEnd ended (end_of burst) }
{}

/// However a burst is cut into pieces, a new reader gives the messages and the end of the joined pieces.
#[tactic(auto, using(crate::proofs::PieceLemmas::pieces_read))]
pub fn pieces_are_read_as_one()
    ensures { (pieces : List (List ℕ)) (calls : List (List Call)) (new : Progress) →
        FeedsAll (reading 0 []) pieces calls new →
        Reads (flat_map (λ p. p) pieces) (messages_given (flat_map (λ c. c) calls))
        (end_given (flat_map (λ c. c) calls) (ended_of new)) }
{}
