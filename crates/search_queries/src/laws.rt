//! A law of the definitions: the contract of a function that does nothing.
ghost use Rattle.std.specs.Prelude.{◌≡◌, ◌⊎◌, ℤ, List as Items};
ghost use Rattle.query_reading.specs.declared.reply.QueryReply.{QueryReply};
ghost use Rattle.register_words.specs.declared.sheets.Form.{Form as DeclaredForm};
ghost use Rattle.search_queries.specs.Searches.{HasShortPacket, LacksMemory, SearchAsked, SearchState, SearchStep};

/// In a state a query has one reply and one next state, unless memory runs out. This doesn't cover packets of 2^64
/// bytes or more.
pub fn queries_have_one_reply()
    ensures { (form : DeclaredForm) (state new next : SearchState) (asked : SearchAsked)
        → (moments later : Items ℤ) (reply other : QueryReply) → HasShortPacket asked
        → SearchStep form state asked moments reply new → SearchStep form state asked later other next
        → LacksMemory state reply new ⊎ LacksMemory state other next ⊎ ((reply ≡ other) × (new ≡ next)) }
{}
