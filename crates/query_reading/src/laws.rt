//! A law of the definitions: the contract of a function that does nothing.
ghost use Rattle.std.specs.Prelude.{◌≡◌, ℕ, List};
ghost use Rattle.query_reading.specs.Inputs.{AsksInOrder};
ghost use Rattle.query_reading.specs.declared.asked.QueryAsked.{QueryAsked};

use crate::grammar::Grammar;

/// By a grammar, bytes ask exactly one thing: they are cut into queries in one way.
pub fn bytes_ask_one_thing<G: Grammar>()
    ensures { (bytes : List ℕ) (asks others : List (QueryAsked G.Query G.Head))
        → AsksInOrder G.says bytes asks
        → AsksInOrder G.says bytes others → asks ≡ others }
{}
